// A frame.
use link::frame::{Frame, LongFrame};
use std::fmt;

// A frame, and the number of its telegram.
#[derive(Drop)]
pub struct FrameLine<'a> {
    pub telegram: u64,
    pub frame: Frame<'a>,
}

impl fmt::Display for FrameLine<'_> {
    fn fmt<W: fmt::Write>(&self, f: &mut fmt::Formatter<W>) -> fmt::Result {
        write!(f, "kind=frame telegram={} type=", self.telegram)?;
        match self.frame {
            Frame::Ack => f.write_str("ack"),
            Frame::Short { control, address } => write!(
                f,
                "short control={control:02X} address={address:02X}"
            ),
            Frame::Long(
                LongFrame {
                    control,
                    address,
                    information,
                    data,
                },
            ) => write!(
                f,
                "long control={control:02X} address={address:02X} information={information:02X} bytes={}",
                data.len()
            ),
        }
    }
}
