// What a frame is.

// 68 L L 68 C A CI data S 16. The data are a part of the bytes that the frame was read from.
#[derive(Clone, Copy)]
pub struct LongFrame<'a> {
    pub control: u8,
    pub address: u8,
    pub information: u8,
    pub data: &'a [u8],
}

// One frame of the link layer.
#[derive(Clone, Copy)]
pub enum Frame<'a> {
    // E5
    Ack,
    // 10 C A S 16
    Short { control: u8, address: u8 },
    Long(LongFrame<'a>),
}
