// The fault codes of a bench: what befalls its exchanges, one after another.
ghost use Rattle.std.specs.Prelude.{◌≡◌, ◌≤◌, true, vec_len};
ghost use Rattle.std.specs.List.{list_all};
ghost use Rattle.bench.specs.Codes.{Decodes, code_at, known, position_after};

// What befalls one exchange.
#[derive(Clone, Copy)]
pub(crate) enum Code {
    Clean,
    // the request is lost on its way out
    LostOut,
    // the reply is lost on its way back
    LostBack,
    // the reply is damaged on its way back
    Damaged,
}

// A number that stands for nothing that may befall an exchange.
#[derive(Clone, Copy)]
pub(crate) struct UnknownCode;

impl TryFrom<u8> for Code {
    type Error = UnknownCode;

    ghost try_from_gives = { Decodes };

    fn try_from(code: u8) -> Result<Code, UnknownCode> {
        match code {
            0 => Ok(Code::Clean),
            1 => Ok(Code::LostOut),
            2 => Ok(Code::LostBack),
            3 => Ok(Code::Damaged),
            _ => Err(UnknownCode),
        }
    }
}

// The codes and the place among them: an iterator would forget those that were used, and their count is told.
#[derive(Drop)]
pub(crate) struct FaultCodes {
    pub(crate) codes: Vec<u8>,
    // the number of the next exchange's code; it stops one past the last
    pub(crate) position: usize,
    ghost few: { vec_len codes ≤ 4096 },
    ghost all_known: { list_all known codes.items ≡ true },
}

impl FaultCodes {
    // What befalls the next exchange; after the last code, all are clean.
    pub(crate) fn next(&mut self) -> Code
        ensures codes { self.new.codes ≡ self.old.codes }
        ensures position { self.new.position ≡ position_after self.old.codes.items self.old.position }
        ensures code { result ≡ code_at self.old.codes.items self.old.position }
    {
        let Some(code) = self.codes.get(self.position).copied() else {
            self.position = self.codes.len() + 1;
            return Code::Clean;
        };
        self.position += 1;
        Code::try_from(code).unwrap()
    }
}
