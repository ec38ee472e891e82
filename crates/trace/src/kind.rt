// The kinds of records, and what tells them in each format.
ghost use Rattle.std.specs.Prelude.{◌≡◌};
ghost use Rattle.trace.specs.Kinds.{kind_of_byte, kind_of_word};

use crate::fault::Cause;

// What kind of record stands in a trace.
#[derive(Clone, Copy, PartialEq, Eq, Debug)]
pub enum Kind {
    Call,
    Return,
    Unwind,
    Sample,
}

// The kind that a word of a text names.
impl TryFrom<&[u8]> for Kind {
    type Error = Cause;

    ghost try_from_gives = { λ word r. r ≡ kind_of_word word.now };

    fn try_from(word: &[u8]) -> Result<Kind, Cause> {
        match word {
            b"call" => Ok(Kind::Call),
            b"back" => Ok(Kind::Return),
            b"unwind" => Ok(Kind::Unwind),
            b"sample" => Ok(Kind::Sample),
            _ => Err(Cause::UnknownKind),
        }
    }
}

// The kind that a byte tells.
impl TryFrom<u8> for Kind {
    type Error = Cause;

    ghost try_from_gives = { λ byte r. r ≡ kind_of_byte byte };

    fn try_from(byte: u8) -> Result<Kind, Cause> {
        match byte {
            1 => Ok(Kind::Call),
            2 => Ok(Kind::Return),
            3 => Ok(Kind::Unwind),
            4 => Ok(Kind::Sample),
            _ => Err(Cause::UnknownKind),
        }
    }
}
