// Why no outline is made.
ghost use Rattle.std.specs.Prelude.{◌≡◌};
ghost use Rattle.report.specs.Fault.{cause_of};
ghost use Rattle.report.specs.declared.fault.OutlineError.TheVariants.{NoMemory};

use std::alloc::AllocError;

#[derive(Clone, Copy, PartialEq, Eq, Debug)]
pub enum OutlineError {
    // the rows are not those of a tree
    NotAShape,
    // the column has fewer places than the shape has rows
    ShortColumn,
    // there is no memory for the working order
    NoMemory,
}

impl OutlineError {
    // The number that a refusal goes by. Want of memory has none.
    pub fn cause(self) -> Option<u8>
        ensures { result ≡ cause_of self }
    {
        match self {
            OutlineError::NotAShape => Some(14),
            OutlineError::ShortColumn => Some(13),
            OutlineError::NoMemory => None,
        }
    }
}

impl From<AllocError> for OutlineError {
    ghost from_gives = { λ _ r. r ≡ NoMemory };

    fn from(_error: AllocError) -> OutlineError {
        OutlineError::NoMemory
    }
}
