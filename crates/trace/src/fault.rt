// Why a trace cannot be read on, and where.
ghost use Rattle.std.specs.Prelude.{◌≡◌};
ghost use Rattle.trace.specs.Faults.{number, fault_at};
ghost use Rattle.trace.specs.declared.fault.Cause.TheVariants.{OutOfRange};

use std::num::TryFromIntError;

// What is wrong with the trace.
#[derive(Clone, Copy, PartialEq, Eq, Debug)]
pub enum Cause {
    // the input, or a line of it, ends inside a record
    CutShort,
    // a number has too many digits or groups, or is too large
    TooLarge,
    // the kind or the first word is none that is known
    UnknownKind,
    // a field is outside its range
    OutOfRange,
    // a field is not all digits, or empty, or there is a word too many
    BadField,
}

impl Cause {
    // The fault of this cause where it arises.
    pub fn at(self, place: usize) -> Fault
        ensures { result ≡ fault_at self place }
    {
        Fault {
            cause: self,
            place,
            passed: 0,
        }
    }
}

// The number by which a cause is printed.
impl From<Cause> for u8 {
    ghost from_gives = { λ cause n. n ≡ number cause };

    fn from(cause: Cause) -> u8 {
        match cause {
            Cause::CutShort => 1,
            Cause::TooLarge => 2,
            Cause::UnknownKind => 3,
            Cause::OutOfRange => 4,
            Cause::BadField => 5,
        }
    }
}

// A field that its type does not hold is outside its range.
impl From<TryFromIntError> for Cause {
    ghost from_gives = { λ _ cause. cause ≡ OutOfRange };

    fn from(_error: TryFromIntError) -> Cause {
        Cause::OutOfRange
    }
}

// How a trace ends that cannot be read on.
#[derive(Clone, Copy, PartialEq, Eq, Debug)]
pub struct Fault {
    pub cause: Cause,
    // where the record or the line at fault begins
    pub place: usize,
    // how many layers have passed it up, stopping at 255; 0 where it arose
    pub passed: u8,
}

// What comes after the last record of a source: the end, or the fault.
pub type Ending = Result<(), Fault>;
