// The records of a trace, and the ranges of their fields.
ghost use Rattle.std.specs.Prelude.{◌≡◌};
ghost use Rattle.trace.specs.Meanings.{ranged_only};
ghost use Rattle.trace.specs.Ranges.{in_range, sample_in_range};

use crate::fault::Cause;

// A sample: what a measurement saw at the position where the trace stood.
#[derive(Clone, Copy, PartialEq, Eq, Debug)]
pub struct Sample {
    // when it was taken, 0 to 4,294,967,295
    pub step: u32,
    // how much work it stands for, 1 to 4,294,967,295
    pub weight: u32,
    // where in the function, as a number of inlined code, 0 to 65,535; 0 is none
    pub site: u16,
    // the memory region that was touched, 0 to 63
    pub region: u8,
}

// One event of a trace.
#[derive(Clone, Copy, PartialEq, Eq, Debug)]
pub enum Record {
    // a function is entered, 1 to 65,535
    Call { function: u16 },
    // the innermost function is left
    Return,
    // a long jump leaves so many functions at once, 1 to 4,095
    Unwind { count: u16 },
    Sample(Sample),
}

impl Sample {
    // Whether each field is in its range.
    pub fn is_in_range(&self) -> bool
        ensures { result ≡ sample_in_range self.now }
    {
        self.weight >= 1 && self.region <= 63
    }
}

impl Record {
    // Whether each field is in its range.
    pub fn is_in_range(&self) -> bool
        ensures { result ≡ in_range self.now }
    {
        match self {
            Record::Call { function } => *function >= 1,
            Record::Return => true,
            Record::Unwind { count } => *count >= 1 && *count <= 4095,
            Record::Sample(sample) => sample.is_in_range(),
        }
    }

    // The record, if each field is in its range.
    pub(crate) fn checked(self) -> Result<Record, Cause>
        ensures { result ≡ ranged_only self }
    {
        if self.is_in_range() {
            Ok(self)
        } else {
            Err(Cause::OutOfRange)
        }
    }
}
