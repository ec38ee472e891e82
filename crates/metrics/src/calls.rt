// Calls: how often a context was entered.
use crate::sum::{Amount, Sum};
use trace::record::Sample;

// One for each call, nothing for a sample.
#[derive(Clone, Copy, PartialEq, Eq, Debug)]
pub struct CallCount;

impl Amount for CallCount {
    ghost call = { 1 };

    ghost sample = { λ s. 0 };

    fn of_call() -> u64 {
        1
    }

    fn of_sample(_sample: Sample) -> u64 {
        0
    }

    fn names() -> (&'static str, &'static str) {
        ("Calls", "count")
    }
}

// A number of calls.
pub type Calls = Sum<CallCount>;
