// Work: how much weight the samples of a context have.
use crate::sum::{Amount, Sum};
use trace::record::Sample;

// Nothing for a call, its weight for a sample.
#[derive(Clone, Copy, PartialEq, Eq, Debug)]
pub struct SampleWeight;

impl Amount for SampleWeight {
    ghost call = { 0 };

    ghost sample = { λ s. s.weight };

    fn of_call() -> u64 {
        0
    }

    fn of_sample(sample: Sample) -> u64 {
        u64::from(sample.weight)
    }

    fn names() -> (&'static str, &'static str) {
        ("Work", "weight")
    }
}

// A sum of weights.
pub type Work = Sum<SampleWeight>;
