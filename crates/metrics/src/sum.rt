// Sums: one number for the records of a context, added up record by record.
ghost use Rattle.std.specs.Prelude.{◌≡◌, ℕ};
ghost use Rattle.trace.specs.declared.record.Sample.{Sample};
ghost use Rattle.metrics.specs.Sums.{Capped, capped, sums};
ghost use Rattle.metrics.specs.Lawful.{sums_laws};

use crate::metric::Metric;
use std::fmt;
use std::marker::PhantomData;
use trace::record::Sample;

// What a sum counts: how much a call adds to it, and how much a sample.
pub trait Amount: Copy {
    ghost call: { ℕ };

    ghost sample: { Sample → ℕ };

    fn of_call() -> u64
        ensures { result ≡ call };

    fn of_sample(taken: Sample) -> u64
        ensures { result ≡ sample taken };

    // The names that `{:?}` writes, of the sum and of its total.
    fn names() -> (&'static str, &'static str) {
        ("Sum", "total")
    }
}

// A sum of such amounts, which stops at 18,446,744,073,709,551,615. Whoever wants another sum writes an amount; the laws hold of it.
#[derive(Clone, Copy, PartialEq, Eq)]
pub struct Sum<A> {
    pub total: u64,
    // what it counts; public, so that a constant can be written
    pub amount: PhantomData<A>,
}

impl<A: Amount> fmt::Debug for Sum<A> {
    fn fmt<W: fmt::Write>(&self, f: &mut fmt::Formatter<W>) -> fmt::Result {
        let (sum, total) = A::names();
        f.debug_struct(sum).field(total, &self.total).finish()
    }
}

impl<A> Sum<A> {
    // A sum that has come to the total.
    pub fn new(total: u64) -> Sum<A>
        ensures { result.total ≡ total }
    {
        Sum {
            total,
            amount: PhantomData,
        }
    }
}

impl<A: Amount> Metric for Sum<A> {
    ghost Meaning = { Capped };

    ghost means = { λ s. capped s.total };

    ghost measure = { sums A.Amount.call A.Amount.sample };

    ghost lawful = { sums_laws A.Amount.call A.Amount.sample };

    fn unit() -> Sum<A> {
        Sum::new(0)
    }

    fn of_call() -> Sum<A> {
        Sum::new(A::of_call())
    }

    fn of_sample(sample: Sample) -> Sum<A> {
        Sum::new(A::of_sample(sample))
    }

    fn join(self, other: Sum<A>) -> Sum<A> {
        Sum::new(self.total.saturating_add(other.total))
    }
}
