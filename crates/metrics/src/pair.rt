// Pair: two metrics side by side.
ghost use Rattle.metrics.specs.Pairs.{pair};
ghost use Rattle.metrics.specs.Lawful.{pair_laws};

use crate::metric::Metric;
use trace::record::Sample;

#[derive(Clone, Copy, PartialEq, Eq, Debug)]
pub struct Pair<A, B> {
    pub first: A,
    pub second: B,
}

impl<A: Metric, B: Metric> Metric for Pair<A, B> {
    ghost Meaning = { A.Metric.Meaning × B.Metric.Meaning };

    ghost means = { λ p. (A.Metric.means p.first, B.Metric.means p.second) };

    ghost measure = { pair A.Metric.measure B.Metric.measure };

    ghost lawful = { pair_laws A.Metric.lawful B.Metric.lawful };

    fn unit() -> Pair<A, B> {
        Pair {
            first: A::unit(),
            second: B::unit(),
        }
    }

    fn of_call() -> Pair<A, B> {
        Pair {
            first: A::of_call(),
            second: B::of_call(),
        }
    }

    fn of_sample(sample: Sample) -> Pair<A, B> {
        Pair {
            first: A::of_sample(sample),
            second: B::of_sample(sample),
        }
    }

    fn join(self, other: Pair<A, B>) -> Pair<A, B> {
        Pair {
            first: self.first.join(other.first),
            second: self.second.join(other.second),
        }
    }
}
