// The interface of a metric: whatever values a summary's rows hold and join.
ghost use Rattle.std.specs.Prelude.{◌≡◌, true};
ghost use Rattle.trace.specs.Ranges.{sample_in_range};
ghost use Rattle.metrics.specs.Measures.{Measure, Laws};

use trace::record::Sample;

// A metric is the type of its values. They are small and copied freely.
pub trait Metric: Copy {
    // what a value means; two values are equal where they mean the same
    ghost Meaning: { Type 0 };

    ghost means: { Self → Meaning };

    // the unit, the values of records and the join, over the meanings
    ghost measure: { Measure Meaning };

    // The value of no record at all.
    fn unit() -> Self
        ensures { means result ≡ measure.none };

    // The value of a call.
    fn of_call() -> Self
        ensures { means result ≡ measure.of_call };

    // The value of a sample; only samples in range reach a metric.
    fn of_sample(sample: Sample) -> Self
        requires { sample_in_range sample ≡ true }
        ensures { means result ≡ measure.of_sample sample };

    // The value of the records of both.
    fn join(self, other: Self) -> Self
        ensures { means result ≡ measure.join (means self) (means other) };

    // the join is associative and commutative, and the unit changes nothing
    ghost lawful: { Laws measure };
}
