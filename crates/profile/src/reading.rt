// Reading a source into a summary.
ghost use Rattle.std.specs.Prelude.{◌≡◌};
ghost use Rattle.profile.specs.View.{view};
ghost use Rattle.profile.specs.Reads.{Reads, ReadsOne};
ghost use Rattle.profile.specs.Fixed.{ReadsFixed, NeverOutOfRange};
ghost use Rattle.profile.specs.declared.reading.Stop.TheVariants.{Faulted, Rejected};

use crate::summary::Summary;
use metrics::metric::Metric;
use rows::rejection::Rejection;
use trace::fault::Fault;
use trace::source::Source;

// Which of four things stopped a read-in.
#[derive(Clone, Copy, PartialEq, Eq, Debug)]
pub enum Stop {
    // as many records as were allowed have been added
    Limit,
    // the source is at its end
    End,
    // the source ends in a fault
    Faulted(Fault),
    // the summary rejects the next record, which has left the source
    Rejected(Rejection),
}

impl From<Fault> for Stop {
    ghost from_gives = { λ fault stop. stop ≡ Faulted fault };

    fn from(fault: Fault) -> Stop {
        Stop::Faulted(fault)
    }
}

impl From<Rejection> for Stop {
    ghost from_gives = { λ rejection stop. stop ≡ Rejected rejection };

    fn from(rejection: Rejection) -> Stop {
        Stop::Rejected(rejection)
    }
}

// What a read-in answers.
#[derive(Clone, Copy, PartialEq, Eq, Debug)]
pub struct ReadIn {
    // how many records were added
    pub added: usize,
    pub stop: Stop,
}

// Adds the next record of the source to the summary, or says what stopped that.
fn read_one<S: Source, M: Metric>(source: &mut S, summary: &mut Summary<'_, M>) -> Result<(), Stop>
    ensures { ReadsOne M.Metric.measure (view M.Metric.measure M.Metric.means summary.old) (view M.Metric.measure M.Metric.means summary.new) (S.Source.records source.old) (S.Source.records source.new) (S.Source.ending source.old) (S.Source.ending source.new) result }
{
    match source.next() {
        Ok(Some(record)) => Ok(summary.add(record)?),
        Ok(None) => Err(Stop::End),
        Err(fault) => Err(Stop::from(fault)),
    }
}

// Adds records of the source to the summary until the limit is reached, the source ends or the summary rejects.
pub fn read_in<S: Source, M: Metric>(
    source: &mut S,
    summary: &mut Summary<'_, M>,
    limit: usize,
) -> ReadIn
    ensures reads { Reads M.Metric.measure (view M.Metric.measure M.Metric.means summary.old) (view M.Metric.measure M.Metric.means summary.new) (S.Source.records source.old) (S.Source.records source.new) (S.Source.ending source.old) (S.Source.ending source.new) limit result.added result.stop }
    ensures ranged { NeverOutOfRange result.stop }
{
    for added in 0..limit {
        if let Err(stop) = read_one(source, summary) {
            return ReadIn { added, stop };
        }
    }
    ReadIn {
        added: limit,
        stop: Stop::Limit,
    }
}

// What holds of every read-in: it can only come out in one way.
pub fn reading_laws<M: Metric>()
    ensures { ReadsFixed M.measure }
{}
