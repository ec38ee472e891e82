// What a source is: a list of records still to come, and what comes after them.
ghost use Rattle.std.specs.Prelude.{◌≡◌, List};
ghost use Rattle.trace.specs.declared.record.Record.{Record};
ghost use Rattle.trace.specs.Ranges.{InRange};
ghost use Rattle.trace.specs.Sources.{Ending, Every, answered, rest};

use crate::fault::Fault;
use crate::record::Record;

// Whatever delivers the records of a trace, one after the other.
pub trait Source {
    // the records still to come
    ghost records: { Self → List Record };

    // what comes after them: the end, or a fault
    ghost ending: { Self → Ending };

    // each of them is in range
    ghost ranged: { (s : Self) → Every InRange (records s) };

    // The first record still to come, which leaves the source; none at its end, and its fault where it ends in one.
    fn next(&mut self) -> Result<Option<Record>, Fault>
        ensures answer { result ≡ answered (records self.old) (ending self.old) }
        ensures rest { records self.new ≡ rest (records self.old) }
        ensures ending { ending self.new ≡ ending self.old };
}
