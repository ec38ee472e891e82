// A trace that stands decoded in a table.
ghost use Rattle.std.specs.Prelude.{◌≡◌, drop};
ghost use Rattle.trace.specs.Tables.{table_meaning, table_ranged, table_left};

use crate::fault::Fault;
use crate::record::Record;
use crate::source::Source;

// The records of a table, up to the first that is out of range.
#[derive(Drop)]
pub struct TableSource<'a> {
    table: &'a [Record],
    // the index of the next record
    at: usize,
}

impl<'a> TableSource<'a> {
    // All records of the table.
    pub fn new(table: &'a [Record]) -> TableSource<'a>
        ensures { table_left result ≡ table_meaning 0 table.now }
    {
        TableSource { table, at: 0 }
    }
}

impl Source for TableSource<'_> {
    ghost records = { λ s. (table_left s).records };

    ghost ending = { λ s. (table_left s).ending };

    ghost ranged = { λ s. table_ranged s.at (drop s.at s.table.now) };

    // The index moves on only past a record in range, so that a fault and the end are answered again.
    fn next(&mut self) -> Result<Option<Record>, Fault> {
        let at = self.at;
        let Some(record) = self.table.get(at) else {
            return Ok(None);
        };
        let record = record.checked().map_err(|cause| cause.at(at))?;
        self.at = at + 1;
        Ok(Some(record))
    }
}
