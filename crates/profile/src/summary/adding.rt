// New summaries, and one record more.
ghost use Rattle.std.specs.Prelude.{◌≡◌, ◌<◌, ◌≤◌, length, slice_index_or};
ghost use Rattle.trace.specs.declared.record.Record.TheVariants.{Call, Return, Unwind, Sample as Sampled};
ghost use Rattle.rows.specs.Shapes.{shapes, blank};
ghost use Rattle.profile.specs.Given.{Given, tabled};
ghost use Rattle.profile.specs.View.{view, fresh, Begins};

use super::Summary;
use metrics::metric::Metric;
use rows::rejection::Rejection;
use rows::row::{Row, Shape};
use rows::table::Table;
use trace::record::{Record, Sample};

// Whether a summary can stand in a table of so many rows: asked before a summary is made.
pub fn check_table<M>(rows: &[Row<M>]) -> Result<(), Rejection>
    ensures { result ≡ tabled (length rows.now) }
{
    if rows.is_empty() || rows.len() > 65535 {
        return Err(Rejection::TableSize);
    }
    Ok(())
}

impl<'a, M: Metric> Summary<'a, M> {
    // The summary of no records, in a table that `check_table` has passed.
    pub fn new(rows: &'a mut [Row<M>]) -> Summary<'a, M>
        requires some { 0 < length rows.old }
        requires few { length rows.old ≤ 65535 }
        ensures { view M.measure M.means result ≡ fresh M.measure (length rows.old) }
    {
        let mut table = Table::new(rows);
        table.push(Shape::root(0, 0));
        Summary {
            table,
            level: 0,
            current: 0,
        }
    }

    // The same, in a table of any size: one that no summary can stand in is rejected.
    pub fn over(rows: &'a mut [Row<M>]) -> Result<Summary<'a, M>, Rejection>
        ensures { Begins M.measure M.means (length rows.old) result }
    {
        check_table(rows)?;
        Ok(Summary::new(rows))
    }

    // The open path's row, without its value.
    fn at_open(&self) -> Shape
        ensures { result ≡ slice_index_or (shapes self.now.table.rows.now) self.now.current blank }
    {
        self.table.look(self.current)
    }

    // Enters a function.
    pub fn call(&mut self, function: u16) -> Result<(), Rejection>
        ensures { Given M.measure (view M.measure M.means self.old) (view M.measure M.means self.new) (Call function) result }
    {
        if !(Record::Call { function }).is_in_range() {
            return Err(Rejection::OutOfRange);
        }
        self.current = self.table.enter(self.current, function)?;
        Ok(())
    }

    // Books a sample at the open path.
    pub fn sample(&mut self, sample: Sample) -> Result<(), Rejection>
        ensures { Given M.measure (view M.measure M.means self.old) (view M.measure M.means self.new) (Sampled sample) result }
    {
        if !sample.is_in_range() {
            return Err(Rejection::OutOfRange);
        }
        self.table.book(self.current, M::of_sample(sample));
        Ok(())
    }

    // Leaves the last function; where the path is empty, the level rises.
    pub fn return_(&mut self) -> Result<(), Rejection>
        ensures { Given M.measure (view M.measure M.means self.old) (view M.measure M.means self.new) Return result }
    {
        let open = self.at_open();
        if open.function != 0 {
            self.current = usize::from(open.parent);
            return Ok(());
        }
        let n = self.table.count();
        if n >= self.table.room() {
            return Err(Rejection::TooFewRows);
        }
        self.table.push(Shape::root(self.level + 1, n));
        self.level += 1;
        self.current = n;
        Ok(())
    }

    // Leaves so many functions at once.
    pub fn unwind(&mut self, count: u16) -> Result<(), Rejection>
        ensures { Given M.measure (view M.measure M.means self.old) (view M.measure M.means self.new) (Unwind count) result }
    {
        if !(Record::Unwind { count }).is_in_range() {
            return Err(Rejection::OutOfRange);
        }
        let deep = self.at_open().depth;
        let room = self.table.room() - self.table.count();
        if usize::from(count.saturating_sub(deep)) > room {
            return Err(Rejection::TooFewRows);
        }
        for _ in 0..count {
            self.return_()?;
        }
        Ok(())
    }

    // Adds one record, whichever it is.
    pub fn add(&mut self, record: Record) -> Result<(), Rejection>
        ensures { Given M.measure (view M.measure M.means self.old) (view M.measure M.means self.new) «record» result }
    {
        match record {
            Record::Call { function } => self.call(function),
            Record::Return => self.return_(),
            Record::Unwind { count } => self.unwind(count),
            Record::Sample(sample) => self.sample(sample),
        }
    }
}
