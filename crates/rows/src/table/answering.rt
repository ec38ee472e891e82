// What a table answers.
ghost use Rattle.std.specs.Prelude.{◌≡◌, ◌<◌, ◌≤◌, length, slice_index, slice_index_or};
ghost use Rattle.rows.specs.Shapes.{shapes, blank};
ghost use Rattle.rows.specs.Cells.{values, marks, Gets};

use super::Table;
use crate::row::Shape;
use metrics::metric::Metric;

impl<'a, M> Table<'a, M> {
    // How many rows are in use.
    pub fn count(&self) -> usize
        ensures { result ≡ self.now.count }
    {
        self.count
    }

    // How many rows there is room for.
    pub fn room(&self) -> usize
        ensures { result ≡ length self.now.rows.now }
    {
        self.rows.len()
    }

    // The shape of the row i.
    pub fn look(&self, i: usize) -> Shape
        requires { i < length self.now.rows.now }
        ensures { result ≡ slice_index_or (shapes self.now.rows.now) i blank }
    {
        self.rows[i].shape
    }

    // Where the row i went.
    pub fn mark_of(&self, i: usize) -> usize
        requires { i < length self.now.rows.now }
        ensures is { result ≡ slice_index (marks self.now.rows.now) i }
        ensures small { result ≤ 65535 }
    {
        usize::from(self.rows[i].mark)
    }
}

impl<'a, M: Metric> Table<'a, M> {
    // The value of the row at `at`.
    pub fn value_of(&self, at: usize) -> M
        requires { at < length self.now.rows.now }
        ensures { M.means result ≡ slice_index_or (values M.means self.now.rows.now) at M.measure.none }
    {
        self.rows[at].value
    }

    // The shape and the value of the row of that number, none beyond the rows in use.
    pub fn get(&self, number: usize) -> Option<(Shape, M)>
        ensures { Gets M.means M.measure.none (shapes self.now.rows.now) (values M.means self.now.rows.now) self.now.count number result }
    {
        let row = self.rows[..self.count].get(number)?;
        Some((row.shape, row.value))
    }
}
