// What a tree answers.
ghost use Rattle.std.specs.Prelude.{◌≡◌, ℕ, ◌<◌, ◌≤◌};
ghost use Rattle.profile.specs.Leaves.{tree_view, Whole, AnswersRow};

use super::{Tree, TreeRow};
use metrics::metric::Metric;

impl<'a, M: Metric> Tree<'a, M> {
    // How many returns of the records found no function to leave.
    pub fn strays(&self) -> usize
        ensures { result ≡ (tree_view M.measure M.means self.now).strays }
    {
        self.strays
    }

    // How many functions were open at the end.
    pub fn open(&self) -> usize
        ensures { result ≡ (tree_view M.measure M.means self.now).opened }
    {
        usize::from(self.table.look(self.current).depth)
    }

    // How many rows there are: each of the tree's paths has one, and no two have the same.
    pub fn row_count(&self) -> usize
        ensures is { result ≡ self.now.table.count }
        ensures whole { Whole M.measure M.means self.now }
    {
        self.table.count()
    }

    // The row of that number, none beyond the rows.
    pub fn row(&self, number: usize) -> Option<TreeRow<M>>
        ensures { AnswersRow M.measure M.means self.now number result }
    {
        let (shape, value) = self.table.get(number)?;
        Some(TreeRow {
            function: shape.function,
            parent: usize::from(shape.parent),
            value,
        })
    }
}
