// What a summary answers.
ghost use Rattle.std.specs.Prelude.{◌≡◌, ℕ, ◌<◌, ◌≤◌};
ghost use Rattle.profile.specs.Given.{Complete};
ghost use Rattle.profile.specs.View.{view, AnswersOpen, AnswersRow};

use super::{Summary, SummaryRow};
use metrics::metric::Metric;

impl<'a, M: Metric> Summary<'a, M> {
    // The level where the records end.
    pub fn level(&self) -> usize
        ensures { result ≡ (view M.measure M.means self.now).is.end.level }
    {
        self.level
    }

    // The row of the open path.
    pub fn open_row(&self) -> usize
        ensures { AnswersOpen M.measure M.means self.now result }
    {
        self.current
    }

    // How many rows there are: each of the summary's contexts has one, and no two have the same.
    pub fn row_count(&self) -> usize
        ensures is { result ≡ (view M.measure M.means self.now).count }
        ensures complete { Complete (view M.measure M.means self.now) }
    {
        self.table.count()
    }

    // The row of that number, none beyond the rows.
    pub fn row(&self, number: usize) -> Option<SummaryRow<M>>
        ensures { AnswersRow M.measure M.means self.now number result }
    {
        let (shape, value) = self.table.get(number)?;
        Some(SummaryRow {
            level: usize::from(shape.level),
            function: shape.function,
            parent: usize::from(shape.parent),
            value,
        })
    }
}
