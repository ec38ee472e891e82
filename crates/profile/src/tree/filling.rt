// What a tree fills columns with.
ghost use Rattle.std.specs.Prelude.{length};
ghost use Rattle.rows.specs.Columns.{meanings};
ghost use Rattle.profile.specs.Inclusions.{Places, Inclusion, Shaping};

use super::{ShortColumn, Tree};
use metrics::metric::Metric;
use rows::shape::ShapeRow;

impl<'a, M: Metric> Tree<'a, M> {
    // Whether a column has a place for each row.
    fn places<T>(&self, column: &[T]) -> Result<(), ShortColumn>
        ensures { Places self.now.table.count (length column.now) result }
    {
        if column.len() < self.table.count() {
            return Err(ShortColumn {
                places: column.len(),
            });
        }
        Ok(())
    }

    // Fills the column with function and parent of each row.
    pub fn shape(&self, column: &mut [ShapeRow]) -> Result<(), ShortColumn>
        ensures { Shaping self.now column.old column.new result }
    {
        self.places(column)?;
        self.table.fill_shape_first(self.table.count(), column);
        Ok(())
    }

    // Fills the column with each row's join over the rows whose path begins with its own.
    pub fn inclusive(&self, column: &mut [M]) -> Result<(), ShortColumn>
        ensures { Inclusion M.measure M.means self.now (meanings M.means column.old) (meanings M.means column.new) result }
    {
        self.places(column)?;
        self.table.fill_first(self.table.count(), column);
        Ok(())
    }
}
