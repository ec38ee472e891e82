// Columns beside a tree's rows: a place for each row.
ghost use Rattle.std.specs.Prelude.{◌≡◌, ◌<◌, ◌≤◌, length};
ghost use Rattle.rows.specs.Shapes.{shapes};
ghost use Rattle.rows.specs.Cells.{values};
ghost use Rattle.rows.specs.Sound.{Table as Levels};
ghost use Rattle.rows.specs.Columns.{meanings, Copied, handed, Filled, Shaped};

use crate::shape::ShapeRow;
use crate::table::Table;
use metrics::metric::Metric;

// Joins the value at r to that at p.
fn hand_up<M: Metric>(column: &mut [M], p: usize, r: usize)
    requires { (p < length column.old) × (r < length column.old) }
    ensures { meanings M.means column.new ≡ handed M.measure (meanings M.means column.old) p r }
{
    column[p] = column[p].join(column[r]);
}

impl<'a, M: Metric> Table<'a, M> {
    // Copies the values of the first n rows.
    fn copy_first(&self, n: usize, column: &mut [M])
        requires fits { n ≤ length self.now.rows.now }
        requires long { n ≤ length column.old }
        ensures { Copied M.measure.none (values M.means self.now.rows.now) (meanings M.means column.old) (meanings M.means column.new) n }
    {
        for (k, place) in column[..n].iter_mut().enumerate() {
            *place = self.rows[k].value;
        }
    }

    // Fills the column with the inclusive values of a tree's first n rows: from the last row on each hands its value to its parent, so
    // that one join for each row is enough.
    pub fn fill_first(&self, n: usize, column: &mut [M])
        requires fits { n ≤ length self.now.rows.now }
        requires tree { Levels (shapes self.now.rows.now) n 0 }
        requires long { n ≤ length column.old }
        ensures { Filled M.measure (shapes self.now.rows.now) (values M.means self.now.rows.now) (meanings M.means column.old) (meanings M.means column.new) n }
    {
        self.copy_first(n, column);
        for i in (1..n).rev() {
            hand_up(column, usize::from(self.look(i).parent), i);
        }
    }

    // The same, of the rows in use.
    pub fn fill(&self, column: &mut [M])
        requires tree { Levels (shapes self.now.rows.now) self.now.count 0 }
        requires long { self.now.count ≤ length column.old }
        ensures { Filled M.measure (shapes self.now.rows.now) (values M.means self.now.rows.now) (meanings M.means column.old) (meanings M.means column.new) self.now.count }
    {
        self.fill_first(self.count, column);
    }
}

impl<'a, M> Table<'a, M> {
    // Fills the column with the shape of the first n rows.
    pub fn fill_shape_first(&self, n: usize, column: &mut [ShapeRow])
        requires fits { n ≤ length self.now.rows.now }
        requires long { n ≤ length column.old }
        ensures { Shaped (shapes self.now.rows.now) column.old column.new n }
    {
        for (k, place) in column[..n].iter_mut().enumerate() {
            *place = ShapeRow {
                function: self.rows[k].shape.function,
                parent: self.rows[k].shape.parent,
            };
        }
    }

    // The same, of the rows in use.
    pub fn fill_shape(&self, column: &mut [ShapeRow])
        requires { self.now.count ≤ length column.old }
        ensures { Shaped (shapes self.now.rows.now) column.old column.new self.now.count }
    {
        self.fill_shape_first(self.count, column);
    }
}
