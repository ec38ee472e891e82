// The rows of a summary become those of its tree, in the same slice: all levels become one, and rows of equal path meet.
ghost use Rattle.std.specs.Prelude.{◌≡◌, ◌+◌, ◌<◌, max, length};
ghost use Rattle.rows.specs.Shapes.{shapes};
ghost use Rattle.rows.specs.Cells.{values, marks};
ghost use Rattle.rows.specs.Sound.{Table as Levels};
ghost use Rattle.rows.specs.Flats.{Ready, Seated, Flattening};

use crate::table::Table;
use metrics::metric::Metric;

impl<'a, M: Metric> Table<'a, M> {
    // Moves the row i, which stands behind the tree's rows, into the tree, and answers its row there.
    fn flatten_row(&mut self, i: usize) -> usize
        requires inside { i < length self.old.rows.now }
        requires ready { Ready (shapes self.old.rows.now) (marks self.old.rows.now) self.old.count i }
        ensures same_reference { self.new.rows.ghost_name ≡ self.old.rows.ghost_name }
        ensures seated { Seated M.measure (shapes self.old.rows.now) (shapes self.new.rows.now) (values M.means self.old.rows.now) (values M.means self.new.rows.now) (marks self.old.rows.now) (marks self.new.rows.now) self.old.count i result }
        ensures count { self.new.count ≡ max self.old.count (result + 1) }
    {
        let shape = self.look(i);
        let value = self.take(i);
        let to = if shape.function == 0 {
            0
        } else {
            let up = self.mark_of(usize::from(shape.parent));
            self.place(up, shape.function)
        };
        self.book(to, value);
        self.note(i, to);
        to
    }

    // Makes the rows in use, of the levels 0 to top, those of the tree. A row never goes behind the place that it is read from, so
    // nothing is lost.
    pub fn flatten(self, top: usize) -> Table<'a, M>
        requires { Levels (shapes self.rows.now) self.count top }
        ensures same_reference { result.rows.ghost_name ≡ self.entry.rows.ghost_name }
        ensures long { length result.rows.now ≡ length self.entry.rows.now }
        ensures flat { Flattening M.measure (shapes self.entry.rows.now) (shapes result.rows.now) (values M.means self.entry.rows.now) (values M.means result.rows.now) (marks result.rows.now) result.count self.entry.count }
    {
        let Table { rows, count: n } = self;
        let mut tree = Table::new(rows);
        tree.take_in();
        tree.note(0, 0);
        for i in 1..n {
            let _ = tree.flatten_row(i);
        }
        tree
    }
}
