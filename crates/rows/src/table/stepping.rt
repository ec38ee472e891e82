// One step in a table: a call's.
ghost use Rattle.std.specs.Prelude.{◌≡◌, ◌+◌, ◌<◌, max, length, slice_index, slice_index_or};
ghost use Rattle.rows.specs.Shapes.{shapes, blank};
ghost use Rattle.rows.specs.Cells.{values, marks, heads, links};
ghost use Rattle.rows.specs.Index.{chained, Finds};
ghost use Rattle.rows.specs.Steps.{Counted, Reached, Reach, Enter};

use super::Table;
use crate::index::slot_of;
use crate::rejection::Rejection;
use crate::row::Shape;
use metrics::metric::Metric;

// The most functions that a path has.
const MOST_DEPTH: u16 = 512;

impl<'a, M> Table<'a, M> {
    // The first row of the chain at place h.
    fn first_of(&self, h: usize) -> Option<usize>
        requires { h < length self.now.rows.now }
        ensures { chained result ≡ slice_index (heads self.now.rows.now) h }
    {
        usize::from(self.rows[h].head).checked_sub(1)
    }

    // The row after i in its chain.
    fn next_of(&self, i: usize) -> Option<usize>
        requires { i < length self.now.rows.now }
        ensures { chained result ≡ slice_index (links self.now.rows.now) i }
    {
        usize::from(self.rows[i].next).checked_sub(1)
    }

    // The row of the function below `up`, if there is one.
    fn child(&self, up: usize, function: u16) -> Option<usize>
        requires { up < self.now.count }
        ensures { Finds (shapes self.now.rows.now) self.now.count up function result }
    {
        let mut next = self.first_of(slot_of(self.rows.len(), up, function));
        while let Some(i) = next {
            let shape = self.look(i);
            if usize::from(shape.parent) == up && shape.function == function {
                return Some(i);
            }
            next = self.next_of(i);
        }
        None
    }
}

impl<'a, M: Metric> Table<'a, M> {
    // The row of the function below `up`, made with the unit where there is none.
    pub(crate) fn place(&mut self, up: usize, function: u16) -> usize
        requires room { self.old.count < length self.old.rows.now }
        requires below { up < self.old.count }
        requires shallow { (slice_index_or (shapes self.old.rows.now) up blank).depth < 512 }
        ensures same_reference { self.new.rows.ghost_name ≡ self.old.rows.ghost_name }
        ensures reached { Reached M.measure.none (shapes self.old.rows.now) (shapes self.new.rows.now) (values M.means self.old.rows.now) (values M.means self.new.rows.now) self.old.count up function result }
        ensures noted { marks self.new.rows.now ≡ marks self.old.rows.now }
        ensures count { self.new.count ≡ max self.old.count (result + 1) }
    {
        if let Some(at) = self.child(up, function) {
            return at;
        }
        let at = self.count;
        let above = self.look(up);
        self.push(Shape {
            level: above.level,
            function,
            parent: up as u16,
            depth: above.depth + 1,
        });
        at
    }

    // The same, where the path may be too long or the table full.
    fn reach(&mut self, up: usize, function: u16) -> Result<usize, Rejection>
        requires { up < self.old.count }
        ensures same_reference { self.new.rows.ghost_name ≡ self.old.rows.ghost_name }
        ensures reached { Reach M.measure.none (shapes self.old.rows.now) (shapes self.new.rows.now) (values M.means self.old.rows.now) (values M.means self.new.rows.now) self.old.count up function result }
        ensures count { Counted self.old.count self.new.count result }
    {
        if self.look(up).depth >= MOST_DEPTH {
            return Err(Rejection::PathTooLong);
        }
        if self.count < self.rows.len() {
            return Ok(self.place(up, function));
        }
        self.child(up, function).ok_or(Rejection::TooFewRows)
    }

    // The same, with the value of a call joined.
    pub fn enter(&mut self, up: usize, function: u16) -> Result<usize, Rejection>
        requires { up < self.old.count }
        ensures same_reference { self.new.rows.ghost_name ≡ self.old.rows.ghost_name }
        ensures entered { Enter M.measure.none M.measure.join M.measure.of_call (shapes self.old.rows.now) (shapes self.new.rows.now) (values M.means self.old.rows.now) (values M.means self.new.rows.now) self.old.count up function result }
        ensures count { Counted self.old.count self.new.count result }
    {
        let at = self.reach(up, function)?;
        self.book(at, M::of_call());
        Ok(at)
    }
}
