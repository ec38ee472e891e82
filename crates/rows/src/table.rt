// The table of rows that summaries and trees stand in.
ghost use Rattle.std.specs.Prelude.{◌≡◌, ◌+◌, ◌<◌, ◌≤◌, length, slice_index_or, slice_set};
ghost use Rattle.rows.specs.Shapes.{shapes};
ghost use Rattle.rows.specs.Cells.{values, marks, heads, links};
ghost use Rattle.rows.specs.Index.{place_of, Indexed};

mod answering;
mod stepping;

use crate::index::{chain, clear, put, slot_of};
use crate::row::{Row, Shape};
use metrics::metric::Metric;

// The first `count` rows of a slice that the user lends are in use, and are in their chains (`indexed`).
#[derive(Drop)]
pub struct Table<'a, M> {
    pub(crate) rows: &'a mut [Row<M>],
    pub(crate) count: usize,
    ghost fits: { count ≤ length rows.now },
    ghost few: { length rows.now ≤ 65535 },
    ghost indexed: { ∥ Indexed (shapes rows.now) (heads rows.now) (links rows.now) count ∥₁ },
}

impl<'a, M> Table<'a, M> {
    // The place of the row i in the index.
    fn slot_at(&self, i: usize) -> usize
        requires { i < length self.now.rows.now }
        ensures is { result ≡ place_of (shapes self.now.rows.now) i }
        ensures within { result < length self.now.rows.now }
    {
        let shape = self.look(i);
        slot_of(self.rows.len(), usize::from(shape.parent), shape.function)
    }
}

impl<'a, M: Metric> Table<'a, M> {
    // A table with no row in use.
    pub fn new(rows: &'a mut [Row<M>]) -> Table<'a, M>
        requires { length rows.old ≤ 65535 }
        ensures same_reference { result.rows.ghost_name ≡ rows.entry.ghost_name }
        ensures same { shapes result.rows.now ≡ shapes rows.old }
        ensures held { values M.means result.rows.now ≡ values M.means rows.old }
        ensures noted { marks result.rows.now ≡ marks rows.old }
        ensures none { result.count ≡ 0 }
    {
        clear(rows);
        Table { rows, count: 0 }
    }

    // Keeps where the row i went.
    pub(crate) fn note(&mut self, i: usize, to: usize)
        requires row { i < length self.old.rows.now }
        requires small { to ≤ 65535 }
        ensures same_reference { self.new.rows.ghost_name ≡ self.old.rows.ghost_name }
        ensures same { shapes self.new.rows.now ≡ shapes self.old.rows.now }
        ensures held { values M.means self.new.rows.now ≡ values M.means self.old.rows.now }
        ensures noted { marks self.new.rows.now ≡ slice_set (marks self.old.rows.now) i to }
        ensures head { heads self.new.rows.now ≡ heads self.old.rows.now }
        ensures link { links self.new.rows.now ≡ links self.old.rows.now }
        ensures count { self.new.count ≡ self.old.count }
    {
        self.rows[i].mark = to as u16;
    }

    // Joins a value to that of the row i.
    pub fn book(&mut self, i: usize, value: M)
        requires { i < length self.old.rows.now }
        ensures same_reference { self.new.rows.ghost_name ≡ self.old.rows.ghost_name }
        ensures same { shapes self.new.rows.now ≡ shapes self.old.rows.now }
        ensures held { values M.means self.new.rows.now ≡ slice_set (values M.means self.old.rows.now) i (M.measure.join (slice_index_or (values M.means self.old.rows.now) i M.measure.none) (M.means value)) }
        ensures noted { marks self.new.rows.now ≡ marks self.old.rows.now }
        ensures head { heads self.new.rows.now ≡ heads self.old.rows.now }
        ensures link { links self.new.rows.now ≡ links self.old.rows.now }
        ensures count { self.new.count ≡ self.old.count }
    {
        let own = self.rows[i].value;
        self.rows[i].value = own.join(value);
    }

    // Takes the value of the row i out, and leaves the unit.
    pub(crate) fn take(&mut self, i: usize) -> M
        requires { i < length self.old.rows.now }
        ensures same_reference { self.new.rows.ghost_name ≡ self.old.rows.ghost_name }
        ensures same { shapes self.new.rows.now ≡ shapes self.old.rows.now }
        ensures held { values M.means self.new.rows.now ≡ slice_set (values M.means self.old.rows.now) i M.measure.none }
        ensures noted { marks self.new.rows.now ≡ marks self.old.rows.now }
        ensures head { heads self.new.rows.now ≡ heads self.old.rows.now }
        ensures link { links self.new.rows.now ≡ links self.old.rows.now }
        ensures count { self.new.count ≡ self.old.count }
        ensures value { M.means result ≡ slice_index_or (values M.means self.old.rows.now) i M.measure.none }
    {
        let value = self.rows[i].value;
        self.rows[i].value = M::unit();
        value
    }

    // Takes the row after those in use into use as it is.
    pub(crate) fn take_in(&mut self)
        requires { self.old.count < length self.old.rows.now }
        ensures same_reference { self.new.rows.ghost_name ≡ self.old.rows.ghost_name }
        ensures same { shapes self.new.rows.now ≡ shapes self.old.rows.now }
        ensures held { values M.means self.new.rows.now ≡ values M.means self.old.rows.now }
        ensures noted { marks self.new.rows.now ≡ marks self.old.rows.now }
        ensures count { self.new.count ≡ self.old.count + 1 }
    {
        let n = self.count;
        let h = self.slot_at(n);
        chain(self.rows, n, h);
        self.count = n + 1;
    }

    // Puts a row with the unit after those in use.
    pub fn push(&mut self, shape: Shape)
        requires { self.old.count < length self.old.rows.now }
        ensures same_reference { self.new.rows.ghost_name ≡ self.old.rows.ghost_name }
        ensures same { shapes self.new.rows.now ≡ slice_set (shapes self.old.rows.now) self.old.count shape }
        ensures held { values M.means self.new.rows.now ≡ slice_set (values M.means self.old.rows.now) self.old.count M.measure.none }
        ensures noted { marks self.new.rows.now ≡ marks self.old.rows.now }
        ensures count { self.new.count ≡ self.old.count + 1 }
    {
        put(self.rows, self.count, shape);
        self.take_in();
    }
}
