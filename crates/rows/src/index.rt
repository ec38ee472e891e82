// The index of children, as it lies in the rows: each place of the table has a chain of the rows whose parent and function are mapped
// to it, so that a child is found in constant time however many its parent has. Here are the place of a child and the writes of rows
// and chains; the search itself is `Table::child`.
ghost use Rattle.std.specs.Prelude.{◌≡◌, ◌+◌, ◌<◌, ◌≤◌, length, slice_index, slice_set};
ghost use Rattle.rows.specs.Shapes.{shapes};
ghost use Rattle.rows.specs.Cells.{values, marks, heads, links};
ghost use Rattle.rows.specs.Index.{slot, Indexed};

use crate::row::{Row, Shape};
use metrics::metric::Metric;

// The place of a parent and a function. The factor spreads neighbouring parents over the table, and the children of one parent go
// to different places.
pub(crate) fn slot_of(places: usize, up: usize, function: u16) -> usize
    requires some { 0 < places }
    requires few { places ≤ 65535 }
    requires low { up ≤ 65535 }
    ensures is { result ≡ slot places up function }
    ensures within { result < places }
{
    ((up as u32 * 40503 + u32::from(function)) % places as u32) as usize
}

// Empties every chain.
pub(crate) fn clear<M: Metric>(rows: &mut [Row<M>])
    ensures same { shapes rows.new ≡ shapes rows.old }
    ensures held { values M.means rows.new ≡ values M.means rows.old }
    ensures noted { marks rows.new ≡ marks rows.old }
    ensures indexed { Indexed (shapes rows.new) (heads rows.new) (links rows.new) 0 }
{
    for row in rows.iter_mut() {
        row.head = 0;
    }
}

// Puts the row n before the others in the chain at place h.
pub(crate) fn chain<M: Metric>(rows: &mut [Row<M>], n: usize, h: usize)
    requires row { n < length rows.old }
    requires place { h < length rows.old }
    requires few { length rows.old ≤ 65535 }
    ensures same { shapes rows.new ≡ shapes rows.old }
    ensures held { values M.means rows.new ≡ values M.means rows.old }
    ensures noted { marks rows.new ≡ marks rows.old }
    ensures head { heads rows.new ≡ slice_set (heads rows.old) h (n + 1) }
    ensures link { links rows.new ≡ slice_set (links rows.old) n (slice_index (heads rows.old) h) }
{
    let first = rows[h].head;
    rows[n].next = first;
    rows[h].head = n as u16 + 1;
}

// Writes the row n with the unit as its value; its mark and both of its links stay.
pub(crate) fn put<M: Metric>(rows: &mut [Row<M>], n: usize, shape: Shape)
    requires { n < length rows.old }
    ensures same { shapes rows.new ≡ slice_set (shapes rows.old) n shape }
    ensures held { values M.means rows.new ≡ slice_set (values M.means rows.old) n M.measure.none }
    ensures noted { marks rows.new ≡ marks rows.old }
    ensures head { heads rows.new ≡ heads rows.old }
    ensures link { links rows.new ≡ links rows.old }
{
    let row = &mut rows[n];
    row.shape = shape;
    row.value = M::unit();
}
