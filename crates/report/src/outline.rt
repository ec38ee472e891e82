// The outline of a shape: each row before its children, and these by rising function.
ghost use Rattle.std.specs.Prelude.{◌≡◌, ◌+◌, ◌<◌, ◌≤◌, length, OnErr, OnOk};
ghost use Rattle.report.specs.Answer.{Answers, TreeOf, led_from};
ghost use Rattle.report.specs.Outline.{Drawn, RowDrawn, RowsDrawn};
ghost use Rattle.rows.specs.ShapeColumn.{IsShape};
ghost use Rattle.report.specs.Size.{size_of};

use crate::fault::OutlineError;
use crate::tree::{Tree, tree_of};
use rows::shape::ShapeRow;
use std::alloc::Global;

// One line of an outline.
#[derive(Clone, Copy, PartialEq, Eq, Debug)]
pub struct Line {
    // the number of the row
    pub row: u16,
    // how many rows stand above it, up to row 0
    pub depth: u16,
}

// Writes the outline of the row `this` from the place `at` on, and says where it ends.
#[cycle(children_row)]
fn row(shape: &[ShapeRow], tree: &Tree, this: u16, at: usize, column: &mut [Line]) -> usize
    requires shape { IsShape shape.now }
    requires tree { TreeOf shape.now tree.now }
    requires this { this < length shape.now }
    requires room { at + size_of shape.now this ≤ length shape.now }
    requires column { length shape.now ≤ length column.old }
    ensures end { result ≡ at + size_of shape.now this }
    ensures drawn { RowDrawn shape.now this at result column.old column.new }
{
    column[at] = Line {
        row: this,
        depth: tree.nodes[usize::from(this)].depth,
    };
    children(shape, tree, this, at + 1, column)
}

// Writes the outlines of the children of `parent`, one after the other, from the place `at` on. It goes from one to the
// next by a loop: a call would take stack for each of them.
#[cycle(children_row)]
fn children(shape: &[ShapeRow], tree: &Tree, parent: u16, at: usize, column: &mut [Line]) -> usize
    requires shape { IsShape shape.now }
    requires tree { TreeOf shape.now tree.now }
    requires parent { parent < length shape.now }
    requires room { at + size_of shape.now parent ≤ length shape.now + 1 }
    requires column { length shape.now ≤ length column.old }
    ensures end { result + 1 ≡ at + size_of shape.now parent }
    ensures drawn { RowsDrawn shape.now (led_from shape.now tree.now parent) at result column.old column.new }
{
    let mut end = at;
    let start = tree.nodes[usize::from(parent)].start;
    for entry in &tree.order[usize::from(start)..] {
        let child = entry.row;
        if shape[usize::from(child)].parent != parent {
            break;
        }
        end = row(shape, tree, child, end, column);
    }
    end
}

// Fills the column's first places with the rows of the shape in the order of their outline. A refusal leaves the
// column as it was. Want of memory may be found before a fault in the depths or in rows that share parent and function.
#[tactic(auto, using(crate::proofs::Drawn::whole_drawn, crate::proofs::Sizes::size_root))]
pub fn outline(heap: Global, shape: &[ShapeRow], column: &mut [Line]) -> Result<(), OutlineError>
    ensures answers { Answers shape.now (length column.old) result }
    ensures drawn { OnOk result (Drawn shape.now column.old column.new) }
    ensures untouched { OnErr result (column.new ≡ column.old) }
{
    let tree = tree_of(heap, shape)?;
    if column.len() < shape.len() {
        return Err(OutlineError::ShortColumn);
    }
    let _end = row(shape, &tree, 0, 0, column);
    Ok(())
}
