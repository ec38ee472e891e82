// The working tree of a shape: what the outline reads so that no step has to scan the rows.
ghost use Rattle.std.specs.Result.{MatchResult};
ghost use Rattle.rows.specs.ShapeColumn.{IsShape};
ghost use Rattle.report.specs.Answer.{TreeOf, Unmade};

use crate::fault::OutlineError;
use crate::order::{Entry, find_starts, has_twins, ordered};
use crate::rooted::{is_rooted, is_shallow, nodes_of};
use rows::shape::ShapeRow;
use std::alloc::Global;

// What the outline reads of one row.
#[derive(Clone, Copy, PartialEq, Eq, Debug)]
pub(crate) struct Node {
    // how many rows stand above it, up to row 0
    pub depth: u16,
    // the place in the order where its children begin, and the order's length where it has none; a shape has 65,535 rows at most
    pub start: u16,
}

#[derive(Drop)]
pub(crate) struct Tree {
    // the rows from 1 on, by parent and then by function
    pub order: Vec<Entry>,
    // each row's node, by the row's number
    pub nodes: Vec<Node>,
}

// The tree of a shape, or a refusal.
#[tactic(auto, using(crate::proofs::Apart::twins_fault, crate::proofs::Depths::nodes_shallow))]
pub(crate) fn tree_of(heap: Global, shape: &[ShapeRow]) -> Result<Tree, OutlineError>
    ensures { MatchResult result (λ t. IsShape shape.now × TreeOf shape.now t) (λ e. Unmade shape.now e) }
{
    if !is_rooted(shape) {
        return Err(OutlineError::NotAShape);
    }
    let mut nodes = nodes_of(heap, shape)?;
    if !is_shallow(&nodes) {
        return Err(OutlineError::NotAShape);
    }
    let order = ordered(heap, shape)?;
    if has_twins(&order) {
        return Err(OutlineError::NotAShape);
    }
    find_starts(&order, &mut nodes);
    Ok(Tree { order, nodes })
}
