// What each row shows by itself: that the rows hang together below one root.
ghost use Rattle.std.specs.Prelude.{◌≡◌, ◌+◌, ◌≤◌, ◌↔◌, length, IfOk, IsTrue, All, EachIndex, vec_len};
ghost use Rattle.report.specs.Node.{node_at};
ghost use Rattle.rows.specs.ShapeColumn.{IsRooted, depth_of};

use crate::tree::Node;
use rows::shape::ShapeRow;
use std::alloc::{AllocError, Global};

// A row's number is kept in 16 bits, and so is the number of the rows.
const MOST_ROWS: usize = 65_535;

// How many rows may stand above a row.
const MOST_DEPTH: u16 = 512;

// The row above all calls.
const ROOT: ShapeRow = ShapeRow {
    function: 0,
    parent: 0,
};

// Whether the rows are those of a tree, but for their depths and for rows that share parent and function.
pub(crate) fn is_rooted(shape: &[ShapeRow]) -> bool
    ensures { IsTrue result ↔ IsRooted shape.now }
{
    if shape.len() > MOST_ROWS || shape.first() != Some(&ROOT) {
        return false;
    }
    shape.iter().enumerate().skip(1).all(|(i, row)| {
        row.function != 0 && usize::from(row.parent) < i
    })
}

// A node for each row, with its depth. Where its children begin is not known yet, and is set to the order's end. A parent
// stands above its rows, so its depth is known when theirs are asked for.
pub(crate) fn nodes_of(heap: Global, shape: &[ShapeRow]) -> Result<Vec<Node>, AllocError>
    requires { IsRooted shape.now }
    ensures long { IfOk result (λ v. vec_len v ≡ length shape.now) }
    ensures depths { IfOk result (λ v. EachIndex v.items (λ i. (node_at v.items i).depth ≡ depth_of shape.now i)) }
    ensures starts { IfOk result (λ v. EachIndex v.items (λ i. (node_at v.items i).start + 1 ≡ length shape.now)) }
{
    let start = shape.len() as u16 - 1;
    let mut nodes = vec![in heap; Node { depth: 0, start }]?;
    for row in &shape[1..] {
        let above = nodes[usize::from(row.parent)].depth;
        nodes.push(Node {
            depth: above + 1,
            start,
        })?;
    }
    Ok(nodes)
}

// Whether no depth passes the limit.
pub(crate) fn is_shallow(nodes: &[Node]) -> bool
    ensures { IsTrue result ↔ All (λ node. node.depth ≤ 512) nodes.now }
{
    nodes.iter().all(|node| node.depth <= MOST_DEPTH)
}
