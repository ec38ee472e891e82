// The order of the rows by parent and then by function, in which a row's children stand side by side.
ghost use Rattle.std.specs.Prelude.{◌≡◌, ◌<◌, ◌≤◌, ◌↔◌, length, IfOk, IsTrue, EachIndex};
ghost use Rattle.report.specs.Order.{entry_at, Listed, Arranged, Twins, Begins};
ghost use Rattle.report.specs.Node.{node_at};

use crate::tree::Node;
use rows::shape::ShapeRow;
use std::alloc::{AllocError, Global};

// A row that has a parent. The order of the fields is that of the comparison.
#[derive(Clone, Copy, PartialEq, Eq, PartialOrd, Ord, Debug)]
pub(crate) struct Entry {
    pub parent: u16,
    pub function: u16,
    pub row: u16,
}

// The rows from 1 on, as they stand.
fn listed(heap: Global, shape: &[ShapeRow]) -> Result<Vec<Entry>, AllocError>
    requires some { 0 < length shape.now }
    requires most { length shape.now ≤ 65535 }
    ensures { IfOk result (λ v. Listed shape.now v.items) }
{
    shape
        .iter()
        .enumerate()
        .skip(1)
        .map(|(i, row)| Entry {
            parent: row.parent,
            function: row.function,
            row: i as u16,
        })
        .collect(heap)
}

// The rows from 1 on, by parent and then by function.
pub(crate) fn ordered(heap: Global, shape: &[ShapeRow]) -> Result<Vec<Entry>, AllocError>
    requires some { 0 < length shape.now }
    requires most { length shape.now ≤ 65535 }
    ensures { IfOk result (λ v. Arranged shape.now v.items) }
{
    let mut order = listed(heap, shape)?;
    order.sort_unstable();
    Ok(order)
}

// Whether two rows share parent and function. In the order they would be neighbours.
pub(crate) fn has_twins(order: &[Entry]) -> bool
    ensures { IsTrue result ↔ Twins order.now }
{
    order.windows(2).any(|pair| {
        pair[0].parent == pair[1].parent && pair[0].function == pair[1].function
    })
}

// Writes into each row's node where its children begin: at the first entry with that parent.
pub(crate) fn find_starts(order: &[Entry], nodes: &mut [Node])
    requires most { length order.now ≤ 65535 }
    requires parents { EachIndex order.now (λ k. (entry_at order.now k).parent < length nodes.old) }
    requires past { EachIndex nodes.old (λ i. (node_at nodes.old i).start ≡ length order.now) }
    ensures starts { EachIndex nodes.new (λ i. Begins order.now i (node_at nodes.new i).start) }
    ensures depths { EachIndex nodes.new (λ i. (node_at nodes.new i).depth ≡ (node_at nodes.old i).depth) }
{
    for (k, entry) in order.iter().enumerate() {
        let parent = &mut nodes[usize::from(entry.parent)];
        parent.start = parent.start.min(k as u16);
    }
}
