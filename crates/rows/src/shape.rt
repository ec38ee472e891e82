// The shape of a tree: what is left of its rows without their values.

// One row of a shape column.
#[derive(Clone, Copy, PartialEq, Eq, Debug)]
pub struct ShapeRow {
    // the last function of the row's path, 0 at the root
    pub function: u16,
    // the number of the row of the path without its last function, the root's own at the root
    pub parent: u16,
}
