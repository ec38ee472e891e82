// The calling context tree of a summary, in the summary's table.
ghost use Rattle.std.specs.Prelude.{◌<◌};
ghost use Rattle.rows.specs.Shapes.{shapes};
ghost use Rattle.rows.specs.Sound.{Table as Levels};

mod answering;
mod filling;

use rows::table::Table;

// In a tree a context is its path alone: one level is left. No row can be added any more.
#[derive(Drop)]
pub struct Tree<'a, M> {
    pub(crate) table: Table<'a, M>,
    // how many levels the records rose above the first
    pub(crate) strays: usize,
    // the row at which the open path ends
    pub(crate) current: usize,
    ghost opened: { current < table.count },
    ghost sound: { ∥ Levels (shapes table.rows.now) table.count 0 ∥₁ },
}

// A row of a tree, as it is answered by number.
#[derive(Clone, Copy, PartialEq, Eq, Debug)]
pub struct TreeRow<M> {
    // the last function of the row's path, 0 at the root
    pub function: u16,
    // the row of the path without its last function, the root's own at the root
    pub parent: usize,
    pub value: M,
}

// A column has fewer places than the tree has rows (13).
#[derive(Clone, Copy, PartialEq, Eq, Debug)]
pub struct ShortColumn {
    pub places: usize,
}
