// The summary of a list of records, in a table of rows that its user lends.
ghost use Rattle.std.specs.Prelude.{◌<◌};
ghost use Rattle.rows.specs.Shapes.{shapes};
ghost use Rattle.rows.specs.Sound.{Sound};

mod adding;
mod answering;
mod finishing;

pub use adding::check_table;
use rows::table::Table;

// The rows in use are the summary's. Of every summary that exists it holds that no context comes twice and that with each path there
// is the path without its last function (`sound`).
#[derive(Drop)]
pub struct Summary<'a, M> {
    table: Table<'a, M>,
    // the level where the list of records ends
    level: usize,
    // the row of the open path
    current: usize,
    ghost opened: { current < table.count },
    ghost sound: { ∥ Sound (shapes table.rows.now) table.count level current ∥₁ },
}

// A row of a summary, as it is answered by number.
#[derive(Clone, Copy, PartialEq, Eq, Debug)]
pub struct SummaryRow<M> {
    pub level: usize,
    // the last function of the row's path, 0 where that is empty
    pub function: u16,
    // the row of the path without its last function, the row itself where the path is empty
    pub parent: usize,
    pub value: M,
}
