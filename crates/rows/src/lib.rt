// The table of rows that summaries and trees stand in, and what is done with its rows.

#![tactic(auto)]

mod column;
mod flatten;
mod index;
pub mod rejection;
pub mod row;
pub mod shape;
pub mod table;
