// The report on a profile: the outline of its rows, and the lines of text that are printed.

#![tactic(auto)]

pub mod fault;
mod order;
pub mod outline;
pub mod page;
mod rooted;
mod tree;
