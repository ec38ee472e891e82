// What a trace means: its records, the faults that can end it, and the sources that deliver it.

#![tactic(auto)]

pub mod fault;
pub mod kind;
pub mod line;
mod piece;
pub mod record;
pub mod source;
pub mod table;
pub mod text;
pub mod token;
