// Traces written as bytes: a byte for the kind of a record, and its fields as numbers of one to five bytes.

#![tactic(auto)]

pub mod kind;
pub mod number;
mod record;
pub mod source;
