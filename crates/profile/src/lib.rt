// What is computed: the summary of the records that were put in, and the tree that comes of it.

#![tactic(auto)]

pub mod reading;
pub mod summary;
pub mod tree;
