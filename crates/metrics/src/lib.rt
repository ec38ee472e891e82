// What is measured: the metric interface, and the metrics that come with it.

#![tactic(auto)]

pub mod calls;
pub mod metric;
pub mod pair;
pub mod sum;
pub mod work;
