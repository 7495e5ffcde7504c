// A table becomes a normal table with the same traces: its nodes are sets of states closed under tau.
#![tactic(auto)]

pub mod closing;
pub mod nodes;
pub mod normal;
pub mod puts;
pub mod small;
pub mod unit;
pub mod writing;

pub use closing::{after, opened};
pub use normal::normalise;
