// The closed list of refusals, what a refusal tells, and how a check finds the first one.
#![tactic(auto)]

pub mod condition;
pub mod refusal;
pub mod words;

pub use condition::first;
pub use refusal::{Fault, Refusal};
pub use words::Code;
