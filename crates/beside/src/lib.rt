// Two tables side by side under a mask of events.
#![tactic(auto)]

mod scan;
pub mod two;

pub use two::{Beside, check_mask};
