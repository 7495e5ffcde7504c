// Systems by their meaning: a start and, for each state, a list of steps.
#![tactic(auto)]

pub mod list;
pub mod register;
pub mod system;
pub mod tables;

pub use fault::{Fault, Refusal};
pub use first_seen::Same;
pub use list::{StepsAt, steps_of};
pub use register::Register;
pub use system::{Normal, Pair, System, determined, kept, moved, reached_by_runs};
pub use table::{NormalTable, Table};
