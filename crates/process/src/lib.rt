// The steps of the terms of a settled model, over term rows that are kept in the order first seen.
#![tactic(auto)]

mod build;
mod explore;
pub mod list;
mod load;
mod order;
pub mod rule;
mod size;
pub mod slots;
pub mod step;
mod steps;
pub mod term_rows;
pub mod work;

pub use list::list_steps;
pub use step::Step;
pub use work::Workspace;
