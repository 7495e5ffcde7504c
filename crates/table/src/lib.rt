// Transition tables: bytes that are checked once, taken up as a view, and read state by state.
#![tactic(auto)]

pub mod checking;
mod fields;
pub mod list;
pub mod normal;
pub mod read;
pub mod step;
pub mod view;

pub use checking::{LARGEST, check};
pub use list::StepsOf;
pub use normal::check_normal;
pub use step::Step;
pub use view::{NormalTable, Table};
