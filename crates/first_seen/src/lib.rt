// Lists of first-seen elements over lent rows, and guards that leave lent rows blank.
#![tactic(auto)]

pub mod guard;
pub mod kinds;
pub mod list;

pub use guard::{Blank, Clearing, Unfinished, clear};
pub use list::{FirstSeen, Full, Noted, Same, find, find_among};
