// A script's lines: reading two row numbers, and writing what came of them.
#![tactic(auto)]

pub mod reading;
pub mod record;
pub mod writing;

pub use reading::read_line;
pub use record::{Asked, Record, Verdict};
pub use writing::{model_line, record_line};
