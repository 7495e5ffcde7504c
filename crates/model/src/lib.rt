// The model file: what is well formed, the models made from it, and what they hold.
#![tactic(auto)]

pub mod alike;
pub mod checks;
pub mod drafted;
pub mod file;
mod heights;
pub mod models;
pub mod op;
mod opens;
mod section;
pub mod words;

pub use checks::check;
pub use drafted::{Drafted, Settled};
pub use file::File;
pub use op::{Op, Row, Shape, Use};
