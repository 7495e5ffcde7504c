// A function that leaves its lent rows blank on every way out, and the first-seen list run on numbers and on the
// rows of a search.
#![tactic(auto)]

pub mod gather;
#[cfg(test)]
mod tests;
