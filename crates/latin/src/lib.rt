//! The Latin puzzle: its rules, its judge and its search for a rival.
#![tactic(auto)]

mod finding;
mod puzzle;
mod rules;
mod search;

pub use finder::{Finder, Found};
pub use puzzle::Latin;
pub use rules::is_size;

#[cfg(test)]
mod tests;
