//! What a finder is: one trait for every puzzle, what follows for every finder, and pins over any finder.
#![tactic(auto)]

mod finder;
mod found;
mod pins;
mod questions;

pub use finder::Finder;
pub use found::Found;
pub use pins::Pins;
pub use questions::{admits_only, can_spare, put_given};

#[cfg(test)]
mod tests;
