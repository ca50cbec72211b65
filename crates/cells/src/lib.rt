//! Sets of cells, where two grids agree and differ, and the refusals that every part shares.
#![tactic(auto)]

mod grids;
mod laws;
mod refusal;
mod sets;

pub use grids::{agree, difference, put_in_strip, value_at};
pub use laws::cell_laws;
pub use refusal::Refusal;
pub use sets::{CellSet, all_below, has, intersection, union, with, without};
