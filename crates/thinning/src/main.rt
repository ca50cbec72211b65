//! Takes clues away from a Latin grid of size 6, first cell first, as long as the rest admit only that grid: 36 questions, which
//! leave a minimal clue set.
#![tactic(auto)]

use cells::{all_below, without};
use latin::{Found, Latin};
use std::io;

const GRID: [u8; 36] = [
    6, 5, 4, 3, 2, 1, 5, 6, 3, 4, 1, 2, 4, 3, 2, 1, 6, 5, 3, 4, 1, 2, 5, 6, 2, 1, 6, 5, 4, 3, 1, 2,
    5, 6, 3, 4,
];

fn main(rt: HostRuntime) -> io::Result<()> {
    let Ok(puzzle) = Latin::new(6, &GRID) else {
        return println!(rt; "the grid is not taken");
    };
    let mut strip = [0; 64];
    let mut pad = [0; 64];
    let mut clues = all_below(GRID.len());
    for cell in 0..GRID.len() {
        let fewer = without(clues, cell);
        if puzzle.find(fewer, &mut strip, &mut pad) == Found::NoRival {
            clues = fewer;
        }
    }
    let count = clues.count_ones();
    println!(rt; "{count} clues: set number {clues}")
}
