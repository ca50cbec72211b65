ghost use Rattle.std.specs.Prelude.{◌≡◌, ℕ, List, Option, slice_index};
ghost use Rattle.finder.specs.Meaning.{Meaning, cell_count, Lawful};
ghost use Rattle.finder.specs.Finding.{named, Answers, strip_after};

use crate::found::Found;
use cells::CellSet;

/// One given grid and a set of solutions, the given grid among them. No question changes either, and none is refused.
pub trait Finder {
    /// The given grid and the solutions.
    ghost meaning: { Self → Meaning };

    /// In this state, asked about this clue set, it names this rival or none, and is left in that state. What a finder remembers to
    /// choose among rivals is in its state, and no part of its meaning.
    ghost asked: { Self → ℕ → Option (List ℕ) → Self → Type 0 };

    /// How many cells its grids have.
    fn count(&self) -> usize
        ensures { result ≡ cell_count (meaning self.now) };

    /// The given grid's value in a cell, and 0 for a number that is no cell of it.
    fn value(&self, cell: usize) -> u8
        ensures { result ≡ slice_index (meaning self.now).given cell };

    /// Whether the bytes are a solution.
    fn judge(&self, grid: &[u8]) -> bool
        ensures { result ≡ (meaning self.now).solves grid.now };

    /// Looks for a rival that agrees with the given grid on the clues. It is put in the strip, in the first bytes, one for each
    /// cell; without one the strip is as it was. The pad may be filled on trial, and is then as it was.
    fn find(&mut self, clues: CellSet, strip: &mut [u8; 64], pad: &mut [u8; 64]) -> Found
        ensures answer { Answers (meaning self.old) clues (named (cell_count (meaning self.old)) result strip.new) }
        ensures strip { strip.new ≡ strip_after (named (cell_count (meaning self.old)) result strip.new) strip.old }
        ensures asked { asked self.old clues (named (cell_count (meaning self.old)) result strip.new) self.new }
        ensures pad { pad.new ≡ pad.old }
        ensures kept { meaning self.new ≡ meaning self.old };

    /// What holds of every finder's meaning.
    ghost lawful: { (f : Self) → Lawful (meaning f) };
}
