//! The Latin puzzle as a finder: how many cells its grids have, the given values, the judge and the questions.
ghost use Rattle.std.specs.Prelude.{◌≡◌};
ghost use Rattle.latin.specs.Puzzle.{cell_count, solves, meaning_of};
ghost use Rattle.latin.specs.Search.{Asks};
ghost use Rattle.latin.specs.Lawful.{puzzle_lawful};

use crate::puzzle::Latin;
use cells::CellSet;
use finder::{Finder, Found};

impl Finder for Latin {
    ghost meaning = { meaning_of };

    ghost asked = { Asks };

    ghost lawful = { puzzle_lawful };

    fn count(&self) -> usize
        ensures { result ≡ cell_count self.now }
    {
        Latin::count(self)
    }

    fn value(&self, cell: usize) -> u8 {
        cells::value_at(self.given(), cell)
    }

    fn judge(&self, grid: &[u8]) -> bool
        ensures { result ≡ solves self.now grid.now }
    {
        Latin::judge(self, grid)
    }

    #[tactic(auto, using(crate::proofs::FindingLaws::found_named))]
    fn find(&mut self, clues: CellSet, strip: &mut [u8; 64], pad: &mut [u8; 64]) -> Found {
        Latin::find(self, clues, strip, pad)
    }
}
