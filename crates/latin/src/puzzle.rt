ghost use Rattle.std.specs.Prelude.{◌≡◌, ◌*◌, ◌≤◌, true, length};
ghost use Rattle.latin.specs.Rules.{finished};

use crate::rules::{is_finished, is_size};
use arrayvec::ArrayVec;
use cells::Refusal;

/// How many cells the largest grids have.
const MOST_CELLS: usize = 36;

/// A Latin puzzle: the size of its grids, and the given grid, which is finished.
#[derive(Drop)]
pub struct Latin {
    pub(crate) size: usize,
    grid: ArrayVec<u8, MOST_CELLS>,
    ghost positive: { 1 ≤ size },
    ghost small: { size ≤ 6 },
    ghost square: { size * size ≤ 36 },
    ghost full: { length grid.items ≡ size * size },
    ghost solved: { finished size grid.items ≡ true },
}

impl Latin {
    ghost use Rattle.latin.specs.Puzzle.{cell_count, given, solves, puzzle_of, puzzle_shown};

    /// The puzzle with the given grid, unless there is no such size, the grid has not one value for each cell, or it is not finished.
    pub fn new(size: usize, grid: &[u8]) -> Result<Latin, Refusal>
        ensures { puzzle_shown result ≡ puzzle_of size grid.now }
    {
        if !is_size(size) {
            return Err(Refusal::Size);
        }
        if grid.len() != size * size {
            return Err(Refusal::Form);
        }
        if !is_finished(size, grid) {
            return Err(Refusal::Unfinished);
        }
        let grid = ArrayVec::try_from(grid).unwrap();
        Ok(Latin { size, grid })
    }

    /// How many cells the puzzle's grids have.
    pub fn count(&self) -> usize
        ensures { result ≡ cell_count self.now }
    {
        self.size * self.size
    }

    /// The given grid.
    pub fn given(&self) -> &[u8]
        ensures { result.now ≡ given self.now }
    {
        // The whole vector; cut so, its length is also the bound of a loop over the cells, which then needs no check of each.
        &self.grid.as_slice()[..self.count()]
    }

    /// Whether the bytes are a finished grid of the puzzle's size.
    pub fn judge(&self, grid: &[u8]) -> bool
        ensures { result ≡ solves self.now grid.now }
    {
        is_finished(self.size, grid)
    }
}
