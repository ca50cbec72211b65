ghost use Rattle.std.specs.Prelude.{◌≡◌, ◌*◌, ◌<◌, ◌≤◌, ◌≢◌, Decides, slice_index, slice_set};
ghost use Rattle.latin.specs.Rules.{line_of};
ghost use Rattle.latin.specs.Puzzle.{cell_count};
ghost use Rattle.latin.specs.Search.{IsAgreeingRival, Finds, FindsFrom, Unused, MayStand};

use crate::puzzle::Latin;
use crate::rules::cell_at;
use cells::CellSet;
use finder::Found;
use std::mem;

/// A cell of the lent pad that is filled on trial; its old value comes back when the trial ends.
struct Trial<'a> {
    pad: &'a mut [u8; 64],
    cell: usize,
    old: u8,
}

impl<'a> Trial<'a> {
    /// Puts the value in the cell until the trial ends.
    fn new(pad: &'a mut [u8; 64], cell: usize, value: u8) -> Trial<'a>
        requires { cell < 64 }
        ensures lent { result.pad.ghost_name ≡ pad.entry.ghost_name }
        ensures pad { result.pad.now ≡ slice_set pad.old cell value }
        ensures cell { result.cell ≡ cell }
        ensures old { result.old ≡ slice_index pad.old cell }
    {
        let old = mem::replace(&mut pad[cell], value);
        Trial { pad, cell, old }
    }
}

impl Drop for Trial<'_> {
    fn drop(self)
        requires { self.cell < 64 }
        ensures { self.exit.0.now ≡ slice_set self.entry.pad.now self.entry.cell self.entry.old }
    {
        let Trial { pad, cell, old } = self;
        pad[cell] = old;
    }
}

impl Latin {
    /// Looks for a finished grid other than the given one that agrees with it on the clues. A rival is left in the first bytes of
    /// the strip, one for each cell; without one the strip is as it was. The pad is filled on trial, and is then as it was. Which of
    /// several rivals is named is left free.
    pub fn find(&self, clues: CellSet, strip: &mut [u8; 64], pad: &mut [u8; 64]) -> Found
        ensures answer { Finds self.now clues result strip.old strip.new }
        ensures pad { pad.new ≡ pad.old }
    {
        self.search(0, clues, strip, pad)
    }

    /// The search from a cell on, where the pad holds the cells before it.
    #[tactic(auto, using(finder::proofs::SearchLaws::put_back))]
    fn search(&self, cell: usize, clues: CellSet, strip: &mut [u8; 64], pad: &mut [u8; 64]) -> Found
        requires { cell ≤ cell_count self.now }
        ensures answer { FindsFrom self.now clues pad.old cell result strip.old strip.new }
        ensures pad { pad.new ≡ pad.old }
    {
        if cell == self.count() {
            return self.accept(clues, strip, pad);
        }
        for value in 1..=self.size as u8 {
            if self.may_stand(cell, value, clues, pad) {
                let trial = Trial::new(pad, cell, value);
                if self.search(cell + 1, clues, strip, trial.pad) == Found::Rival {
                    return Found::Rival;
                }
            }
        }
        Found::NoRival
    }

    /// Whether the filled pad holds a rival; it is then copied to the strip.
    fn accept(&self, clues: CellSet, strip: &mut [u8; 64], pad: &[u8; 64]) -> Found
        ensures { FindsFrom self.now clues pad.now (cell_count self.now) result strip.old strip.new }
    {
        let grid = &pad[..self.count()];
        if !self.is_agreeing_rival(clues, grid) {
            return Found::NoRival;
        }
        cells::put_in_strip(grid, strip);
        Found::Rival
    }

    /// Whether the grid is a rival that agrees with the given grid on the clues.
    fn is_agreeing_rival(&self, clues: CellSet, grid: &[u8]) -> bool
        ensures { Decides result (IsAgreeingRival self.now clues grid.now) }
    {
        self.judge(grid) && grid != self.given() && cells::agree(clues, self.given(), grid)
    }

    /// Whether the value may stand in the cell: it is no other than the clue there, and stands neither in the row nor in the column
    /// on a cell before it.
    fn may_stand(&self, cell: usize, value: u8, clues: CellSet, pad: &[u8; 64]) -> bool
        requires { cell < cell_count self.now }
        ensures { Decides result (MayStand self.now clues pad.now cell value) }
    {
        let (row, column) = (cell / self.size, cell % self.size);
        (!cells::has(clues, cell) || self.given()[cell] == value)
            && self.is_unused(row, column, value, pad)
            && self.is_unused(self.size + column, row, value, pad)
    }

    /// Whether the value stands on none of the line's first `places` places.
    fn is_unused(&self, line: usize, places: usize, value: u8, pad: &[u8; 64]) -> bool
        requires { (line < 2 * self.now.size) × (places ≤ self.now.size) }
        ensures { Decides result (Unused (line_of self.now.size line) places pad.now value) }
    {
        !(0..places).any(|place| pad[cell_at(self.size, line, place)] == value)
    }
}
