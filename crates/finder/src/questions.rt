//! Questions that any finder answers.
ghost use Rattle.std.specs.Prelude.{◌≡◌, ℕ, not, List, is_some, Decides, MatchBool, Option};
ghost use Rattle.cells.specs.Sets.{has, without};
ghost use Rattle.cells.specs.Grids.{agree, in_strip};
ghost use Rattle.finder.specs.Rivals.{AdmitsOnly, CanSpare, AdmitsIffMeets};

use crate::finder::Finder;
use crate::found::Found;
use cells::CellSet;

/// Whether the clues admit only the given grid. They do exactly when they meet the difference set of every rival.
pub fn admits_only<F: Finder>(finder: &mut F, clues: CellSet) -> bool
    ensures answer { Decides result (AdmitsOnly (F.meaning finder.old) clues) }
    ensures meets { AdmitsIffMeets (F.meaning finder.old) }
    ensures asked { (answer : Option (List ℕ)) × F.asked finder.old clues answer finder.new × (result ≡ not (is_some answer)) }
    ensures kept { F.meaning finder.new ≡ F.meaning finder.old }
{
    let mut strip = [0; 64];
    let mut pad = [0; 64];
    finder.find(clues, &mut strip, &mut pad) == Found::NoRival
}

/// Whether the cell is a clue that can be spared: the clues without it still admit only the given grid. A cell that is no clue asks
/// for nothing.
pub fn can_spare<F: Finder>(finder: &mut F, clues: CellSet, cell: usize) -> bool
    ensures answer { Decides result (CanSpare (F.meaning finder.old) clues cell) }
    ensures asked { MatchBool (has clues cell)
        ((answer : Option (List ℕ)) × F.asked finder.old (without clues cell) answer finder.new × (result ≡ not (is_some answer)))
        (finder.new ≡ finder.old) }
    ensures kept { F.meaning finder.new ≡ F.meaning finder.old }
{
    if !cells::has(clues, cell) {
        return false;
    }
    admits_only(finder, cells::without(clues, cell))
}

/// Puts the given grid in the first bytes of the strip, one for each cell; the rest of the strip stays as it is.
#[tactic(auto, using(cells::proofs::GridLaws::front_more))]
pub fn put_given<F: Finder>(finder: &F, strip: &mut [u8; 64])
    ensures { strip.new ≡ in_strip (F.meaning finder.now).given strip.old }
{
    for (cell, place) in strip[..finder.count()].iter_mut().enumerate() {
        *place = finder.value(cell);
    }
}

/// Whether the grid agrees with the given grid on the set.
pub(crate) fn agrees<F: Finder>(finder: &F, set: CellSet, grid: &[u8]) -> bool
    ensures { result ≡ agree set (F.meaning finder.now).given grid.now }
{
    let mut given = [0; 64];
    put_given(finder, &mut given);
    cells::agree(set, &given[..finder.count()], grid)
}
