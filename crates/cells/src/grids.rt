ghost use Rattle.std.specs.Prelude.{◌≡◌, ◌≤◌, not, length, slice_index};
ghost use Rattle.cells.specs.Sets.{meets};
ghost use Rattle.cells.specs.Grids.{agree, differ_below, differ, in_strip};

use crate::sets::{CellSet, has, with};

/// The grid's value in a cell, and 0 for a number that is no cell of it.
pub fn value_at(grid: &[u8], cell: usize) -> u8
    ensures { result ≡ slice_index grid.now cell }
{
    grid.get(cell).copied().unwrap_or(0)
}

/// Whether the two grids have the same value in each cell of the set that both have.
pub fn agree(set: CellSet, one: &[u8], other: &[u8]) -> bool
    ensures value { result ≡ agree set one.now other.now }
    ensures unmet { result ≡ not (meets set (differ one.now other.now)) }
{
    let common = one.len().min(other.len());
    for cell in 0..common {
        if has(set, cell) && one[cell] != other[cell] {
            return false;
        }
    }
    true
}

/// The cells below `count` where the grids differ.
fn difference_below(count: usize, one: &[u8], other: &[u8]) -> CellSet
    requires { (count ≤ 64) × ((count ≤ length one.now) × (count ≤ length other.now)) }
    ensures { result ≡ differ_below count one.now other.now }
{
    (0..count).fold(0, |set, cell| {
        if one[cell] != other[cell] {
            with(set, cell)
        } else {
            set
        }
    })
}

/// The difference set: the cells below 64 that both grids have and where they differ.
pub fn difference(one: &[u8], other: &[u8]) -> CellSet
    ensures { result ≡ differ one.now other.now }
{
    difference_below(one.len().min(other.len()).min(64), one, other)
}

/// Puts the grid's values in the first bytes of the strip, at most 64 of them; the rest of the strip stays as it is.
pub fn put_in_strip(grid: &[u8], strip: &mut [u8; 64])
    ensures { strip.new ≡ in_strip grid.now strip.old }
{
    let count = grid.len().min(64);
    strip[..count].copy_from_slice(&grid[..count]);
}
