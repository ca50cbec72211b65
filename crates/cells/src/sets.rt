ghost use Rattle.std.specs.Prelude.{◌≡◌};
ghost use Rattle.cells.specs.Sets.{has, with, without, union, intersection, all_below};

/// A set of cells: cell `c` is in it when its number holds 2 to the power `c`. Cells are below 64.
pub type CellSet = u64;

/// Whether the cell is in the set; a number of 64 or more is no cell.
#[tactic(auto, using(crate::proofs::SetLaws::has_code, crate::proofs::Bits::has_past))]
pub fn has(set: CellSet, cell: usize) -> bool
    ensures { result ≡ has set cell }
{
    cell < 64 && (set >> cell) & 1 == 1
}

/// The set with the cell added; a number of 64 or more changes nothing.
#[tactic(auto, using(crate::proofs::Bits::with_bit, crate::proofs::SetLaws::with_past))]
pub fn with(set: CellSet, cell: usize) -> CellSet
    ensures { result ≡ with set cell }
{
    if cell < 64 { set | (1 << cell) } else { set }
}

/// The set with the cell removed; a number of 64 or more changes nothing.
#[tactic(auto, using(crate::proofs::Bits::without_bit, crate::proofs::SetLaws::without_past))]
pub fn without(set: CellSet, cell: usize) -> CellSet
    ensures { result ≡ without set cell }
{
    if cell < 64 { set & !(1 << cell) } else { set }
}

/// The cells that are in either set.
#[tactic(auto, using(crate::proofs::SetLaws::union_code))]
pub fn union(one: CellSet, other: CellSet) -> CellSet
    ensures { result ≡ union one other }
{
    one | other
}

/// The cells that are in both sets.
#[tactic(auto, using(crate::proofs::SetLaws::intersection_code))]
pub fn intersection(one: CellSet, other: CellSet) -> CellSet
    ensures { result ≡ intersection one other }
{
    one & other
}

/// The set of all cells below `count`.
#[tactic(auto, using(crate::proofs::Bits::below_bit, crate::proofs::SetLaws::below_past))]
pub fn all_below(count: usize) -> CellSet
    ensures { result ≡ all_below count }
{
    if count < 64 {
        (1 << count) - 1
    } else {
        u64::MAX
    }
}
