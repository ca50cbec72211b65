ghost use Rattle.std.specs.Prelude.{◌≡◌, ◌*◌, ◌<◌, ◌≤◌};
ghost use Rattle.cells.specs.Lines.{is_value};
ghost use Rattle.latin.specs.Rules.{is_size, line_of, finished};

/// Whether Latin puzzles come in this size.
pub fn is_size(size: usize) -> bool
    ensures { result ≡ is_size size }
{
    (1..=6).contains(&size)
}

/// The cell at a place of a line: the rows come first, then the columns.
pub(crate) fn cell_at(size: usize, line: usize, place: usize) -> usize
    requires { (size ≤ 6) × ((line < 2 * size) × (place < size)) }
    ensures value { result ≡ line_of size line place }
    ensures within { result < size * size }
{
    if line < size {
        line * size + place
    } else {
        place * size + (line - size)
    }
}

/// Whether it is one of the values of that size.
fn is_value(size: usize, value: usize) -> bool
    ensures { result ≡ is_value size value }
{
    (1..=size).contains(&value)
}

/// Whether the grid has the size and keeps the rules; the first wrong line settles it.
pub(crate) fn is_finished(size: usize, grid: &[u8]) -> bool
    requires { size ≤ 6 }
    ensures { result ≡ finished size grid.now }
{
    if grid.len() != size * size {
        return false;
    }
    'lines: {
        for line in 0..2 * size {
            let mut seen = [false; 7];
            for place in 0..size {
                let value = grid[cell_at(size, line, place)] as usize;
                if !is_value(size, value) || seen[value] {
                    break 'lines false;
                }
                seen[value] = true;
            }
        }
        true
    }
}
