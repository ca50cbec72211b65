ghost use Rattle.std.specs.Prelude.{◌≡◌};
ghost use Rattle.text.specs.Values.{one_digit, all_digits, read_marks};

use cells::{CellSet, with};

/// The number that the value writes in one decimal digit.
pub(crate) fn read_digit(value: &[u8]) -> Option<usize>
    ensures { result ≡ one_digit value.now }
{
    match value {
        [digit] if digit.is_ascii_digit() => Some(usize::from(*digit - b'0')),
        _ => None,
    }
}

/// Whether every byte of the value is a decimal digit.
pub(crate) fn all_digits(value: &[u8]) -> bool
    ensures { result ≡ all_digits value.now }
{
    value.iter().all(|byte| byte.is_ascii_digit())
}

/// The set of the cells whose mark is '#'; none where a mark is neither '#' nor '.', or where there are more than 64.
pub(crate) fn read_marks(value: &[u8]) -> Option<CellSet>
    ensures { result ≡ read_marks value.now }
{
    if value.len() > 64 {
        return None;
    }
    let mut set = 0;
    for (cell, mark) in value.iter().enumerate() {
        match char::from(*mark) {
            '#' => set = with(set, cell),
            '.' => {}
            _ => return None,
        }
    }
    Some(set)
}
