ghost use Rattle.std.specs.Prelude.{◌≡◌};
ghost use Rattle.cells.specs.Refusals.{number_of};

/// Why a text or a grid is not taken. Users know each refusal by its number.
#[derive(Clone, Copy, Debug, PartialEq, Eq)]
pub enum Refusal {
    /// A line is not in its form, is missing or is one too many; a grid has too few or too many values.
    Form = 11,
    /// The size is none of the puzzle's sizes.
    Size = 12,
    /// The grid breaks the puzzle's rules.
    Unfinished = 15,
}

impl Refusal {
    /// The number by which users know the refusal.
    pub fn number(&self) -> u8
        ensures { result ≡ number_of self.now }
    {
        *self as u8
    }
}
