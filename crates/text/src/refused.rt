ghost use Rattle.std.specs.Prelude.{◌≡◌};
ghost use Rattle.text.specs.Lines.{refused_shown};

use cells::Refusal;

/// A text that is not taken: why, and at which line, counted from 1.
#[derive(Clone, Copy, Debug, PartialEq, Eq)]
pub struct Refused {
    pub refusal: Refusal,
    pub line: usize,
}

impl Refused {
    /// The line is not in its form.
    pub(crate) fn form(line: usize) -> Refused
        ensures { refused_shown result ≡ (11, line) }
    {
        Refused {
            refusal: Refusal::Form,
            line,
        }
    }
}
