ghost use Rattle.std.specs.Prelude.{◌≡◌, ◌<◌, ◌≤◌, length, All};
ghost use Rattle.cells.specs.Refusals.{number_of};
ghost use Rattle.uniqueness.specs.Write.{text_of, values_of, rival_lines, no_rival_line, refused_lines};

use crate::reply::Reply;
use arrayvec::ArrayVec;
use text::Refused;

/// The most values that a grid may have.
const MOST_VALUES: usize = 64;

/// The values that the digits write.
pub(crate) fn values_of(digits: &[u8]) -> ArrayVec<u8, MOST_VALUES>
    requires { length digits.now ≤ MOST_VALUES }
    ensures { result.items ≡ values_of digits.now }
{
    let mut values = ArrayVec::new();
    for digit in digits {
        values.push(digit.saturating_sub(b'0'));
    }
    values
}

/// The lines that name a rival and mark the cells where it differs from the given grid.
#[tactic(auto, using(crate::proofs::WriteLaws::marks))]
pub(crate) fn rival_lines(given: &[u8], rival: &[u8]) -> Reply
    requires few { length rival.now ≤ 36 }
    requires digits { All (λ value. value < 10) rival.now }
    ensures { text_of result ≡ rival_lines given.now rival.now }
{
    let mut reply = Reply::new();
    reply.push_text(b"rival=");
    reply.push_digits(rival);
    reply.push_text(b"\ndiffers=");
    reply.push_marks(cells::difference(given, rival), rival.len());
    reply.push_text(b"\n");
    reply
}

/// The line that says that there is no rival.
pub(crate) fn no_rival_line() -> Reply
    ensures { text_of result ≡ no_rival_line }
{
    let mut reply = Reply::new();
    reply.push_text(b"rival=none\n");
    reply
}

/// The lines that refuse a text.
#[tactic(auto, using(crate::proofs::WriteLaws::few_digits))]
pub(crate) fn refused_lines(refused: Refused) -> Reply
    ensures { text_of result ≡ refused_lines (number_of refused.refusal) refused.line }
{
    let mut reply = Reply::new();
    reply.push_text(b"refused=");
    reply.push_number(usize::from(refused.refusal.number()));
    reply.push_text(b"\nline=");
    reply.push_number(refused.line);
    reply.push_text(b"\n");
    reply
}
