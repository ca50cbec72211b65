ghost use Rattle.std.specs.Prelude.{◌≡◌, ◌+◌, ◌<◌, ◌≤◌, [], ◌++◌, length, All, decimal};
ghost use Rattle.text.specs.Values.{marks_of};
ghost use Rattle.uniqueness.specs.Write.{text_of, digits_of};

use arrayvec::ArrayVec;
use cells::CellSet;
use itoa::Buffer;
use std::marker::Model;

/// The most bytes that a reply has: those of a rival of 36 cells with its marks.
const MOST_BYTES: usize = 88;

/// The text of a reply: a contract sees the list of its bytes, `text_of`, and that it is no longer than 88.
#[derive(Drop)]
pub struct Reply {
    text: ArrayVec<u8, MOST_BYTES>,
    ghost within: { length text.items ≤ 88 },
}

impl Model for Reply {
    ghost use Rattle.uniqueness.specs.Write.{Text};

    ghost Value = { Text };

    ghost view = { λ r. record { bytes = r.text.items; within = r.within } };
}

impl Reply {
    /// The bytes of the text.
    pub fn as_bytes(&self) -> &[u8]
        ensures text { result.now ≡ text_of self.now }
        ensures short { length result.now ≤ 88 }
    {
        self.text.as_slice()
    }

    /// No text yet.
    pub(crate) fn new() -> Reply
        ensures { text_of result ≡ [] }
    {
        Reply {
            text: ArrayVec::new(),
        }
    }

    /// A piece of text more.
    pub(crate) fn push_text(&mut self, piece: &[u8])
        requires { length (text_of self.old) + length piece.now ≤ MOST_BYTES }
        ensures { text_of self.new ≡ text_of self.old ++ piece.now }
    {
        self.text.try_extend_from_slice(piece).unwrap();
    }

    /// The digits of the values, each of which is one digit.
    pub(crate) fn push_digits(&mut self, values: &[u8])
        requires room { length (text_of self.old) + length values.now ≤ MOST_BYTES }
        requires digits { All (λ value. value < 10) values.now }
        ensures { text_of self.new ≡ text_of self.old ++ digits_of values.now }
    {
        for value in values {
            self.text.push(value + b'0');
        }
    }

    /// The marks of the cells below `count`.
    #[tactic(auto, using(crate::proofs::WriteLaws::marks))]
    pub(crate) fn push_marks(&mut self, set: CellSet, count: usize)
        requires { length (text_of self.old) + count ≤ MOST_BYTES }
        ensures { text_of self.new ≡ text_of self.old ++ marks_of set count }
    {
        for cell in 0..count {
            let mark = if cells::has(set, cell) { b'#' } else { b'.' };
            self.text.push(mark);
        }
    }

    /// The number in decimal digits, without leading zeros.
    pub(crate) fn push_number(&mut self, number: usize)
        requires { length (text_of self.old) + length (decimal number) ≤ MOST_BYTES }
        ensures { text_of self.new ≡ text_of self.old ++ decimal number }
    {
        let mut digits = Buffer::new();
        self.push_text(digits.format(number).as_bytes());
    }
}
