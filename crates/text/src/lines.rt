ghost use Rattle.std.specs.Prelude.{◌≡◌};
ghost use Rattle.std.specs.Option.{option_map};
ghost use Rattle.text.specs.Lines.{split_line, key_value, next_line, pair_shown, token_shown, line_shown};

use crate::refused::Refused;

/// A line by its key, with the value that stands after it: a part of the text itself.
#[derive(Clone, Copy)]
pub enum Token<'a> {
    Kind(&'a [u8]),
    Size(&'a [u8]),
    Grid(&'a [u8]),
    Map(&'a [u8]),
    Clues(&'a [u8]),
}

/// A line of a text with its number, counted from 1.
#[derive(Clone, Copy)]
pub struct Line<'a> {
    pub number: usize,
    pub token: Token<'a>,
}

/// The first line of the text, and what stands after the byte 10 that ends it.
fn split_line(text: &[u8]) -> Option<(&[u8], &[u8])>
    ensures { option_map pair_shown result ≡ split_line text.now }
{
    let at = text.iter().position(|byte| *byte == b'\n')?;
    Some((&text[..at], &text[at + 1..]))
}

/// A line taken apart: its key first, the rest as the value.
fn split_key(line: &[u8]) -> Option<Token<'_>>
    ensures { option_map token_shown result ≡ key_value line.now }
{
    match line {
        [b'k', b'i', b'n', b'd', b'=', value @ ..] => Some(Token::Kind(value)),
        [b's', b'i', b'z', b'e', b'=', value @ ..] => Some(Token::Size(value)),
        [b'g', b'r', b'i', b'd', b'=', value @ ..] => Some(Token::Grid(value)),
        [b'm', b'a', b'p', b'=', value @ ..] => Some(Token::Map(value)),
        [b'c', b'l', b'u', b'e', b's', b'=', value @ ..] => Some(Token::Clues(value)),
        _ => None,
    }
}

/// The first line of `text`, which is line `number` of the whole, and the text after it.
/// Refused if no line is there, if no byte 10 ends it, or if it has no key.
#[tactic(auto, unfolding(crate::specs::Lines::next_line))]
pub fn next_line(text: &[u8], number: usize) -> Result<(Line<'_>, &[u8]), Refused>
    ensures { line_shown result ≡ next_line number text.now }
{
    let (line, rest) = split_line(text).ok_or(Refused::form(number))?;
    let token = split_key(line).ok_or(Refused::form(number))?;
    Ok((Line { number, token }, rest))
}
