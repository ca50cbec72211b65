ghost use Rattle.std.specs.Prelude.{◌≡◌, codes};
ghost use Rattle.text.specs.Form.{TakesExactly};
ghost use Rattle.text.specs.Question.{size_line, text_end, read_question, value_under, kind_value, grid_value, map_value, clues_value, kind_name, question_shown, ReadsLine};
ghost use Rattle.text.specs.Lines.{kind, size, grid, map, clues, token_shown, shown, value_shown};
ghost use Rattle.text.specs.Values.{one_digit};
ghost use Rattle.std.specs.Option.{option_map};

use crate::lines::{Token, next_line};
use crate::refused::Refused;
use crate::values::{all_digits, read_digit, read_marks};
use cells::{CellSet, Refusal};

/// The puzzles that a text can name.
#[derive(Clone, Copy, Debug, PartialEq, Eq)]
pub enum Kind {
    Latin,
}

/// A grid, as the digits of its line, and the clues to be tried on it.
#[derive(Clone, Copy)]
pub struct Question<'a> {
    pub kind: Kind,
    pub size: usize,
    pub grid: &'a [u8],
    pub clues: CellSet,
}

/// The question that the text asks, or the first line that is not as it must be.
pub fn read_question(text: &[u8]) -> Result<Question<'_>, Refused>
    ensures value { question_shown result ≡ read_question text.now }
    ensures exactly { TakesExactly text.now (question_shown result) }
{
    read_lines(text)
}

/// The five lines in their order, and nothing after them.
fn read_lines(text: &[u8]) -> Result<Question<'_>, Refused>
    ensures { question_shown result ≡ read_question text.now }
{
    let (kind, rest) = read_line(text, 1, kind_of)?;
    let (size, rest) = read_size(rest)?;
    let cells = size * size;
    let (grid, rest) = read_line(rest, 3, |token| grid_of(token, cells))?;
    let ((), rest) = read_line(rest, 4, map_of)?;
    let (clues, rest) = read_line(rest, 5, |token| clues_of(token, cells))?;
    read_end(rest)?;
    Ok(Question {
        kind,
        size,
        grid,
        clues,
    })
}

/// The first line of the text, which is line `number` of the whole, by what `read` makes of it, and the text after it.
/// Refused if no such line is there, or if `read` makes nothing of it.
fn read_line<'a, T, F: FnOnce(Token<'a>) -> Option<T>>(
    text: &'a [u8],
    number: usize,
    read: F,
) -> Result<(T, &'a [u8]), Refused>
    requires { F.IsAlwaysCallable read }
    ensures { ReadsLine (F.post read) number text.now result }
{
    let (line, rest) = next_line(text, number)?;
    let value = read(line.token).ok_or(Refused::form(number))?;
    Ok((value, rest))
}

/// Line 2, whose size must be one of the puzzle's.
fn read_size(text: &[u8]) -> Result<(usize, &[u8]), Refused>
    ensures { value_shown (λ n. n) result ≡ size_line text.now }
{
    let (size, rest) = read_line(text, 2, size_of)?;
    if latin::is_size(size) {
        Ok((size, rest))
    } else {
        Err(Refused {
            refusal: Refusal::Size,
            line: 2,
        })
    }
}

/// `kind=`: the puzzle's name.
#[tactic(auto, using(crate::proofs::LineLaws::like))]
fn kind_of(token: Token<'_>) -> Option<Kind>
    ensures { option_map kind_name result ≡ value_under kind kind_value (token_shown token.entry) }
{
    match token {
        Token::Kind(b"latin") => Some(Kind::Latin),
        _ => None,
    }
}

/// `size=`: one digit.
fn size_of(token: Token<'_>) -> Option<usize>
    ensures { result ≡ value_under size one_digit (token_shown token.entry) }
{
    match token {
        Token::Size(value) => read_digit(value),
        _ => None,
    }
}

/// `grid=`: a digit for each cell.
fn grid_of(token: Token<'_>, cells: usize) -> Option<&[u8]>
    ensures { option_map (λ x. x.now) result ≡ value_under grid (grid_value cells) (token_shown token.entry) }
{
    match token {
        Token::Grid(value) if value.len() == cells && all_digits(value) => Some(value),
        _ => None,
    }
}

/// `map=`: a Latin grid has none.
fn map_of(token: Token<'_>) -> Option<()>
    ensures { option_map (λ _. codes "-") result ≡ value_under map map_value (token_shown token.entry) }
{
    match token {
        Token::Map(b"-") => Some(()),
        _ => None,
    }
}

/// `clues=`: a mark for each cell.
fn clues_of(token: Token<'_>, cells: usize) -> Option<CellSet>
    ensures { result ≡ value_under clues (clues_value cells) (token_shown token.entry) }
{
    match token {
        Token::Clues(value) if value.len() == cells => read_marks(value),
        _ => None,
    }
}

/// After line 5 nothing may stand.
fn read_end(text: &[u8]) -> Result<(), Refused>
    ensures { shown (λ u. u) result ≡ text_end text.now }
{
    if text.is_empty() {
        Ok(())
    } else {
        Err(Refused::form(6))
    }
}
