ghost use Rattle.std.specs.Prelude.{◌≤◌, length, MatchResult};
ghost use Rattle.cells.specs.Refusals.{number_of};
ghost use Rattle.latin.specs.Puzzle.{given, solves};
ghost use Rattle.text.specs.Question.{read_question};
ghost use Rattle.uniqueness.specs.Replies.{Answers, Replies};
ghost use Rattle.uniqueness.specs.Write.{text_of, refused_lines};

use crate::reply::Reply;
use crate::write::{no_rival_line, refused_lines, rival_lines, values_of};
use cells::CellSet;
use latin::{Found, Latin};
use text::{Refused, read_question};

/// The line of a text where the grid stands.
const GRID_LINE: usize = 3;

/// The reply to the text of a question: the lines that name a rival, that say there is none, or that refuse the text. Which of
/// several rivals is named is left free.
pub fn reply_to_text(text: &[u8]) -> Reply
    ensures reply { Replies (read_question text.now) (text_of result) }
    ensures short { length (text_of result) ≤ 88 }
{
    answer_to(text).unwrap_or_else(refused_lines)
}

/// The reply to the question that the text asks, or why the text is refused.
fn answer_to(text: &[u8]) -> Result<Reply, Refused>
    ensures { MatchResult result (λ reply. Replies (read_question text.now) (text_of reply))
        (λ refused. Replies (read_question text.now) (refused_lines (number_of refused.refusal) refused.line)) }
{
    let question = read_question(text)?;
    let values = values_of(question.grid);
    let puzzle = Latin::new(question.size, &values).map_err(|refusal| Refused {
        refusal,
        line: GRID_LINE,
    })?;
    Ok(answer(&puzzle, question.clues))
}

/// The lines that name a rival of the puzzle's grid that agrees with it on the clues, or the line that says that there is none.
fn answer(puzzle: &Latin, clues: CellSet) -> Reply
    ensures { Answers (solves puzzle.now) (given puzzle.now) clues (text_of result) }
{
    let given = puzzle.given();
    let mut strip = [0; 64];
    let mut pad = [0; 64];
    match puzzle.find(clues, &mut strip, &mut pad) {
        Found::Rival => rival_lines(given, &strip[..given.len()]),
        Found::NoRival => no_rival_line(),
    }
}
