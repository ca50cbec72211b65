//! The text of a question: how it is read from standard input, its lines in order, and what each must hold.
#![tactic(auto)]

mod input;
mod lines;
mod question;
mod refused;
mod values;

pub use input::read_front;
pub use lines::{Line, Token, next_line};
pub use question::{Kind, Question, read_question};
pub use refused::Refused;
