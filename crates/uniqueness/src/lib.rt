//! Whether the clues of a question admit only its grid: from the text of the question to the text of the reply.
#![tactic(auto)]

mod replies;
mod reply;
mod write;

pub use replies::reply_to_text;
pub use reply::Reply;

#[cfg(test)]
mod tests;
