//! Answers whether the clues of a question on standard input admit only its grid.
#![tactic(auto)]

use std::io::Write;

/// How much of the input is read. A question has at most 109 bytes, so that what is cut off decides nothing.
const MOST: usize = 20480;

fn main(rt: HostRuntime) -> anyhow::Result<()> {
    let mut buffer = [0; MOST];
    let length = text::read_front(&mut rt.stdin(), &mut buffer)?;
    let reply = uniqueness::reply_to_text(&buffer[..length]);
    rt.stdout().write_all(reply.as_bytes())?;
    Ok(())
}
