//! Answers of a board, as texts.

use crate::fault::RowFault;
use ls_board::{Answer, BoardFault, Part};
use std::alloc::Global;

/// What the board answered, and the bytes that came with it.
pub fn answer_text(
    alloc: Global,
    answer: Result<Answer, BoardFault>,
    out: &[u8],
) -> Result<String, RowFault> {
    match answer {
        Ok(Answer::Bytes) => digits(alloc, "bytes", out),
        Ok(answer) => told(alloc, answer),
        Err(BoardFault::Failed(part)) => failed(alloc, part),
        Err(BoardFault::Memory) => Err(RowFault::Memory),
    }
}

/// A word, and the hex digits of bytes.
fn digits(alloc: Global, word: &str, bytes: &[u8]) -> Result<String, RowFault> {
    let digits = hex::encode(alloc, bytes)?;
    Ok(format!(in alloc; "{word} {digits}")?)
}

/// A word, and a number.
fn number(alloc: Global, word: &str, number: u64) -> Result<String, RowFault> {
    Ok(format!(in alloc; "{word} {number}")?)
}

fn told(alloc: Global, answer: Answer) -> Result<String, RowFault> {
    match answer {
        Answer::Value(value) => digits(alloc, "value", &value),
        Answer::Handle(handle) => digits(alloc, "handle", &handle),
        Answer::Key(key) => digits(alloc, "key", &key),
        Answer::Wrong(rest) => number(alloc, "wrong", rest),
        Answer::Throttled(rest) => number(alloc, "throttled", rest),
        Answer::Accepted(sid) => number(alloc, "accepted", sid),
        answer => Ok(word_of(answer).to_string(alloc)?),
    }
}

fn word_of(answer: Answer) -> &'static str {
    match answer {
        Answer::Done => "done",
        Answer::Absent => "absent",
        Answer::Unknown => "unknown",
        Answer::NoKey => "no-key",
        Answer::BadTag => "bad-tag",
        Answer::Empty => "empty",
        Answer::End => "end",
        // A moment of the machine's clock is another one each time.
        _ => "moment",
    }
}

fn failed(alloc: Global, part: Part) -> Result<String, RowFault> {
    Ok(format!(in alloc; "fault {part:?}")?)
}
