//! Arguments and answers as words.

use crate::fault::RowFault;
use ls_memboard::{Failure, FailureList, Pick};
use std::alloc::Global;

/// How many letters a `~` in a script stands for.
const MANY: usize = 4078;

/// The bytes of a script.
pub fn script_of(alloc: Global, text: &str) -> Result<Vec<u8>, RowFault> {
    let mut bytes = Vec::new(alloc);
    for b in text.as_bytes() {
        match *b {
            b'|' => bytes.push(b'\n').map_err(|_| RowFault::Memory)?,
            b'~' => bytes.resize(bytes.len() + MANY, b'a')?,
            other => bytes.push(other).map_err(|_| RowFault::Memory)?,
        }
    }
    Ok(bytes)
}

/// What was said, with `|` at the end of each line.
pub fn said_of(alloc: Global, said: &[u8]) -> Result<String, RowFault> {
    let mut text = String::new(alloc);
    for b in said {
        text.push(if *b == b'\n' { '|' } else { char::from(*b) })?;
    }
    Ok(text)
}

/// The bytes that an argument stands for.
pub fn bytes_of(alloc: Global, word: &str) -> Result<Vec<u8>, RowFault> {
    let mut bytes = Vec::new(alloc);
    if word == "-" {
        return Ok(bytes);
    }
    for part in word.split('+') {
        put_part(alloc, &mut bytes, part)?;
    }
    Ok(bytes)
}

/// Puts hex digits, or some that are repeated, behind the bytes.
fn put_part(alloc: Global, bytes: &mut Vec<u8>, part: &str) -> Result<(), RowFault> {
    let (digits, times) = part.split_once('*').unwrap_or((part, "1"));
    let piece = hex::decode(alloc, digits)?;
    for _ in 0..number_of(times)? {
        bytes.extend_from_slice(&piece)?;
    }
    Ok(())
}

/// A decimal number.
pub fn number_of(word: &str) -> Result<u64, RowFault> {
    word.parse::<u64>().map_err(|_| RowFault::Form)
}

/// The hex digits of these bytes, or `-` for none.
pub fn digits_of(alloc: Global, bytes: &[u8]) -> Result<String, RowFault> {
    if bytes.is_empty() {
        return Ok("-".to_string(alloc)?);
    }
    Ok(hex::encode(alloc, bytes)?)
}

/// What a file holds, or that there is none.
pub fn content_of(alloc: Global, content: Option<&[u8]>) -> Result<String, RowFault> {
    match content {
        Some(bytes) => digits_of(alloc, bytes),
        None => Ok("none".to_string(alloc)?),
    }
}

/// The calls that fail: their numbers joined by `,`, each followed by `d` where it is done first.
pub fn failures_of(alloc: Global, word: &str) -> Result<FailureList, RowFault> {
    let mut failures = FailureList::new(alloc);
    if word == "-" {
        return Ok(failures);
    }
    for entry in word.split(',') {
        let (call, done) = match entry.strip_suffix('d') {
            Some(call) => (call, true),
            None => (entry, false),
        };
        let call = number_of(call)?;
        failures.push(Failure { call, done })?;
    }
    Ok(failures)
}

/// A pick: `old`, `new`, or the seed of its noise.
pub fn pick_of(word: &str) -> Result<Pick, RowFault> {
    match word {
        "old" => Ok(Pick::Old),
        "new" => Ok(Pick::New),
        seed => Ok(Pick::Noise(number_of(seed)?)),
    }
}
