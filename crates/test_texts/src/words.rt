//! Arguments and answers as words.

use crate::fault::RowFault;
use ls_bytes::{Bytes, Memory};
use std::alloc::{AllocError, Global};

/// The bytes that an argument stands for: those of its pieces, one behind another.
pub fn bytes_of(alloc: Global, word: &str) -> Result<Vec<u8>, RowFault> {
    let mut bytes = Vec::new(alloc);
    for piece in word.split('+') {
        put_piece(alloc, &mut bytes, piece)?;
    }
    Ok(bytes)
}

fn put_piece(alloc: Global, bytes: &mut Vec<u8>, piece: &str) -> Result<(), RowFault> {
    let (unit, times) = match piece.split_once('*') {
        Some((unit, times)) => (unit, times_of(times)?),
        None => (piece, 1),
    };
    let unit = unit_of(alloc, unit)?;
    for _ in 0..times {
        bytes.extend_from_slice(&unit)?;
    }
    Ok(())
}

fn times_of(times: &str) -> Result<u16, RowFault> {
    match times.parse::<u16>() {
        Ok(times) => Ok(times),
        Err(_) => Err(RowFault::Form),
    }
}

fn unit_of(alloc: Global, unit: &str) -> Result<Vec<u8>, RowFault> {
    if unit == "-" {
        return Ok(Vec::new(alloc));
    }
    match unit.strip_prefix('\'') {
        Some(text) => Ok(spaced(alloc, text)?),
        None => Ok(hex::decode(alloc, unit)?),
    }
}

/// The text with a space for each `_`.
fn spaced(alloc: Global, text: &str) -> Result<Vec<u8>, AllocError> {
    let mut bytes = Vec::new(alloc);
    for byte in text.bytes() {
        bytes.push(if byte == b'_' { b' ' } else { byte })?;
    }
    Ok(bytes)
}

/// A text, if there was memory for it.
pub fn made(text: Result<String, AllocError>) -> Result<String, RowFault> {
    match text {
        Ok(text) => Ok(text),
        Err(_) => Err(RowFault::Memory),
    }
}

pub fn said(alloc: Global, word: &str) -> Result<String, RowFault> {
    made(word.to_string(alloc))
}

pub fn number_text(alloc: Global, number: u64) -> Result<String, RowFault> {
    made(format!(in alloc; "{number}"))
}

/// The number, or `-` for none.
pub fn number_or_none(alloc: Global, number: Option<u32>) -> Result<String, RowFault> {
    match number {
        Some(number) => number_text(alloc, u64::from(number)),
        None => said(alloc, "-"),
    }
}

/// A word, and the place that it is said of.
pub fn place_text(alloc: Global, word: &str, at: u32) -> Result<String, RowFault> {
    made(format!(in alloc; "{word} {at}"))
}

/// The hex digits of these bytes, or `-` for none.
pub fn digits_of(alloc: Global, bytes: &[u8]) -> Result<String, RowFault> {
    if bytes.is_empty() {
        said(alloc, "-")
    } else {
        made(hex::encode(alloc, bytes))
    }
}

/// The same, of bytes that were printed.
pub fn printed_digits(alloc: Global, bytes: Result<Bytes, Memory>) -> Result<String, RowFault> {
    match bytes {
        Ok(bytes) => digits_of(alloc, bytes.as_slice()),
        Err(_) => Err(RowFault::Memory),
    }
}

/// Words, and behind them the digits of bytes that were printed.
pub fn with_digits(
    alloc: Global,
    words: Result<String, RowFault>,
    bytes: Result<Bytes, Memory>,
) -> Result<String, RowFault> {
    match printed_digits(alloc, bytes) {
        Ok(digits) => with_word(words, digits.as_str()),
        Err(fault) => Err(fault),
    }
}

/// Words, and a word behind them.
pub fn with_word(words: Result<String, RowFault>, word: &str) -> Result<String, RowFault> {
    let mut words = words?;
    put_word(&mut words, word)?;
    Ok(words)
}

/// The characters of these bytes.
pub fn text_of(alloc: Global, bytes: &[u8]) -> Result<String, RowFault> {
    made(String::from_utf8_lossy(alloc, bytes))
}

/// The same, of bytes that were printed.
pub fn printed_text(alloc: Global, bytes: Result<Bytes, Memory>) -> Result<String, RowFault> {
    match bytes {
        Ok(bytes) => text_of(alloc, bytes.as_slice()),
        Err(_) => Err(RowFault::Memory),
    }
}

/// The word that these bytes are.
pub fn word_of(bytes: &[u8]) -> Result<&str, RowFault> {
    match std::str::from_utf8(bytes) {
        Ok(word) => Ok(word),
        Err(_) => Err(RowFault::Form),
    }
}

/// So many bytes.
pub fn array_of<const N: usize>(bytes: &[u8]) -> Result<[u8; N], RowFault> {
    match <[u8; N]>::try_from(bytes) {
        Ok(array) => Ok(array),
        Err(_) => Err(RowFault::Form),
    }
}

/// A number of one byte.
pub fn byte_of(bytes: &[u8]) -> Result<u8, RowFault> {
    match bytes {
        [byte] => Ok(*byte),
        _ => Err(RowFault::Form),
    }
}

/// A number of at most eight bytes, the highest first.
pub fn number_of(bytes: &[u8]) -> Result<u64, RowFault> {
    if bytes.is_empty() || bytes.len() > 8 {
        return Err(RowFault::Form);
    }
    let mut number: u64 = 0;
    for byte in bytes {
        number = number << 8 | u64::from(*byte);
    }
    Ok(number)
}

/// The same, where it fits four bytes.
pub fn half_of(bytes: &[u8]) -> Result<u32, RowFault> {
    match u32::try_from(number_of(bytes)?) {
        Ok(number) => Ok(number),
        Err(_) => Err(RowFault::Form),
    }
}

/// Puts a word behind the others, with a space between them.
pub fn put_word(words: &mut String, word: &str) -> Result<(), AllocError> {
    if !words.is_empty() {
        words.push(' ')?;
    }
    words.push_str(word)
}

/// The same, of a word that was made.
pub fn put_made(words: &mut String, word: Result<String, RowFault>) -> Result<(), RowFault> {
    match word {
        Ok(word) => Ok(put_word(words, word.as_str())?),
        Err(fault) => Err(fault),
    }
}

/// What is said of a fact.
pub fn yes_or_no(fact: bool) -> &'static str {
    if fact { "yes" } else { "no" }
}
