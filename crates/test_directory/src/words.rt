//! The words of a row.

use crate::fault::RowFault;
use std::alloc::Global;

/// The first word of a text, and what follows it.
pub fn cut(text: &str) -> (&str, &str) {
    match text.split_once(' ') {
        Some((word, rest)) => (word, rest),
        None => (text, ""),
    }
}

/// The bytes that each word stands for.
pub fn args_of(alloc: Global, text: &str) -> Result<Vec<Vec<u8>>, RowFault> {
    let mut args = Vec::new(alloc);
    for word in text.split_whitespace() {
        let arg = bytes_of(alloc, word)?;
        args.push(arg).map_err(|_| RowFault::Memory)?;
    }
    Ok(args)
}

/// The bytes that a word stands for.
fn bytes_of(alloc: Global, word: &str) -> Result<Vec<u8>, RowFault> {
    if word == "-" {
        return Ok(Vec::new(alloc));
    }
    match word.strip_prefix('\'') {
        Some(text) => Ok(text.as_bytes().to_vec(alloc)?),
        None => Ok(hex::decode(alloc, word)?),
    }
}

/// So many bytes.
pub fn array_of<const N: usize>(bytes: &[u8]) -> Result<[u8; N], RowFault> {
    match <[u8; N]>::try_from(bytes) {
        Ok(array) => Ok(array),
        Err(_) => Err(RowFault::Form),
    }
}

/// The number of these bytes, the higher ones first. Of more than eight the last eight count.
pub fn number_of(bytes: &[u8]) -> u64 {
    let mut number = 0_u64;
    for byte in bytes {
        number = number.wrapping_mul(256) | u64::from(*byte);
    }
    number
}

/// The number of the last four bytes.
pub fn word_of(bytes: &[u8]) -> u32 {
    (number_of(bytes) % 0x1_0000_0000) as u32
}
