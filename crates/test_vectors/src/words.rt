//! The arguments of a row.

use crate::answer::{Answer, RowFault};
use hex::FromHexError;
use std::alloc::{AllocError, Global};

/// The bytes that an argument stands for: those of its pieces, one behind another.
pub fn bytes_of(alloc: Global, word: &str) -> Result<Vec<u8>, RowFault> {
    let mut bytes = Vec::new(alloc);
    for piece in word.split('+') {
        put_piece(alloc, &mut bytes, piece)?;
    }
    Ok(bytes)
}

/// Puts what is repeated, or sevens, behind the bytes.
fn put_piece(alloc: Global, bytes: &mut Vec<u8>, piece: &str) -> Result<(), RowFault> {
    match piece.split_once('%') {
        Some((first, len)) => put_sevens(alloc, bytes, first, times_of(len)?),
        None => match piece.split_once('*') {
            Some((unit, times)) => put_times(alloc, bytes, unit, times_of(times)?),
            None => put_times(alloc, bytes, piece, 1),
        },
    }
}

fn times_of(times: &str) -> Result<u16, RowFault> {
    match times.parse::<u16>() {
        Ok(times) => Ok(times),
        Err(_) => Err(RowFault::Form),
    }
}

fn put_times(alloc: Global, bytes: &mut Vec<u8>, unit: &str, times: u16) -> Result<(), RowFault> {
    let unit = unit_of(alloc, unit)?;
    for _ in 0..times {
        if bytes.extend_from_slice(&unit).is_err() {
            return Err(RowFault::Memory);
        }
    }
    Ok(())
}

/// So many bytes, each 7 more than the one before, modulo 256.
fn put_sevens(alloc: Global, bytes: &mut Vec<u8>, first: &str, len: u16) -> Result<(), RowFault> {
    let unit = unit_of(alloc, first)?;
    let [first] = unit.as_slice() else {
        return Err(RowFault::Length);
    };
    let mut next = *first;
    for _ in 0..len {
        if bytes.push(next).is_err() {
            return Err(RowFault::Memory);
        }
        next = next.wrapping_add(7);
    }
    Ok(())
}

fn unit_of(alloc: Global, unit: &str) -> Result<Vec<u8>, RowFault> {
    if unit == "-" {
        return Ok(Vec::new(alloc));
    }
    match unit.strip_prefix('\'') {
        Some(text) => match spaced(alloc, text) {
            Ok(bytes) => Ok(bytes),
            Err(_) => Err(RowFault::Memory),
        },
        None => match hex::decode(alloc, unit) {
            Ok(bytes) => Ok(bytes),
            Err(FromHexError::OutOfMemory) => Err(RowFault::Memory),
            Err(_) => Err(RowFault::Form),
        },
    }
}

/// The text with a space for each `_`.
fn spaced(alloc: Global, text: &str) -> Result<Vec<u8>, AllocError> {
    let mut bytes = Vec::new(alloc);
    for byte in text.bytes() {
        bytes.push(if byte == b'_' { b' ' } else { byte })?;
    }
    Ok(bytes)
}

/// Just so many bytes.
pub fn array_of<const N: usize>(to: &mut Answer, bytes: &[u8]) -> [u8; N] {
    if bytes.len() != N {
        to.fails(RowFault::Length);
    }
    let mut array = [0; N];
    for (to, from) in array.iter_mut().zip(bytes) {
        *to = *from;
    }
    array
}

/// The number of these bytes, the highest first, of which there are one to `most`.
fn read_number(to: &mut Answer, bytes: &[u8], most: usize) -> u64 {
    if bytes.is_empty() || bytes.len() > most {
        to.fails(RowFault::Length);
    }
    let mut number: u64 = 0;
    for byte in bytes {
        number = number << 8 | u64::from(*byte);
    }
    number
}

/// The number of one to eight bytes.
pub fn number_of(to: &mut Answer, bytes: &[u8]) -> u64 {
    read_number(to, bytes, 8)
}

/// The number of one to four bytes.
pub fn half_of(to: &mut Answer, bytes: &[u8]) -> u32 {
    (read_number(to, bytes, 4) % 0x1_0000_0000) as u32
}

/// The number of one byte.
pub fn byte_of(to: &mut Answer, bytes: &[u8]) -> u8 {
    (read_number(to, bytes, 1) % 0x100) as u8
}

/// The word that these bytes are.
pub fn word_of(bytes: &[u8]) -> &str {
    std::str::from_utf8(bytes).unwrap_or("")
}
