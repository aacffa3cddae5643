//! Fields, hex text, lists of users and of names.

use crate::fault::RowFault;
use crate::words::{
    byte_of, half_of, made, number_of, number_or_none, number_text, printed_digits, printed_text,
    put_made, said, word_of, yes_or_no,
};
use ls_bytes::{
    Bytes, Memory, Name, NameFault, NameList, Reader, Short, UserList, hex_lower, hex_upper,
    put_be32, put_be64, put_bytes, put_u8,
};
use std::alloc::Global;

/// What a reader of these bytes gives for each thing that it is asked.
pub fn read(alloc: Global, args: &[Vec<u8>]) -> Result<String, RowFault> {
    match args {
        [bytes, asks @ ..] if bytes.len() < 1 << 20 => {
            let mut reader = Reader::new(bytes);
            let mut answers = String::new(alloc);
            for ask in asks {
                put_made(&mut answers, asked(alloc, &mut reader, ask))?;
            }
            Ok(answers)
        }
        _ => Err(RowFault::Form),
    }
}

fn asked(alloc: Global, reader: &mut Reader<'_>, ask: &[u8]) -> Result<String, RowFault> {
    match word_of(ask)? {
        "u8" => field_text(alloc, reader.u8().map(u64::from)),
        "be32" => field_text(alloc, reader.be32().map(u64::from)),
        "at" => number_text(alloc, u64::from(reader.at())),
        "ended" => said(alloc, yes_or_no(reader.ended())),
        _ => Err(RowFault::Form),
    }
}

fn field_text(alloc: Global, field: Result<u64, Short>) -> Result<String, RowFault> {
    match field {
        Ok(number) => number_text(alloc, number),
        Err(Short { at }) => made(format!(in alloc; "short-{at}")),
    }
}

pub fn upper(alloc: Global, args: &[Vec<u8>]) -> Result<String, RowFault> {
    match args {
        [bytes] => printed_text(alloc, hex_upper(alloc, bytes)),
        _ => Err(RowFault::Form),
    }
}

pub fn lower(alloc: Global, args: &[Vec<u8>]) -> Result<String, RowFault> {
    match args {
        [bytes] => printed_text(alloc, hex_lower(alloc, bytes)),
        _ => Err(RowFault::Form),
    }
}

/// The bytes, and behind them a number of one byte, of four and of eight, and bytes again.
pub fn put(alloc: Global, args: &[Vec<u8>]) -> Result<String, RowFault> {
    match args {
        [front, byte, half, whole, back] => {
            let byte = byte_of(byte)?;
            let half = half_of(half)?;
            let whole = number_of(whole)?;
            printed_digits(alloc, fields(alloc, front, byte, half, whole, back))
        }
        _ => Err(RowFault::Form),
    }
}

fn fields(
    alloc: Global,
    front: &[u8],
    byte: u8,
    half: u32,
    whole: u64,
    back: &[u8],
) -> Result<Bytes, Memory> {
    let mut bytes = Bytes::of(alloc, front)?;
    put_numbers(&mut bytes, byte, half, whole)?;
    put_bytes(&mut bytes, back)?;
    Ok(bytes)
}

fn put_numbers(bytes: &mut Bytes, byte: u8, half: u32, whole: u64) -> Result<(), Memory> {
    put_u8(bytes, byte)?;
    put_be32(bytes, half)?;
    put_be64(bytes, whole)
}

/// The rows 0, 1 and 2 of a list of two users, `-` where there is none.
pub fn users(alloc: Global, args: &[Vec<u8>]) -> Result<String, RowFault> {
    match args {
        [one, other] => {
            let one = half_of(one)?;
            let other = half_of(other)?;
            let mut users = UserList::new(alloc);
            users.push(one)?;
            users.push(other)?;
            rows_text(alloc, &users)
        }
        _ => Err(RowFault::Form),
    }
}

fn rows_text(alloc: Global, users: &UserList) -> Result<String, RowFault> {
    let mut rows = String::new(alloc);
    for at in 0..3 {
        put_made(&mut rows, number_or_none(alloc, users.get(at).copied()))?;
    }
    Ok(rows)
}

/// How many names there are in a list of this one.
pub fn names(alloc: Global, args: &[Vec<u8>]) -> Result<String, RowFault> {
    match args {
        [name] => {
            let name = name_of(alloc, name)?;
            let mut names = NameList::new(alloc);
            names.push(name)?;
            number_text(alloc, u64::from(names.len()))
        }
        _ => Err(RowFault::Form),
    }
}

/// The name that these bytes are.
pub fn name_of(alloc: Global, bytes: &[u8]) -> Result<Name, RowFault> {
    match Name::of(alloc, bytes) {
        Ok(name) => Ok(name),
        Err(NameFault::Memory) => Err(RowFault::Memory),
        Err(_) => Err(RowFault::Form),
    }
}
