//! Changes of files.

use crate::fault::RowFault;
use crate::words::{array_of, byte_of, number_of, word_of};
use ls_blob::seal_under;
use ls_board::FileTable;
use ls_bytes::Name;
use std::alloc::{AllocError, Global};

/// Takes a file away, or makes it hold other bytes.
pub fn change(
    alloc: Global,
    files: &mut FileTable,
    change: &str,
    args: &[Vec<u8>],
) -> Result<(), RowFault> {
    match args {
        [file] if change == "remove" => {
            files.remove(file);
            Ok(())
        }
        [file, others @ ..] => {
            let bytes = bytes_after(alloc, files, change, file, others)?;
            let name = Name::of(alloc, file)?;
            Ok(files.put(&name, &bytes)?)
        }
        _ => Err(RowFault::Form),
    }
}

/// What a file holds, nothing where it isn't there.
fn content<'a>(files: &'a FileTable, file: &[u8]) -> &'a [u8] {
    match files.content(file) {
        Some(bytes) => bytes,
        None => &[],
    }
}

/// What a file holds after the change.
fn bytes_after(
    alloc: Global,
    files: &FileTable,
    change: &str,
    file: &[u8],
    args: &[Vec<u8>],
) -> Result<Vec<u8>, RowFault> {
    match args {
        [arg] => bytes_with(alloc, files, change, file, arg),
        [first, count] if change == "drawn" => {
            Ok(sevens(alloc, byte_of(first), word_of(count))?)
        }
        [key, personal, iv] if change == "seal" => {
            sealed(alloc, content(files, file), key, personal, iv)
        }
        _ => Err(RowFault::Form),
    }
}

/// What it holds after a change that has one argument.
fn bytes_with(
    alloc: Global,
    files: &FileTable,
    change: &str,
    file: &[u8],
    arg: &[u8],
) -> Result<Vec<u8>, RowFault> {
    match change {
        "put" => Ok(arg.to_vec(alloc)?),
        "copy" => Ok(content(files, arg).to_vec(alloc)?),
        "longer" => Ok(lengthened(alloc, content(files, file), word_of(arg))?),
        "turn" => turned(alloc, content(files, file), number_of(arg)),
        _ => Err(RowFault::Form),
    }
}

/// The bytes with the lowest bit of one turned over.
fn turned(alloc: Global, bytes: &[u8], at: u64) -> Result<Vec<u8>, RowFault> {
    let at = at as usize;
    let mut bytes = bytes.to_vec(alloc)?;
    if at < bytes.len() {
        bytes[at] ^= 1;
        Ok(bytes)
    } else {
        Err(RowFault::Form)
    }
}

/// The bytes with so many zeros behind them.
fn lengthened(alloc: Global, bytes: &[u8], count: u32) -> Result<Vec<u8>, AllocError> {
    let mut bytes = bytes.to_vec(alloc)?;
    for _ in 0..count {
        bytes.push(0)?;
    }
    Ok(bytes)
}

/// So many bytes, each 7 more than the one before it, modulo 256.
pub fn sevens(alloc: Global, first: u8, count: u32) -> Result<Vec<u8>, AllocError> {
    let mut bytes = Vec::new(alloc);
    let mut next = first;
    for _ in 0..count {
        bytes.push(next)?;
        next = next.wrapping_add(7);
    }
    Ok(bytes)
}

/// The bytes sealed under a key and a personalisation.
fn sealed(
    alloc: Global,
    bytes: &[u8],
    key: &[u8],
    personal: &[u8],
    iv: &[u8],
) -> Result<Vec<u8>, RowFault> {
    if bytes.len() > 16384 || personal.len() > 128 {
        return Err(RowFault::Form);
    }
    let sealed = seal_under(alloc, key, personal, &array_of(iv)?, bytes)?;
    Ok(sealed.as_slice().to_vec(alloc)?)
}
