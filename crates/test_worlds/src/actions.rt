//! Actions of a board.

use crate::fault::RowFault;
use crate::words::{array_of, number_of, word_of};
use ls_board::Action;
use ls_bytes::{Bytes, Name};
use std::alloc::Global;

/// The action of this name.
pub fn action_of(alloc: Global, name: &str, args: &[Vec<u8>]) -> Result<Action, RowFault> {
    match args {
        [] => without_argument(name),
        [file] if is_of_files(name) => on_file(alloc, name, file),
        [id] => on_device(alloc, name, id),
        [slot, key] => reading(name, word_of(slot), key),
        _ => Err(RowFault::Form),
    }
}

fn without_argument(name: &str) -> Result<Action, RowFault> {
    match name {
        "sync" => Ok(Action::Sync),
        "store" => Ok(Action::ResumeStore { key: [3; 32] }),
        "take" => Ok(Action::ResumeTake),
        _ => Err(RowFault::Form),
    }
}

fn is_of_files(name: &str) -> bool {
    match name {
        "make" | "put" | "poke" | "remove" => true,
        _ => false,
    }
}

/// What is put, or written over the begin of a file, is one byte.
fn on_file(alloc: Global, name: &str, file: &[u8]) -> Result<Action, RowFault> {
    let bytes = Bytes::of(alloc, &[1])?;
    let file = Name::of(alloc, file)?;
    match name {
        "make" => Ok(Action::Make { name: file, len: 1 }),
        "put" => Ok(Action::Put { name: file, bytes }),
        "poke" => Ok(Action::Poke {
            name: file,
            at: 0,
            bytes,
        }),
        _ => Ok(Action::Remove { name: file }),
    }
}

/// The action on a slot, an id or an alias.
fn on_device(alloc: Global, name: &str, bytes: &[u8]) -> Result<Action, RowFault> {
    let id = number_of(bytes);
    match name {
        "write" => Ok(Action::WeaverWrite {
            slot: word_of(bytes),
            key: [1; 16],
            value: [2; 16],
        }),
        "enroll" => Ok(Action::GkEnroll { sid: id }),
        "forget" => Ok(Action::GkForget { sid: id }),
        "verify" => Ok(Action::GkVerify {
            handle: zeros_for(id),
            password: Bytes::from(Vec::new(alloc)),
            moment: 0,
        }),
        "put-key" => Ok(Action::KeyPut {
            alias: id,
            key: [3; 32],
        }),
        "drop-key" => Ok(Action::KeyDrop { alias: id }),
        _ => Err(RowFault::Form),
    }
}

/// The handle of zeros for an id.
fn zeros_for(sid: u64) -> [u8; 49] {
    let mut handle = [0; 49];
    handle[0] = 1;
    handle[1..9].copy_from_slice(&sid.to_be_bytes());
    handle
}

fn reading(name: &str, slot: u32, key: &[u8]) -> Result<Action, RowFault> {
    if name != "read" {
        return Err(RowFault::Form);
    }
    Ok(Action::WeaverRead {
        slot,
        key: array_of(key)?,
        moment: 0,
    })
}
