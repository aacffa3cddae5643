//! Actions of a board.
ghost use Rattle.std.specs.Prelude.{IsTrue};
ghost use Rattle.ls_board.specs.Effect.{IsSound};

use crate::fault::RowFault;
use crate::words::{array_of, number_of, word_of};
use ls_board::Action;
use ls_bytes::{Bytes, Name};
use std::alloc::Global;

/// The action of this name.
pub fn action_of(alloc: Global, name: &str, args: &[Vec<u8>]) -> Result<Action, RowFault> {
    match args {
        [] => alone(name),
        [id] if is_of_devices(name) => on_id(name, id),
        [first] => with_one(alloc, name, first),
        [first, second] => with_two(alloc, name, first, second),
        [first, second, third] => with_three(alloc, name, first, second, third),
        _ => Err(RowFault::Form),
    }
}

fn alone(name: &str) -> Result<Action, RowFault> {
    match name {
        "list" => Ok(Action::List),
        "sync" => Ok(Action::Sync),
        "sids" => Ok(Action::GkList),
        "aliases" => Ok(Action::KeyList),
        "take" => Ok(Action::ResumeTake),
        "now" => Ok(Action::Now),
        _ => Err(RowFault::Form),
    }
}

fn is_of_devices(name: &str) -> bool {
    match name {
        "enroll" | "forget" | "drop" | "store" => true,
        _ => false,
    }
}

fn on_id(name: &str, id: &[u8]) -> Result<Action, RowFault> {
    match name {
        "enroll" => Ok(Action::GkEnroll { sid: number_of(id) }),
        "forget" => Ok(Action::GkForget { sid: number_of(id) }),
        "drop" => Ok(Action::KeyDrop {
            alias: number_of(id),
        }),
        _ => Ok(Action::ResumeStore { key: array_of(id)? }),
    }
}

fn with_one(alloc: Global, name: &str, first: &[u8]) -> Result<Action, RowFault> {
    match name {
        "read" => Ok(Action::Read {
            name: Name::of(alloc, first)?,
        }),
        "remove" => Ok(Action::Remove {
            name: Name::of(alloc, first)?,
        }),
        "hear" => Ok(Action::Hear {
            max: word_of(first),
        }),
        "draw" => Ok(Action::Draw {
            len: word_of(first),
        }),
        "say" => Ok(Action::Say {
            bytes: Bytes::of(alloc, first)?,
        }),
        _ => Err(RowFault::Form),
    }
}

fn with_two(alloc: Global, name: &str, first: &[u8], second: &[u8]) -> Result<Action, RowFault> {
    match name {
        "make" => Ok(Action::Make {
            name: Name::of(alloc, first)?,
            len: word_of(second),
        }),
        "put" => Ok(Action::Put {
            name: Name::of(alloc, first)?,
            bytes: Bytes::of(alloc, second)?,
        }),
        "key" => Ok(Action::KeyPut {
            alias: number_of(first),
            key: array_of(second)?,
        }),
        "open-key" => Ok(Action::KeyOpen {
            alias: number_of(first),
            bytes: Bytes::of(alloc, second)?,
        }),
        _ => Err(RowFault::Form),
    }
}

fn with_three(
    alloc: Global,
    name: &str,
    first: &[u8],
    second: &[u8],
    third: &[u8],
) -> Result<Action, RowFault> {
    match name {
        "poke" => Ok(Action::Poke {
            name: Name::of(alloc, first)?,
            at: word_of(second),
            bytes: Bytes::of(alloc, third)?,
        }),
        "write" => Ok(Action::WeaverWrite {
            slot: word_of(first),
            key: array_of(second)?,
            value: array_of(third)?,
        }),
        "ask" => Ok(Action::WeaverRead {
            slot: word_of(first),
            key: array_of(second)?,
            moment: number_of(third),
        }),
        "sign" => Ok(Action::GkSign {
            sid: number_of(first),
            salt: number_of(second),
            password: Bytes::of(alloc, third)?,
        }),
        "verify" => Ok(Action::GkVerify {
            handle: array_of(first)?,
            password: Bytes::of(alloc, second)?,
            moment: number_of(third),
        }),
        _ => Err(RowFault::Form),
    }
}

/// Whether a board with so many slots can be asked it.
pub fn is_sound(slots: u32, a: &Action) -> bool
    ensures sound { IsTrue result → IsSound slots a.now }
{
    match a {
        Action::WeaverWrite { slot, .. } | Action::WeaverRead { slot, .. } => *slot < slots,
        Action::Hear { max } => *max >= 1,
        Action::Say { bytes } => bytes.as_slice().len() <= 16_384,
        _ => true,
    }
}
