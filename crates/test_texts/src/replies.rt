//! The texts of other replies, without the end of their line.

use crate::credentials::{kind_of, metrics_of};
use crate::fault::RowFault;
use crate::words::{array_of, byte_of, half_of, number_of, number_text, text_of, word_of};
use ls_bytes::{Bytes, Memory, UserList};
use ls_credential::{Kind, Metrics};
use ls_script::{Reply, Revealed, RevealedList, StatusRow, TokenState, print_reply};
use ls_secret::{Derived, Subkey};
use std::alloc::Global;

/// A reply is one line: the text before the end of it.
fn line_text(alloc: Global, reply: &[u8]) -> Result<String, RowFault> {
    match reply {
        [text @ .., b'\n'] => text_of(alloc, text),
        _ => Err(RowFault::Form),
    }
}

/// The text of a reply that was printed.
pub fn reply_text(alloc: Global, reply: Result<Bytes, Memory>) -> Result<String, RowFault> {
    match reply {
        Ok(reply) => line_text(alloc, reply.as_slice()),
        Err(_) => Err(RowFault::Memory),
    }
}

/// The text of a reply.
pub fn printed(alloc: Global, reply: Result<Reply, RowFault>) -> Result<String, RowFault> {
    match reply {
        Ok(reply) => reply_text(alloc, print_reply(alloc, &reply)),
        Err(fault) => Err(fault),
    }
}

/// A reply of a word or with one number.
pub fn plain(alloc: Global, args: &[Vec<u8>]) -> Result<String, RowFault> {
    match args {
        [name] => printed(alloc, of_a_word(alloc, name)),
        [name, number] => printed(alloc, with_a_number(name, number)),
        _ => Err(RowFault::Form),
    }
}

fn of_a_word(alloc: Global, name: &[u8]) -> Result<Reply, RowFault> {
    match word_of(name)? {
        "fine" => Ok(Reply::Fine),
        "pending" => Ok(Reply::TokenState(TokenState::Pending)),
        "active" => Ok(Reply::TokenState(TokenState::Active)),
        "absent" => Ok(Reply::TokenState(TokenState::Absent)),
        "resumed" => Ok(Reply::Resumed(RevealedList::new(alloc))),
        _ => Err(RowFault::Form),
    }
}

fn with_a_number(name: &[u8], number: &[u8]) -> Result<Reply, RowFault> {
    match word_of(name)? {
        "token-id" => Ok(Reply::TokenId(number_of(number)?)),
        "pin-length" => Ok(Reply::PinLength(byte_of(number)?)),
        _ => Err(RowFault::Form),
    }
}

/// The reply for a user who is opened or not, has a credential of this kind, escrow or not, this
/// secure id, and so many active and pending tokens.
pub fn status(alloc: Global, args: &[Vec<u8>]) -> Result<String, RowFault> {
    match args {
        [opened, kind, escrow, secure, active, pending] => {
            let row = StatusRow {
                opened: byte_of(opened)? == 1,
                kind: kind_of(kind)?,
                escrow: byte_of(escrow)? == 1,
                secure: number_of(secure)?,
                active: byte_of(active)?,
                pending: byte_of(pending)?,
            };
            printed(alloc, Ok(Reply::Status(row)))
        }
        _ => Err(RowFault::Form),
    }
}

pub fn users(alloc: Global, args: &[Vec<u8>]) -> Result<String, RowFault> {
    printed(alloc, of_users(alloc, args))
}

fn of_users(alloc: Global, args: &[Vec<u8>]) -> Result<Reply, RowFault> {
    let mut users = UserList::new(alloc);
    for user in args {
        put_user(&mut users, user)?;
    }
    Ok(Reply::Users(users))
}

fn put_user(users: &mut UserList, user: &[u8]) -> Result<(), RowFault> {
    let user = half_of(user)?;
    Ok(users.push(user)?)
}

/// The reply for a user with these four short keys, this secure id and this PIN.
pub fn opened(alloc: Global, args: &[Vec<u8>]) -> Result<String, RowFault> {
    match args {
        [user, keystore, fbe, auth, gk, secure, pin] => {
            let user = half_of(user)?;
            let secure = number_of(secure)?;
            let metrics = metrics_of(alloc, Kind::Pin, pin)?;
            let derived = derived(keystore, fbe, auth, gk)?;
            let revealed = Revealed {
                user,
                derived,
                secure,
                metrics: Some(metrics),
            };
            printed(alloc, Ok(Reply::Opened(revealed)))
        }
        _ => Err(RowFault::Form),
    }
}

fn derived(keystore: &[u8], fbe: &[u8], auth: &[u8], gk: &[u8]) -> Result<Derived, RowFault> {
    Ok(Derived {
        keystore: short(keystore)?,
        fbe: short(fbe)?,
        auth: short(auth)?,
        gk: short(gk)?,
    })
}

fn short(key: &[u8]) -> Result<Subkey, RowFault> {
    Ok(Subkey::Short(array_of(key)?))
}

/// The most that is counted: two digits in each count.
fn most_counted() -> Metrics {
    Metrics {
        kind: Kind::Password,
        length: 16,
        letters: 10,
        upper: 10,
        lower: 16,
        numeric: 10,
        symbols: 10,
        non_letter: 10,
        non_numeric: 16,
        run: 16,
    }
}

/// The user with the longest words: keys of version 2, and these metrics.
fn longest(metrics: Option<Metrics>) -> Revealed {
    let key = Subkey::Long([7; 64]);
    Revealed {
        user: 4294967295,
        derived: Derived {
            keystore: key,
            fbe: key,
            auth: key,
            gk: key,
        },
        secure: 1,
        metrics,
    }
}

/// How many bytes a reply has that says the longest words for so many users.
pub fn resumed_size(alloc: Global, args: &[Vec<u8>]) -> Result<String, RowFault> {
    match args {
        [users] => {
            let users = byte_of(users)?;
            match resumed(alloc, users) {
                Ok(reply) => size_text(alloc, print_reply(alloc, &reply)),
                Err(_) => Err(RowFault::Memory),
            }
        }
        _ => Err(RowFault::Form),
    }
}

fn resumed(alloc: Global, users: u8) -> Result<Reply, Memory> {
    let mut revealed = RevealedList::new(alloc);
    for _ in 0..users {
        let metrics = Some(most_counted());
        revealed.push(longest(metrics))?;
    }
    Ok(Reply::Resumed(revealed))
}

fn size_text(alloc: Global, text: Result<Bytes, Memory>) -> Result<String, RowFault> {
    match text {
        Ok(text) => number_text(alloc, text.as_slice().len() as u64),
        Err(_) => Err(RowFault::Memory),
    }
}
