//! How much is planned to take a protector away, and to put and remove the files of a user itself.

use crate::answer::{Answer, RowFault};
use crate::chain::weight;
use crate::words::{byte_of, half_of, number_of, word_of};
use ls_arming::{Arming, UserNumbers};
use ls_bytes::{Bytes, IdList, Memory};
use ls_credential::Kind;
use ls_formats::FilePart;
use ls_record::UserRow;
use ls_retiring::{
    Built, erase_all_plan, erase_plan, put_escrow_plan, put_own_plan, remove_own_plan, remove_plan,
};
use ls_sealing::Place;
use std::alloc::Global;

/// What a protector is of: its kind, or none for a token.
fn kind_of(name: &[u8]) -> Result<Option<Kind>, RowFault> {
    match word_of(name) {
        "none" => Ok(Some(Kind::Empty)),
        "pin" => Ok(Some(Kind::Pin)),
        "token" => Ok(None),
        _ => Err(RowFault::Form),
    }
}

fn slot_of(to: &mut Answer, slot: &[u8]) -> Option<u32> {
    match slot {
        [] => None,
        slot => Some(half_of(to, slot)),
    }
}

/// A protector: user, id, its slot or none, and what it is of.
fn built_of(to: &mut Answer, args: &[Vec<u8>]) -> Result<Built, RowFault> {
    match args {
        [user, id, slot, of] => {
            let place = Place {
                user: half_of(to, user),
                id: number_of(to, id),
                slot: slot_of(to, slot),
            };
            match kind_of(of) {
                Ok(kind) => Ok(Built { place, kind }),
                Err(fault) => Err(fault),
            }
        }
        _ => Err(RowFault::Form),
    }
}

/// The weight of the plan that erases a protector.
pub fn erased(alloc: Global, to: &mut Answer, args: &[Vec<u8>]) {
    match built_of(to, args) {
        Ok(built) => weight(to, erase_plan(alloc, &built)),
        Err(fault) => to.fails(fault),
    }
}

/// Of the plan that erases it twice.
pub fn erased_twice(alloc: Global, to: &mut Answer, args: &[Vec<u8>]) {
    match built_of(to, args) {
        Ok(built) => weight(to, erase_all_plan(alloc, &[built, built])),
        Err(fault) => to.fails(fault),
    }
}

/// Of the plan that removes its files.
pub fn removed(alloc: Global, to: &mut Answer, args: &[Vec<u8>]) {
    match built_of(to, args) {
        Ok(built) if built.place.id > 0 => weight(to, remove_plan(alloc, &built)),
        Ok(_) => to.is_no_row(),
        Err(fault) => to.fails(fault),
    }
}

/// Of the plans that put a user's `e0` and `p1` files, and its `handle` file: user, and the three.
pub fn own_put(alloc: Global, to: &mut Answer, args: &[Vec<u8>]) {
    match args {
        [user, e0, p1, handle] => {
            let user = half_of(to, user);
            escrow_put(alloc, to, user, e0, p1);
            handle_put(alloc, to, user, handle);
        }
        _ => to.is_no_row(),
    }
}

fn escrow_put(alloc: Global, to: &mut Answer, user: u32, e0: &[u8], p1: &[u8]) {
    match Bytes::of(alloc, e0) {
        Ok(e0) => match Bytes::of(alloc, p1) {
            Ok(p1) => weight(to, put_escrow_plan(alloc, user, e0, p1)),
            Err(_) => to.lacks_memory(),
        },
        Err(_) => to.lacks_memory(),
    }
}

fn handle_put(alloc: Global, to: &mut Answer, user: u32, handle: &[u8]) {
    match Bytes::of(alloc, handle) {
        Ok(handle) => weight(to, put_own_plan(alloc, user, FilePart::Handle, handle)),
        Err(_) => to.lacks_memory(),
    }
}

/// Of the plan that removes a user's own files: user, secure id, whether it may have tokens, and
/// whether it is armed.
pub fn own_removed(alloc: Global, to: &mut Answer, args: &[Vec<u8>]) {
    match args {
        [user, secure, escrow, armed] => {
            let row = UserRow {
                user: half_of(to, user),
                escrow: byte_of(to, escrow) == 1,
                kind: Kind::Pin,
                auto: false,
                pin: 0,
                protector: 2,
                secure: number_of(to, secure),
                tokens: IdList::new(alloc),
            };
            match arming_of(alloc, row.user, byte_of(to, armed) == 1) {
                Ok(armed) => weight(to, remove_own_plan(alloc, &armed, &row)),
                Err(_) => to.lacks_memory(),
            }
        }
        _ => to.is_no_row(),
    }
}

/// An arming of this user, or none.
fn arming_of(alloc: Global, user: u32, armed: bool) -> Result<Option<Arming>, Memory> {
    if !armed {
        return Ok(None);
    }
    let users = UserNumbers::of(alloc, &[user])?;
    Ok(Some(Arming { boot: 1, users }))
}
