//! Whether what is held of a protector seals a secret.
//!
//! What is held is nine arguments: the files `spblob`, `pwd`, `secdis`, `weaver` and `metrics`; a
//! slot, as its key, its value and four bytes of failures; a counter, as four bytes of failures and
//! eight of a moment; the Gatekeeper's key, and the key of the id. None is `-`.

use crate::answer::{Answer, RowFault};
use crate::chain::credential_of;
use crate::secrets::secret_of;
use crate::slots::slot_of;
use crate::tables::name_of;
use crate::words::{array_of, byte_of, half_of, number_of, word_of};
use ls_board::{Counter, World};
use ls_bytes::{Bytes, Memory, Name};
use ls_credential::{Credential, Kind};
use ls_secret::Secret;
use ls_unsealing::{HeldParts, PartFiles, Protector, Purpose, seals, seals_token, shows_metrics};
use ls_weaver::Slot;
use std::alloc::Global;

/// Whether the secret of this version and text is sealed for a credential, by the protector with the
/// id 2, and its metrics are shown.
pub fn decided(alloc: Global, to: &mut Answer, args: &[Vec<u8>]) {
    match args {
        [kind, text, version, sp, parts @ ..] => {
            match secret_of(alloc, byte_of(to, version), sp) {
                Ok(secret) => for_credential(alloc, to, kind, text, &secret, parts),
                Err(fault) => to.fails(fault),
            }
        }
        _ => to.is_no_row(),
    }
}

fn for_credential(
    alloc: Global,
    to: &mut Answer,
    kind: &[u8],
    text: &[u8],
    secret: &Secret,
    parts: &[Vec<u8>],
) {
    match credential_in(alloc, kind, text) {
        Ok(credential) => with_parts(alloc, to, &credential, secret, parts),
        Err(fault) => to.fails(fault),
    }
}

fn with_parts(
    alloc: Global,
    to: &mut Answer,
    credential: &Credential,
    secret: &Secret,
    parts: &[Vec<u8>],
) {
    match held_of(alloc, to, parts) {
        Ok(held) => {
            decision(to, seals(alloc, 2, &held, credential, secret));
            decision(to, shows_metrics(alloc, &held, credential, secret));
        }
        Err(fault) => to.fails(fault),
    }
}

fn decision(to: &mut Answer, decided: Result<bool, Memory>) {
    match decided {
        Ok(fact) => to.fact(fact),
        Err(_) => to.lacks_memory(),
    }
}

/// Whether the first half of the secret of this version and text is sealed for a token, and the
/// second completes it.
pub fn token_decided(alloc: Global, to: &mut Answer, args: &[Vec<u8>]) {
    match args {
        [token, version, sp, p0, p1, parts @ ..] => {
            match secret_of(alloc, byte_of(to, version), sp) {
                Ok(secret) => match file_of(alloc, p1) {
                    Ok(p1) => for_token(alloc, to, token, &secret, p0, &p1, parts),
                    Err(_) => to.lacks_memory(),
                },
                Err(fault) => to.fails(fault),
            }
        }
        _ => to.is_no_row(),
    }
}

fn for_token(
    alloc: Global,
    to: &mut Answer,
    token: &[u8],
    secret: &Secret,
    p0: &[u8],
    p1: &Option<Bytes>,
    parts: &[Vec<u8>],
) {
    match held_of(alloc, to, parts) {
        Ok(held) => decision(to, seals_token(alloc, &held, p1, token, secret, p0)),
        Err(fault) => to.fails(fault),
    }
}

/// The credential of the kind with this name and of this text.
fn credential_in(alloc: Global, kind: &[u8], text: &[u8]) -> Result<Credential, RowFault> {
    match word_of(kind) {
        "pin" => credential_of(alloc, Kind::Pin, text),
        "password" => credential_of(alloc, Kind::Password, text),
        _ => Err(RowFault::Form),
    }
}

fn held_of(alloc: Global, to: &mut Answer, parts: &[Vec<u8>]) -> Result<HeldParts, RowFault> {
    match parts {
        [files @ .., slot, counter, device, key] => match files_of(alloc, files) {
            Ok(files) => Ok(held_with(to, files, slot, counter, device, key)),
            Err(fault) => Err(fault),
        },
        _ => Err(RowFault::Form),
    }
}

fn held_with(
    to: &mut Answer,
    files: PartFiles,
    slot: &[u8],
    counter: &[u8],
    device: &[u8],
    key: &[u8],
) -> HeldParts {
    let slot = held_slot_of(to, slot);
    HeldParts {
        weaver: slot.is_some(),
        files,
        slot,
        counter: counter_of(to, counter),
        device: array_of(to, device),
        key: Some(array_of(to, key)),
    }
}

fn files_of(alloc: Global, parts: &[Vec<u8>]) -> Result<PartFiles, RowFault> {
    let mut files = no_files();
    match put_files(alloc, &mut files, parts) {
        Ok(()) => Ok(files),
        Err(fault) => Err(fault),
    }
}

fn put_files(alloc: Global, to: &mut PartFiles, parts: &[Vec<u8>]) -> Result<(), RowFault> {
    match parts {
        [spblob, pwd, secdis, weaver, metrics] => {
            put_file(alloc, &mut to.spblob, spblob)?;
            put_file(alloc, &mut to.pwd, pwd)?;
            put_file(alloc, &mut to.secdis, secdis)?;
            put_file(alloc, &mut to.weaver, weaver)?;
            put_file(alloc, &mut to.metrics, metrics)
        }
        _ => Err(RowFault::Form),
    }
}

fn no_files() -> PartFiles {
    PartFiles {
        spblob: None,
        pwd: None,
        secdis: None,
        weaver: None,
        metrics: None,
    }
}

fn put_file(alloc: Global, to: &mut Option<Bytes>, bytes: &[u8]) -> Result<(), RowFault> {
    match file_of(alloc, bytes) {
        Ok(file) => {
            *to = file;
            Ok(())
        }
        Err(_) => Err(RowFault::Memory),
    }
}

fn file_of(alloc: Global, bytes: &[u8]) -> Result<Option<Bytes>, Memory> {
    if bytes.is_empty() {
        return Ok(None);
    }
    Ok(Some(Bytes::of(alloc, bytes)?))
}

/// The slot of these 36 bytes, with no rest; none where there are none.
fn held_slot_of(to: &mut Answer, bytes: &[u8]) -> Option<Slot> {
    if bytes.is_empty() {
        return None;
    }
    let bytes: [u8; 36] = array_of(to, bytes);
    Some(slot_of(to, &bytes[..16], &bytes[16..32], &bytes[32..]))
}

/// The counter of these 12 bytes; none where there are none.
fn counter_of(to: &mut Answer, bytes: &[u8]) -> Option<Counter> {
    if bytes.is_empty() {
        return None;
    }
    let bytes: [u8; 12] = array_of(to, bytes);
    Some(Counter {
        fails: half_of(to, &bytes[..4]),
        until: number_of(to, &bytes[4..]),
    })
}

/// What is held as the slot of a token's protector: how many slots the world has, the name and the
/// content of its one file, and the user and id of the protector.
pub fn slot(alloc: Global, to: &mut Answer, args: &[Vec<u8>]) {
    match args {
        [slots, name, content, user, id] => {
            let token = Protector {
                user: half_of(to, user),
                id: number_of(to, id),
                purpose: Purpose::Token,
            };
            match world_of(alloc, byte_of(to, slots), name, content) {
                Ok(world) => held_slot(alloc, to, &world, &token),
                Err(fault) => to.fails(fault),
            }
        }
        _ => to.is_no_row(),
    }
}

/// A world with so many slots and one file.
fn world_of(alloc: Global, slots: u8, name: &[u8], content: &[u8]) -> Result<World, RowFault> {
    let name = name_of(alloc, name)?;
    match world_with(alloc, slots, &name, content) {
        Ok(world) => Ok(world),
        Err(_) => Err(RowFault::Memory),
    }
}

fn world_with(alloc: Global, slots: u8, name: &Name, content: &[u8]) -> Result<World, Memory> {
    let mut world = World::blank(alloc, u32::from(slots))?;
    world.put_file(name, content)?;
    Ok(world)
}

fn held_slot(alloc: Global, to: &mut Answer, world: &World, token: &Protector) {
    if token.id == 0 {
        return to.is_no_row();
    }
    match HeldParts::of(alloc, world, token) {
        Ok(parts) => match &parts.slot {
            Some(slot) => said_of(to, slot),
            None => to.word("-"),
        },
        Err(_) => to.lacks_memory(),
    }
}

/// Its key, its value, its failures and until when it rests.
fn said_of(to: &mut Answer, slot: &Slot) {
    to.digits(&slot.key);
    to.digits(&slot.value);
    to.number(u64::from(slot.fails));
    to.number(slot.until);
}
