//! Handles of passwords, and the device that checks them.

use crate::answer::Answer;
use crate::words::{array_of, byte_of, number_of, word_of};
use ls_board::GkTable;
use ls_bytes::Memory;
use ls_gatekeeper::{Gatekeeper, Verify};
use std::alloc::Global;

/// The handle of a password for this id and salt: key, id, salt, password.
pub fn signed(alloc: Global, to: &mut Answer, args: &[Vec<u8>]) {
    match args {
        [key, sid, salt, password] => {
            let device = Gatekeeper::new(alloc, array_of(to, key));
            let (sid, salt) = (number_of(to, sid), number_of(to, salt));
            to.digits(&device.sign(sid, salt, password));
        }
        _ => to.is_no_row(),
    }
}

/// A device with this key and no records, and a handle of zeros.
pub fn gatekeeper(alloc: Global, to: &mut Answer, args: &[Vec<u8>]) {
    match args {
        [key, asks @ ..] => {
            let mut device = Gatekeeper::new(alloc, array_of(to, key));
            let mut handle = [0; 49];
            for ask in asks.chunks(3) {
                asked(alloc, to, &mut device, &mut handle, ask);
            }
        }
        _ => to.is_no_row(),
    }
}

/// `sign` makes the handle, for an id and a password with the salt 3, and `turn` turns bits of a byte
/// of it over; `verify` has a password and a moment.
fn asked(
    alloc: Global,
    to: &mut Answer,
    device: &mut Gatekeeper,
    handle: &mut [u8; 49],
    ask: &[Vec<u8>],
) {
    match ask {
        [name, one, other] => match word_of(name) {
            "verify" => {
                let moment = number_of(to, other);
                verified(to, device.verify(handle, one, moment));
            }
            "enroll" => {
                let sid = number_of(to, one);
                to.done(enroll(device, sid));
            }
            "forget" => device.forget(number_of(to, one)),
            "sign" => *handle = device.sign(number_of(to, one), 3, other),
            "turn" => turn(to, handle, one, other),
            "copy" => to.done(copy(alloc, device)),
            _ => to.is_no_row(),
        },
        _ => to.is_no_row(),
    }
}

fn enroll(device: &mut Gatekeeper, sid: u64) -> Result<(), Memory> {
    device.reserve(1)?;
    device.enroll(sid);
    Ok(())
}

/// The device goes on as one with the same key and a copy of the records.
fn copy(alloc: Global, device: &mut Gatekeeper) -> Result<(), Memory> {
    let records = GkTable::of(device.records().copy(alloc)?);
    *device = Gatekeeper::of(device.key(), records);
    Ok(())
}

fn turn(to: &mut Answer, handle: &mut [u8; 49], at: &[u8], bits: &[u8]) {
    let (at, bits) = (byte_of(to, at), byte_of(to, bits));
    match handle.get_mut(usize::from(at)) {
        Some(byte) => *byte ^= bits,
        None => to.is_no_row(),
    }
}

fn verified(to: &mut Answer, answer: Verify) {
    match answer {
        Verify::Accepted(sid) => to.joined("accepted", sid),
        Verify::Wrong(rest) => to.joined("wrong", rest),
        Verify::Throttled(rest) => to.joined("throttled", rest),
        Verify::Unknown => to.word("unknown"),
    }
}
