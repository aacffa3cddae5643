//! The throttle, and slots.

use crate::answer::Answer;
use crate::words::{array_of, half_of, number_of, word_of};
use ls_weaver::{Slot, SlotRead, Weaver, timeout};
use std::alloc::Global;

/// The rest after so many failures, in milliseconds.
pub fn rest(to: &mut Answer, args: &[Vec<u8>]) {
    match args {
        [fails] => {
            let fails = half_of(to, fails);
            to.number(timeout(fails));
        }
        _ => to.is_no_row(),
    }
}

/// A slot with this key, value and failures, which doesn't rest.
pub fn slot(to: &mut Answer, args: &[Vec<u8>]) {
    match args {
        [key, value, fails, asks @ ..] => {
            let mut slot = slot_of(to, key, value, fails);
            for ask in asks.chunks(3) {
                ask_slot(to, &mut slot, ask);
            }
        }
        _ => to.is_no_row(),
    }
}

/// A slot that doesn't rest.
pub fn slot_of(to: &mut Answer, key: &[u8], value: &[u8], fails: &[u8]) -> Slot {
    Slot {
        key: array_of(to, key),
        value: array_of(to, value),
        fails: half_of(to, fails),
        until: 0,
    }
}

fn ask_slot(to: &mut Answer, slot: &mut Slot, ask: &[Vec<u8>]) {
    match ask {
        [name, key, moment] => match word_of(name) {
            "read" => {
                let (key, moment) = (array_of(to, key), number_of(to, moment));
                seen(to, slot.read(&key, moment));
            }
            "until" => to.number(slot.until),
            _ => to.is_no_row(),
        },
        _ => to.is_no_row(),
    }
}

fn seen(to: &mut Answer, read: SlotRead) {
    match read {
        SlotRead::Value(value) => to.digits(&value),
        SlotRead::Wrong(rest) => to.joined("wrong", rest),
        SlotRead::Throttled(rest) => to.joined("throttled", rest),
    }
}

/// So many slots, at most 256, each blank at first.
pub fn weaver(alloc: Global, to: &mut Answer, args: &[Vec<u8>]) {
    match args {
        [len, asks @ ..] => match Weaver::new(alloc, half_of(to, len)) {
            Ok(mut weaver) => {
                for ask in asks.chunks(3) {
                    ask_weaver(alloc, to, &mut weaver, ask);
                }
            }
            Err(_) => to.lacks_memory(),
        },
        _ => to.is_no_row(),
    }
}

/// `write` has a slot, and a key with the value behind it; `read` has a slot and a key, at moment 0.
fn ask_weaver(alloc: Global, to: &mut Answer, weaver: &mut Weaver, ask: &[Vec<u8>]) {
    match ask {
        [name, slot, bytes] => match word_of(name) {
            "write" => write(to, weaver, slot, bytes),
            "read" => read(to, weaver, slot, bytes),
            "push" => to.done(weaver.push(Slot::blank())),
            "copied-len" => copied_len(alloc, to, weaver),
            _ => to.is_no_row(),
        },
        _ => to.is_no_row(),
    }
}

fn copied_len(alloc: Global, to: &mut Answer, weaver: &Weaver) {
    match weaver.copy(alloc) {
        Ok(copy) => to.number(u64::from(copy.len())),
        Err(_) => to.lacks_memory(),
    }
}

fn write(to: &mut Answer, weaver: &mut Weaver, slot: &[u8], bytes: &[u8]) {
    let slot = half_of(to, slot);
    let bytes: [u8; 32] = array_of(to, bytes);
    if slot < weaver.len() {
        let (key, value) = (array_of(to, &bytes[..16]), array_of(to, &bytes[16..]));
        weaver.write(slot, &key, &value);
    } else {
        to.is_no_row();
    }
}

fn read(to: &mut Answer, weaver: &mut Weaver, slot: &[u8], key: &[u8]) {
    let (slot, key) = (half_of(to, slot), array_of(to, key));
    if slot < weaver.len() {
        seen(to, weaver.read(slot, &key, 0));
    } else {
        to.is_no_row();
    }
}
