//! Secrets, their subkeys, and sealed halves.

use crate::answer::{Answer, RowFault};
use crate::ciphers::no_opening;
use crate::words::{array_of, byte_of};
use ls_bytes::Memory;
use ls_secret::{Derived, Secret, SecretFault};
use std::alloc::Global;

/// The version and the text of the secret that is made of two halves.
pub fn created(alloc: Global, to: &mut Answer, args: &[Vec<u8>]) {
    match args {
        [p0, p1] => match of_halves(alloc, to, p0, p1) {
            Ok(secret) => written(to, &secret),
            Err(_) => to.lacks_memory(),
        },
        _ => to.is_no_row(),
    }
}

/// The new secret of two halves.
pub fn of_halves(alloc: Global, to: &mut Answer, p0: &[u8], p1: &[u8]) -> Result<Secret, Memory> {
    let (p0, p1) = (array_of(to, p0), array_of(to, p1));
    Secret::create(alloc, &p0, &p1)
}

fn written(to: &mut Answer, secret: &Secret) {
    to.number(u64::from(secret.version()));
    to.text(secret.sp_text());
}

/// The version and the text of the secret of this version that is made of two halves.
pub fn joined(alloc: Global, to: &mut Answer, args: &[Vec<u8>]) {
    match args {
        [version, p0, p1] => {
            let version = byte_of(to, version);
            if version != 2 && version != 3 {
                return to.is_no_row();
            }
            match Secret::of_halves(alloc, version, p0, p1) {
                Ok(secret) => written(to, &secret),
                Err(_) => to.lacks_memory(),
            }
        }
        _ => to.is_no_row(),
    }
}

/// The four keys of a secret of this version and text, or why there is none.
pub fn subkeys(alloc: Global, to: &mut Answer, args: &[Vec<u8>]) {
    match args {
        [version, sp] => match Secret::of(alloc, byte_of(to, version), sp) {
            Ok(secret) => keys(to, &secret.derived()),
            Err(fault) => no_secret(to, fault),
        },
        _ => to.is_no_row(),
    }
}

fn keys(to: &mut Answer, derived: &Derived) {
    to.digits(derived.keystore.as_slice());
    to.digits(derived.fbe.as_slice());
    to.digits(derived.auth.as_slice());
    to.digits(derived.gk.as_slice());
}

fn no_secret(to: &mut Answer, fault: SecretFault) {
    match fault {
        SecretFault::Version => to.word("version"),
        SecretFault::Shape => to.word("shape"),
        SecretFault::Memory => to.lacks_memory(),
    }
}

/// The secret of this version and text.
pub fn secret_of(alloc: Global, version: u8, sp: &[u8]) -> Result<Secret, RowFault> {
    match Secret::of(alloc, version, sp) {
        Ok(secret) => Ok(secret),
        Err(SecretFault::Memory) => Err(RowFault::Memory),
        Err(_) => Err(RowFault::Form),
    }
}

pub fn sealed_half(alloc: Global, to: &mut Answer, args: &[Vec<u8>]) {
    match args {
        [sp, p0, iv] => match Secret::from_sp(alloc, sp) {
            Ok(secret) => {
                let (p0, iv) = (array_of(to, p0), array_of(to, iv));
                to.bytes(secret.e0(alloc, &p0, &iv));
            }
            Err(fault) => no_secret(to, fault),
        },
        _ => to.is_no_row(),
    }
}

pub fn opened_half(alloc: Global, to: &mut Answer, args: &[Vec<u8>]) {
    match args {
        [sp, e0] => match Secret::from_sp(alloc, sp) {
            Ok(secret) => opened_with(alloc, to, &secret, e0),
            Err(fault) => no_secret(to, fault),
        },
        _ => to.is_no_row(),
    }
}

fn opened_with(alloc: Global, to: &mut Answer, secret: &Secret, e0: &[u8]) {
    if e0.len() != 60 {
        return to.fails(RowFault::Length);
    }
    match secret.open_e0(alloc, e0) {
        Ok(p0) => to.digits(&p0),
        Err(fault) => no_opening(to, fault),
    }
}
