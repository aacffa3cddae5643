//! AES-256 and GCM.

use crate::answer::Answer;
use crate::words::{array_of, half_of};
use ls_bytes::Bytes;
use ls_gcm::{Aes256, HTable, OpenFault, open, seal, times_h};
use sha2::{Digest, Sha256};
use std::alloc::{AllocError, Global};

pub fn encrypted(to: &mut Answer, args: &[Vec<u8>]) {
    match args {
        [key, block] => {
            let cipher = Aes256::new(&array_of(to, key));
            let block = array_of(to, block);
            to.digits(&cipher.encrypt_block(&block));
        }
        _ => to.is_no_row(),
    }
}

pub fn multiplied(to: &mut Answer, args: &[Vec<u8>]) {
    match args {
        [h, block] => {
            let table = HTable::of(&array_of(to, h));
            let block = array_of(to, block);
            to.digits(&times_h(&table, &block));
        }
        _ => to.is_no_row(),
    }
}

pub fn sealed(alloc: Global, to: &mut Answer, args: &[Vec<u8>]) {
    match args {
        [key, iv, plain] if plain.len() <= 1 << 24 => {
            let (key, iv) = (array_of(to, key), array_of(to, iv));
            to.bytes(seal(alloc, &key, &iv, plain));
        }
        _ => to.is_no_row(),
    }
}

/// The digest of what bytes 0, 7, 14 and so on, modulo 256, are sealed to.
pub fn sealed_sevens(alloc: Global, to: &mut Answer, args: &[Vec<u8>]) {
    match args {
        [key, iv, len] => {
            let (key, iv) = (array_of(to, key), array_of(to, iv));
            match sevens(alloc, half_of(to, len)) {
                Ok(plain) => sealed_digest(alloc, to, &key, &iv, &plain),
                Err(_) => to.lacks_memory(),
            }
        }
        _ => to.is_no_row(),
    }
}

fn sealed_digest(alloc: Global, to: &mut Answer, key: &[u8; 32], iv: &[u8; 12], plain: &[u8]) {
    if plain.len() > 1 << 24 {
        return to.is_no_row();
    }
    match seal(alloc, key, iv, plain) {
        Ok(sealed) => to.digits(&Sha256::digest(sealed.as_slice())),
        Err(_) => to.lacks_memory(),
    }
}

fn sevens(alloc: Global, len: u32) -> Result<Vec<u8>, AllocError> {
    let mut bytes = Vec::new(alloc);
    let mut next: u8 = 0;
    for _ in 0..len {
        bytes.push(next)?;
        next = next.wrapping_add(7);
    }
    Ok(bytes)
}

pub fn opened(alloc: Global, to: &mut Answer, args: &[Vec<u8>]) {
    match args {
        [key, sealed] => {
            let key = array_of(to, key);
            opening(to, open(alloc, &key, sealed));
        }
        _ => to.is_no_row(),
    }
}

/// The opened text, or why it isn't opened.
pub fn opening(to: &mut Answer, opened: Result<Bytes, OpenFault>) {
    match opened {
        Ok(plain) => to.digits(plain.as_slice()),
        Err(fault) => no_opening(to, fault),
    }
}

/// Why a text isn't opened.
pub fn no_opening(to: &mut Answer, fault: OpenFault) {
    match fault {
        OpenFault::Short => to.word("short"),
        OpenFault::Tag => to.word("tag"),
        OpenFault::Memory => to.lacks_memory(),
    }
}
