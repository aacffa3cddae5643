//! Texts that are sealed under a personalisation, and blobs.

use crate::answer::Answer;
use crate::ciphers::opening;
use crate::words::array_of;
use ls_blob::{BlobFault, BlobKind, SpBlob, open_under, seal_under};
use std::alloc::Global;

pub fn sealed(alloc: Global, to: &mut Answer, args: &[Vec<u8>]) {
    match args {
        [key, personal, iv, plain] if personal.len() <= 128 && plain.len() <= 1 << 24 => {
            let iv = array_of(to, iv);
            to.bytes(seal_under(alloc, key, personal, &iv, plain));
        }
        _ => to.is_no_row(),
    }
}

pub fn opened(alloc: Global, to: &mut Answer, args: &[Vec<u8>]) {
    match args {
        [key, personal, sealed] if personal.len() <= 128 => {
            opening(to, open_under(alloc, key, personal, sealed));
        }
        _ => to.is_no_row(),
    }
}

/// The version and the kind of a blob, and its bytes as they are printed; or its first fault.
pub fn parsed(alloc: Global, to: &mut Answer, args: &[Vec<u8>]) {
    match args {
        [bytes] => match SpBlob::parse(alloc, bytes) {
            Ok(blob) => printed(alloc, to, &blob),
            Err(fault) => fault_of(to, fault),
        },
        _ => to.is_no_row(),
    }
}

fn printed(alloc: Global, to: &mut Answer, blob: &SpBlob) {
    to.number(u64::from(blob.version));
    to.word(match blob.kind {
        BlobKind::Credential => "credential",
        BlobKind::StrongToken => "token",
    });
    to.bytes(blob.print(alloc));
}

fn fault_of(to: &mut Answer, fault: BlobFault) {
    let (word, number) = match fault {
        BlobFault::Short { at } => ("short", u64::from(at)),
        BlobFault::Version(version) => ("version", u64::from(version)),
        BlobFault::Kind(kind) => ("kind", u64::from(kind)),
        BlobFault::Extra { at } => ("extra", u64::from(at)),
        BlobFault::Memory => return to.lacks_memory(),
    };
    to.word(word);
    to.number(number);
}
