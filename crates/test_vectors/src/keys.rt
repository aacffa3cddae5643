//! Keys by their aliases, and the cell for one key.

use crate::answer::Answer;
use crate::words::{array_of, number_of, word_of};
use ls_board::KeyTable;
use ls_bytes::Memory;
use ls_keys::{KeyFault, KeyStore, ResumeCell};
use std::alloc::Global;

/// A store without keys.
pub fn store(alloc: Global, to: &mut Answer, args: &[Vec<u8>]) {
    let mut store = KeyStore::new(alloc);
    for ask in args.chunks(3) {
        ask_store(alloc, to, &mut store, ask);
    }
}

/// `put` has an alias and a key, `open` an alias and a sealed text, `drop` an alias; with `copy` the
/// store goes on as one with a copy of the keys.
fn ask_store(alloc: Global, to: &mut Answer, store: &mut KeyStore, ask: &[Vec<u8>]) {
    match ask {
        [name, alias, bytes] => match word_of(name) {
            "open" => opened(alloc, to, store, alias, bytes),
            "put" => put(to, store, alias, bytes),
            "drop" => store.drop_key(number_of(to, alias)),
            "copy" => to.done(copy(alloc, store)),
            _ => to.is_no_row(),
        },
        _ => to.is_no_row(),
    }
}

fn opened(alloc: Global, to: &mut Answer, store: &KeyStore, alias: &[u8], sealed: &[u8]) {
    match store.open(alloc, number_of(to, alias), sealed) {
        Ok(text) => to.digits(text.as_slice()),
        Err(KeyFault::NoKey) => to.word("no-key"),
        Err(KeyFault::Tag) => to.word("tag"),
        Err(KeyFault::Memory) => to.lacks_memory(),
    }
}

fn put(to: &mut Answer, store: &mut KeyStore, alias: &[u8], key: &[u8]) {
    let alias = number_of(to, alias);
    let key = array_of(to, key);
    match store.reserve(1) {
        Ok(()) => store.put(alias, &key),
        Err(_) => to.lacks_memory(),
    }
}

fn copy(alloc: Global, store: &mut KeyStore) -> Result<(), Memory> {
    *store = KeyStore::of(KeyTable::of(store.keys().copy(alloc)?));
    Ok(())
}

/// A cell with this key or none.
pub fn cell(to: &mut Answer, args: &[Vec<u8>]) {
    match args {
        [key, asks @ ..] => {
            let mut cell = cell_of(to, key);
            for ask in asks.chunks(3) {
                ask_cell(to, &mut cell, ask);
            }
        }
        _ => to.is_no_row(),
    }
}

fn cell_of(to: &mut Answer, key: &[u8]) -> ResumeCell {
    match key {
        [] => ResumeCell::new(),
        key => ResumeCell::of(Some(array_of(to, key))),
    }
}

fn ask_cell(to: &mut Answer, cell: &mut ResumeCell, ask: &[Vec<u8>]) {
    match ask {
        [name, key, _] => match word_of(name) {
            "get" => seen(to, cell.get()),
            "take" => seen(to, cell.take()),
            "store" => cell.store(&array_of(to, key)),
            _ => to.is_no_row(),
        },
        _ => to.is_no_row(),
    }
}

fn seen(to: &mut Answer, key: Option<[u8; 32]>) {
    match key {
        Some(key) => to.digits(&key),
        None => to.word("-"),
    }
}
