//! Keys by their aliases.
ghost use Rattle.std.specs.Prelude.{◌≡◌, ◌≤◌, ◌+◌, ◌↔◌, [], None, Some, Err, IfOk, OnOk, IsSomeAnd};
ghost use Rattle.std.specs.Ordering.{nat_cmp};
ghost use Rattle.std.specs.FinMap.Entries.{put};
ghost use Rattle.ls_gcm.specs.Gcm.{gcm_open};
ghost use Rattle.ls_board.specs.Order.{without};
ghost use Rattle.ls_board.specs.Keys.{key_at};
ghost use Rattle.ls_keys.specs.Opening.{IsAnswered};

use crate::fault::KeyFault;
use ls_board::{IdTable, KeyTable};
use ls_bytes::{Bytes, Memory};
use ls_gcm::OpenFault;
use std::alloc::Global;
use std::marker::Model;

/// Keys by their aliases, which open what was sealed with them.
#[derive(Drop)]
pub struct KeyStore {
    table: IdTable<[u8; 32]>,
}

impl Model for KeyStore {
    ghost use Rattle.ls_keys.specs.Store.{Store};

    ghost Value = { Store };

    ghost view = { λ s. record { keys = s.table.rows; spare = s.table.spare } };
}

impl KeyStore {
    /// No key.
    pub fn new(alloc: Global) -> KeyStore
        ensures empty { result.keys ≡ [] }
    {
        KeyStore {
            table: IdTable::new(alloc),
        }
    }

    /// A store of these keys.
    pub fn of(keys: KeyTable) -> KeyStore
        ensures keys { result.keys ≡ keys }
    {
        KeyStore {
            table: keys.into_table(),
        }
    }

    /// The keys, to look at.
    pub fn keys(&self) -> &IdTable<[u8; 32]>
        ensures same { result.now.rows ≡ self.now.keys }
    {
        &self.table
    }

    /// Makes room for at least so many aliases more, and changes nothing else.
    pub fn reserve(&mut self, n: u32) -> Result<(), Memory>
        ensures keys { self.new.keys ≡ self.old.keys }
        ensures spare { self.old.spare ≤ self.new.spare }
        ensures room { OnOk result (n ≤ self.new.spare) }
    {
        self.table.reserve(n)
    }

    /// Gives an alias this key, in the place of an earlier one. It takes one spare place at most,
    /// and no memory.
    pub fn put(&mut self, alias: u64, key: &[u8; 32])
        requires place { 1 ≤ self.old.spare }
        ensures keys { self.new.keys ≡ put nat_cmp alias key.now self.old.keys }
        ensures spare { self.old.spare ≤ self.new.spare + 1 }
    {
        self.table.put(alias, *key);
    }

    /// Opens a sealed text with the key of this alias.
    pub fn open(&self, alloc: Global, alias: u64, sealed: &[u8]) -> Result<Bytes, KeyFault>
        ensures answered { IsAnswered self.now.keys alias sealed.now result }
        ensures no_key { (result ≡ Err KeyFault.NoKey) ↔ (key_at self.now.keys alias ≡ None) }
        ensures tag { (result ≡ Err KeyFault.Tag)
            ↔ IsSomeAnd (key_at self.now.keys alias) (λ key. gcm_open key sealed.now ≡ None) }
    {
        let Some(key) = self.table.find(alias) else {
            return Err(KeyFault::NoKey);
        };
        match ls_gcm::open(alloc, &key, sealed) {
            Ok(text) => Ok(text),
            Err(OpenFault::Memory) => Err(KeyFault::Memory),
            Err(_) => Err(KeyFault::Tag),
        }
    }

    /// Takes the key of this alias away, if it has one.
    pub fn drop_key(&mut self, alias: u64)
        ensures keys { self.new.keys ≡ without nat_cmp alias self.old.keys }
        ensures spare { self.old.spare ≤ self.new.spare }
    {
        self.table.remove(alias);
    }
}
