//! What the Gatekeeper and the key store keep.
ghost use Rattle.std.specs.Prelude.{◌≡◌, ◌++◌, ◌∷◌, [], length, slice_get, None, Some, MatchOption, IfOk, OnOk, OnErr};
ghost use Rattle.std.specs.Ordering.{nat_cmp};
ghost use Rattle.ls_board.specs.Order.{IsSorted, IsTable};

use crate::ids::IdTable;
use ls_bytes::Memory;
use std::alloc::Global;
use std::marker::Model;

/// Failures in a row.
#[derive(Clone, Copy, Debug, PartialEq, Eq)]
pub struct Counter {
    /// How many, at most `u32::MAX`.
    pub fails: u32,
    /// The moment, in milliseconds, until which it rests.
    pub until: u64,
}

/// The Gatekeeper's record of an id.
#[derive(Clone, Copy, Debug, PartialEq, Eq)]
pub struct GkRow {
    pub sid: u64,
    /// Failures in a row, at most `u32::MAX`.
    pub fails: u32,
    /// The moment, in milliseconds, until which the id rests.
    pub until: u64,
}

/// The key of an alias.
#[derive(Clone, Copy, Debug, PartialEq, Eq)]
pub struct KeyRow {
    pub alias: u64,
    pub key: [u8; 32],
}

/// The records of the Gatekeeper, in the ascending order of their ids.
#[derive(Drop)]
pub struct GkTable {
    table: IdTable<Counter>,
}

impl Model for GkTable {
    ghost use Rattle.std.specs.Prelude.{List, ℕ};
    ghost use Rattle.ls_board.specs.declared.devices.Counter.{Counter};

    ghost Value = { List (ℕ × Counter) };

    ghost view = { λ t. t.table.rows };
}

impl GkTable {
    ghost use Rattle.ls_board.specs.Gatekeeper.{record_at};

    /// No record.
    pub fn new(alloc: Global) -> GkTable
        ensures empty { result ≡ [] }
    {
        GkTable {
            table: IdTable::new(alloc),
        }
    }

    /// The records of a table, without its spare places.
    pub fn of(table: IdTable<Counter>) -> GkTable
        ensures same { result ≡ table.rows }
    {
        GkTable { table }
    }

    /// The records as a table that can have spare places.
    pub fn into_table(self) -> IdTable<Counter>
        ensures same { result.rows ≡ self }
    {
        self.table
    }

    /// How many records there are.
    pub fn len(&self) -> u32
        ensures count { result ≡ length self.now }
        ensures table { IsTable nat_cmp self.now }
    {
        self.table.len()
    }

    /// The record at this place, if there is one.
    pub fn get(&self, at: u32) -> Option<GkRow>
        ensures found { MatchOption result (slice_get self.now at ≡ None)
            (λ r. slice_get self.now at
            ≡ Some (r.sid, record { fails = r.fails; until = r.until })) }
    {
        match self.table.get(at) {
            Some(row) => Some(GkRow {
                sid: row.0,
                fails: row.1.fails,
                until: row.1.until,
            }),
            None => None,
        }
    }

    /// The failures of this id, if it has a record.
    pub fn find(&self, sid: u64) -> Option<Counter>
        ensures found { result ≡ record_at self.now sid }
    {
        self.table.find(sid)
    }

    /// Adds a record at the end.
    pub fn push(&mut self, row: GkRow) -> Result<(), Memory>
        requires ascending { IsSorted nat_cmp
            (self.old ++ (row.sid, record { fails = row.fails; until = row.until }) ∷ []) }
        ensures pushed { OnOk result (self.new
            ≡ self.old ++ (row.sid, record { fails = row.fails; until = row.until }) ∷ []) }
        ensures kept { OnErr result (self.new ≡ self.old) }
    {
        let counter = Counter {
            fails: row.fails,
            until: row.until,
        };
        self.table.push(row.sid, counter)
    }

    /// The same records again.
    pub fn copy(&self, alloc: Global) -> Result<GkTable, Memory>
        ensures same { IfOk result (λ t. t ≡ self.now) }
    {
        Ok(GkTable {
            table: self.table.copy(alloc)?,
        })
    }
}

/// The keys of the key store, in the ascending order of their aliases.
#[derive(Drop)]
pub struct KeyTable {
    table: IdTable<[u8; 32]>,
}

impl Model for KeyTable {
    ghost use Rattle.std.specs.Prelude.{List, ℕ};

    ghost Value = { List (ℕ × List ℕ) };

    ghost view = { λ t. t.table.rows };
}

impl KeyTable {
    ghost use Rattle.ls_board.specs.Keys.{key_at};

    /// No key.
    pub fn new(alloc: Global) -> KeyTable
        ensures empty { result ≡ [] }
    {
        KeyTable {
            table: IdTable::new(alloc),
        }
    }

    /// The keys of a table, without its spare places.
    pub fn of(table: IdTable<[u8; 32]>) -> KeyTable
        ensures same { result ≡ table.rows }
    {
        KeyTable { table }
    }

    /// The keys as a table that can have spare places.
    pub fn into_table(self) -> IdTable<[u8; 32]>
        ensures same { result.rows ≡ self }
    {
        self.table
    }

    /// How many keys there are.
    pub fn len(&self) -> u32
        ensures count { result ≡ length self.now }
        ensures table { IsTable nat_cmp self.now }
    {
        self.table.len()
    }

    /// The row at this place, if there is one.
    pub fn get(&self, at: u32) -> Option<KeyRow>
        ensures found { MatchOption result (slice_get self.now at ≡ None)
            (λ r. slice_get self.now at ≡ Some (r.alias, r.key)) }
    {
        match self.table.get(at) {
            Some(row) => Some(KeyRow {
                alias: row.0,
                key: row.1,
            }),
            None => None,
        }
    }

    /// The key of this alias, if it has one.
    pub fn find(&self, alias: u64) -> Option<[u8; 32]>
        ensures found { result ≡ key_at self.now alias }
    {
        self.table.find(alias)
    }

    /// Adds a key at the end.
    pub fn push(&mut self, row: KeyRow) -> Result<(), Memory>
        requires ascending { IsSorted nat_cmp (self.old ++ (row.alias, row.key) ∷ []) }
        ensures pushed { OnOk result (self.new ≡ self.old ++ (row.alias, row.key) ∷ []) }
        ensures kept { OnErr result (self.new ≡ self.old) }
    {
        self.table.push(row.alias, row.key)
    }

    /// The same keys again.
    pub fn copy(&self, alloc: Global) -> Result<KeyTable, Memory>
        ensures same { IfOk result (λ t. t ≡ self.now) }
    {
        Ok(KeyTable {
            table: self.table.copy(alloc)?,
        })
    }
}
