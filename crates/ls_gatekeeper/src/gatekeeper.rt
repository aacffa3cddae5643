//! The device: its key, and a counter for each id.
ghost use Rattle.std.specs.Prelude.{◌≡◌, ◌≤◌, ◌+◌, ◌↔◌, [], None, IfSome, IsSome, OnOk};
ghost use Rattle.std.specs.Ordering.{nat_cmp};
ghost use Rattle.std.specs.FinMap.Entries.{find, put};
ghost use Rattle.ls_board.specs.Order.{without};
ghost use Rattle.ls_board.specs.Gatekeeper.{signed, no_fails, sid_of, counter_of, verified, verify_answer};
ghost use Rattle.ls_gatekeeper.specs.Answers.{answer_of};

use crate::counter::{count, no_fails};
use crate::handle::{VERSION, is_signed, sid_of, signed};
use crate::verify::Verify;
use ls_board::{Counter, GkTable, IdTable};
use ls_bytes::Memory;
use std::alloc::Global;
use std::marker::Model;

/// The device that signs handles of passwords and checks them.
#[derive(Drop)]
pub struct Gatekeeper {
    key: [u8; 32],
    table: IdTable<Counter>,
}

impl Model for Gatekeeper {
    ghost use Rattle.ls_gatekeeper.specs.Device.{Device};

    ghost Value = { Device };

    ghost view = { λ g. record { key = g.key; records = g.table.rows; spare = g.table.spare } };
}

impl Gatekeeper {
    /// A device with this key and no records.
    pub fn new(alloc: Global, key: [u8; 32]) -> Gatekeeper
        ensures key { result.key ≡ key }
        ensures empty { result.records ≡ [] }
    {
        Gatekeeper {
            key,
            table: IdTable::new(alloc),
        }
    }

    /// A device with this key and these records.
    pub fn of(key: [u8; 32], records: GkTable) -> Gatekeeper
        ensures key { result.key ≡ key }
        ensures records { result.records ≡ records }
    {
        Gatekeeper {
            key,
            table: records.into_table(),
        }
    }

    /// The key under which it signs.
    pub fn key(&self) -> [u8; 32]
        ensures same { result ≡ self.now.key }
    {
        self.key
    }

    /// The records, to look at.
    pub fn records(&self) -> &IdTable<Counter>
        ensures same { result.now.rows ≡ self.now.records }
    {
        &self.table
    }

    /// The handle of a password for this id and salt: 49 bytes.
    pub fn sign(&self, sid: u64, salt: u64, password: &[u8]) -> [u8; 49]
        ensures handle { result ≡ signed self.now.key sid salt password.now }
    {
        signed(&self.key, sid, salt, password)
    }

    /// Makes room for at least so many ids more, and changes nothing else. No other call takes
    /// memory.
    pub fn reserve(&mut self, n: u32) -> Result<(), Memory>
        ensures key { self.new.key ≡ self.old.key }
        ensures records { self.new.records ≡ self.old.records }
        ensures spare { self.old.spare ≤ self.new.spare }
        ensures room { OnOk result (n ≤ self.new.spare) }
    {
        self.table.reserve(n)
    }

    /// Makes a record for this id, without failures, also where it has one. It takes one spare
    /// place at most.
    pub fn enroll(&mut self, sid: u64)
        requires place { 1 ≤ self.old.spare }
        ensures key { self.new.key ≡ self.old.key }
        ensures records { self.new.records ≡ put nat_cmp sid no_fails self.old.records }
        ensures spare { self.old.spare ≤ self.new.spare + 1 }
    {
        self.table.put(sid, no_fails());
    }

    /// The counter of the id in a handle, where the handle is of the known version.
    fn counter_of(&self, handle: &[u8; 49]) -> Option<Counter>
        ensures found { result ≡ counter_of self.now.records handle.now }
        ensures there { IfSome result
            (λ c. IsSome (find nat_cmp (sid_of handle.now) self.now.records)) }
    {
        if handle[0] != VERSION {
            return None;
        }
        self.table.find(sid_of(handle))
    }

    /// What a check would answer, at this moment in milliseconds. It counts nothing.
    pub fn answer(&self, handle: &[u8; 49], password: &[u8], moment: u64) -> Verify
        ensures answer { answer_of result
            ≡ verify_answer self.now.key self.now.records handle.now password.now moment }
    {
        let Some(mut counter) = self.counter_of(handle) else {
            return Verify::Unknown;
        };
        let sid = sid_of(handle);
        count(
            &mut counter,
            sid,
            is_signed(&self.key, handle, password),
            moment,
        )
    }

    /// Checks a handle and a password, at this moment in milliseconds.
    pub fn verify(&mut self, handle: &[u8; 49], password: &[u8], moment: u64) -> Verify
        ensures answer { answer_of result
            ≡ verify_answer self.old.key self.old.records handle.now password.now moment }
        ensures records { self.new.records
            ≡ verified self.old.key self.old.records handle.now password.now moment }
        ensures unknown { (result ≡ Verify.Unknown)
            ↔ (counter_of self.old.records handle.now ≡ None) }
        ensures key { self.new.key ≡ self.old.key }
        ensures spare { self.new.spare ≡ self.old.spare }
    {
        let Some(mut counter) = self.counter_of(handle) else {
            return Verify::Unknown;
        };
        let sid = sid_of(handle);
        let answer = count(
            &mut counter,
            sid,
            is_signed(&self.key, handle, password),
            moment,
        );
        self.table.set(sid, counter);
        answer
    }

    /// Takes the record of this id away, if there is one.
    pub fn forget(&mut self, sid: u64)
        ensures key { self.new.key ≡ self.old.key }
        ensures records { self.new.records ≡ without nat_cmp sid self.old.records }
        ensures spare { self.old.spare ≤ self.new.spare }
    {
        self.table.remove(sid);
    }
}
