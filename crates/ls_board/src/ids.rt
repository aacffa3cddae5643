//! Values by their numbers, in a table that can have spare places.
ghost use Rattle.std.specs.Prelude.{◌≡◌, ◌≤◌, ◌<◌, ◌+◌, ◌++◌, ◌∷◌, [], length, slice_get, IfOk, OnOk, OnErr, IsSome};
ghost use Rattle.std.specs.Option.{option_copied};
ghost use Rattle.std.specs.Ordering.{nat_cmp};
ghost use Rattle.std.specs.FinMap.Entries.{find, put};
ghost use Rattle.ls_board.specs.Order.{without, IsSorted, IsTable};

use crate::rows::{Ranked, copied_rows, is_there, place, push_row, put_row};
use ls_bytes::Memory;
use std::alloc::Global;
use std::cmp::Ordering;
use std::marker::Model;

impl<V: Copy> Ranked for (u64, V) {
    ghost ranking = { λ r s. nat_cmp r.0 s.0 };

    fn rank(&self, other: &(u64, V)) -> Ordering {
        self.0.cmp(&other.0)
    }

    fn copy(&self, _alloc: Global) -> Result<(u64, V), Memory> {
        Ok(*self)
    }
}

/// Values by their numbers, in the ascending order of these, and spare places for more.
#[derive(Drop)]
pub struct IdTable<V> {
    rows: Vec<(u64, V)>,
}

/// The most rows that there may be.
const MOST_ROWS: usize = u32::MAX as usize;

impl<V> Model for IdTable<V> {
    ghost use Rattle.std.specs.Prelude.{◌-◌, ◌^◌, min};
    ghost use Rattle.std.specs.Vec.{vec_len, vec_capacity};
    ghost use Rattle.std.specs.Ordering.{nat_cmp};
    ghost use Rattle.ls_board.specs.Order.{IsTable};
    ghost use Rattle.ls_board.specs.Places.{Places};

    ghost Value = { Places V };

    ghost view = { λ t. record {
      rows = t.rows.items;
      spare = min (vec_capacity t.rows) (2 ^ 32 - 1) - vec_len t.rows;
    } };

    ghost invariant = { λ t. IsTable nat_cmp t.rows.items };
}

impl<V: Copy + Drop> IdTable<V> {
    /// No row.
    pub fn new(alloc: Global) -> IdTable<V>
        ensures empty { result.rows ≡ [] }
    {
        IdTable {
            rows: Vec::new(alloc),
        }
    }

    /// How many rows there are.
    pub fn len(&self) -> u32
        ensures count { result ≡ length self.now.rows }
        ensures table { IsTable nat_cmp self.now.rows }
    {
        self.rows.len() as u32
    }

    /// The row at this place, if there is one.
    pub fn get(&self, at: u32) -> Option<&(u64, V)>
        ensures found { option_copied result ≡ slice_get self.now.rows at }
    {
        self.rows.get(at as usize)
    }

    /// The value of this number, if it has one.
    pub fn find(&self, id: u64) -> Option<V>
        ensures found { result ≡ find nat_cmp id self.now.rows }
    {
        for row in &self.rows {
            if id.cmp(&row.0).is_eq() {
                return Some(row.1);
            }
        }
        None
    }

    /// Makes the spare places at least so many.
    pub fn reserve(&mut self, n: u32) -> Result<(), Memory>
        ensures rows { self.new.rows ≡ self.old.rows }
        ensures spare { self.old.spare ≤ self.new.spare }
        ensures room { OnOk result (n ≤ self.new.spare) }
    {
        if n as usize > MOST_ROWS - self.rows.len() {
            return Err(Memory);
        }
        self.rows.reserve(n as usize)?;
        Ok(())
    }

    /// Gives a number this value. It takes one spare place at most, and no memory.
    pub fn put(&mut self, id: u64, value: V)
        requires place { 1 ≤ self.old.spare }
        ensures rows { self.new.rows ≡ put nat_cmp id value self.old.rows }
        ensures spare { self.old.spare ≤ self.new.spare + 1 }
    {
        match put_row(&mut self.rows, (id, value)) {
            Ok(()) => {}
            Err(_) => unreachable!(),
        }
    }

    /// Gives a number that has a value another one. It takes no memory.
    pub fn set(&mut self, id: u64, value: V)
        requires there { IsSome (find nat_cmp id self.old.rows) }
        ensures rows { self.new.rows ≡ put nat_cmp id value self.old.rows }
        ensures spare { self.new.spare ≡ self.old.spare }
    {
        let row = (id, value);
        let at = place(&self.rows, &row);
        if is_there(&self.rows, at, &row) {
            self.rows[at] = row;
        }
    }

    /// Takes the value of this number away, if it has one.
    pub fn remove(&mut self, id: u64)
        ensures rows { self.new.rows ≡ without nat_cmp id self.old.rows }
        ensures spare { self.old.spare ≤ self.new.spare }
    {
        self.rows.retain(|row| !id.cmp(&row.0).is_eq());
    }

    /// Adds a row at the end.
    pub fn push(&mut self, id: u64, value: V) -> Result<(), Memory>
        requires ascending { IsSorted nat_cmp (self.old.rows ++ (id, value) ∷ []) }
        ensures pushed { OnOk result (self.new.rows ≡ self.old.rows ++ (id, value) ∷ []) }
        ensures kept { OnErr result (self.new.rows ≡ self.old.rows) }
    {
        push_row(&mut self.rows, (id, value))
    }

    /// The same rows again.
    pub fn copy(&self, alloc: Global) -> Result<IdTable<V>, Memory>
        ensures same { IfOk result (λ t. t.rows ≡ self.now.rows) }
    {
        Ok(IdTable {
            rows: copied_rows(alloc, &self.rows)?,
        })
    }
}
