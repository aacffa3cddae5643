//! Numbers of users, which come and go in order. The lists of `ls_bytes` only grow.
ghost use Rattle.std.specs.Prelude.{◌≡◌, ◌≢◌, ◌<◌, ◌≤◌, ◌++◌, ◌∷◌, [], nat_lt, length, slice_index};
ghost use Rattle.std.specs.Prelude.{IsTrue, IsFalse, IfOk, OnOk, OnErr};
ghost use Rattle.std.specs.List.{insert, prefix_len};

use ls_bytes::Memory;
use std::alloc::{AllocError, Global};
use std::marker::Model;

/// Numbers of users, ascending where each is put in at its place.
#[derive(Drop)]
pub struct UserNumbers {
    items: Vec<u32>,
}

impl Model for UserNumbers {
    ghost use Rattle.std.specs.Prelude.{List, ℕ};

    ghost Value = { List ℕ };

    ghost view = { λ n. n.items.items };
}

/// How many numbers at the front are smaller.
fn smaller_front(numbers: &[u32], n: u32) -> usize
    ensures count { result ≡ prefix_len (λ m. nat_lt m n) numbers.now }
    ensures within { result ≤ length numbers.now }
{
    numbers.iter().take_while(|m| **m < n).count()
}

/// Whether the number stands at this place.
fn is_at(numbers: &[u32], at: usize, n: u32) -> bool
    ensures there { IsTrue result → (at < length numbers.now) × (slice_index numbers.now at ≡ n) }
    ensures missing { IsFalse result → at < length numbers.now → slice_index numbers.now at ≢ n }
{
    at < numbers.len() && numbers[at] == n
}

impl UserNumbers {
    ghost use Rattle.ls_arming.specs.Numbers.{contains, with_number, with_numbers, without_number};

    /// No number.
    pub fn new(alloc: Global) -> UserNumbers
        ensures none { result ≡ [] }
    {
        UserNumbers {
            items: Vec::new(alloc),
        }
    }

    /// These numbers.
    pub fn of(alloc: Global, numbers: &[u32]) -> Result<UserNumbers, Memory>
        ensures same { IfOk result (λ copy. copy ≡ numbers.now) }
    {
        Ok(UserNumbers {
            items: numbers.to_vec(alloc)?,
        })
    }

    /// The numbers, to look at.
    pub fn as_slice(&self) -> &[u32]
        ensures same { result.now ≡ self.now }
    {
        &self.items
    }

    /// Whether the number is one of them.
    pub fn contains(&self, n: u32) -> bool
        ensures same { result ≡ contains self.now n }
    {
        self.items.iter().any(|m| *m == n)
    }

    /// Puts a number at the end. Without memory for it the numbers are as they were.
    pub fn push(&mut self, n: u32) -> Result<(), Memory>
        ensures put { OnOk result (self.new ≡ self.old ++ n ∷ []) }
        ensures kept { OnErr result (self.new ≡ self.old) }
    {
        self.items.push(n).map_err(AllocError::from)?;
        Ok(())
    }

    /// The number is one of them from now on, at its place.
    #[tactic(auto, using(crate::proofs::InsertLemmas::number_inserted, crate::proofs::InsertLemmas::number_there))]
    pub fn add(&mut self, n: u32) -> Result<(), Memory>
        ensures same { OnOk result (self.new ≡ with_number self.old n) }
    {
        let at = smaller_front(&self.items, n);
        if is_at(&self.items, at, n) {
            return Ok(());
        }
        self.insert(at, n)?;
        Ok(())
    }

    /// Puts a number in at a place.
    fn insert(&mut self, at: usize, n: u32) -> Result<(), Memory>
        requires { at ≤ length self.old }
        ensures put { OnOk result (self.new ≡ insert self.old at n) }
    {
        match self.items.insert(at, n) {
            Ok(()) => Ok(()),
            Err(_) => Err(Memory),
        }
    }

    /// These numbers are all among them from now on, each at its place.
    pub fn add_all(&mut self, more: &[u32]) -> Result<(), Memory>
        ensures same { OnOk result (self.new ≡ with_numbers self.old more.now) }
    {
        match more {
            [] => Ok(()),
            [n, rest @ ..] => {
                self.add(*n)?;
                self.add_all(rest)
            }
        }
    }

    /// The number is none of them any more.
    pub fn remove(&mut self, n: u32)
        ensures same { self.new ≡ without_number self.old n }
    {
        self.items.retain(|m| !(*m == n));
    }
}
