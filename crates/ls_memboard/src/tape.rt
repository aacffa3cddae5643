//! What is taken from its front, item by item.
ghost use Rattle.std.specs.Prelude.{◌≡◌, ◌≤◌, [], drop, IfOk};
ghost use Rattle.ls_tape.specs.Tape.{next_moment, later_moments};

use ls_bytes::Memory;
use ls_tape::{moments_taken, next_moment};
use std::alloc::Global;
use std::marker::Model;

/// Items in a row, of which the first were taken.
#[derive(Drop)]
pub struct Tape<T> {
    items: Vec<T>,
    at: usize,
}

impl<T> Model for Tape<T> {
    ghost use Rattle.std.specs.Prelude.{◌≤◌, List, drop, length};

    ghost Value = { List T };

    ghost view = { λ t. drop t.at t.items.items };

    ghost invariant = { λ t. t.at ≤ length t.items.items };
}

impl<T: Copy> Tape<T> {
    /// No items.
    pub(crate) fn new(alloc: Global) -> Tape<T>
        ensures empty { result ≡ [] }
    {
        Tape {
            items: Vec::new(alloc),
            at: 0,
        }
    }

    /// These items, none of them taken.
    pub(crate) fn of(alloc: Global, items: &[T]) -> Result<Tape<T>, Memory>
        ensures same { IfOk result (λ t. t ≡ items.now) }
    {
        let items = Vec::from_slice(alloc, items)?;
        Ok(Tape { items, at: 0 })
    }

    /// What is left.
    pub(crate) fn rest(&self) -> &[T]
        ensures same { result.now ≡ self.now }
    {
        &self.items[self.at..]
    }

    /// Takes so many items, or what is left.
    pub(crate) fn skip(&mut self, count: usize)
        ensures left { self.new ≡ drop count self.old }
    {
        let left = self.items.len() - self.at;
        self.at += count.min(left);
    }
}

impl Tape<u64> {
    /// The next moment, and 0 where there is none.
    pub(crate) fn moment(&self) -> u64
        ensures next { result ≡ next_moment self.now }
    {
        next_moment(self.rest())
    }

    /// Takes a moment, but for the last one, which stays.
    pub(crate) fn advance(&mut self)
        ensures left { self.new ≡ later_moments self.old }
    {
        let taken = moments_taken(self.rest());
        self.skip(taken);
    }
}
