//! The cell that holds a key over one restart.
ghost use Rattle.std.specs.Prelude.{◌≡◌, None, Some};

use std::marker::Model;

/// A cell that is empty or holds a key. A key that is taken out of it is gone.
#[derive(Drop)]
pub struct ResumeCell {
    key: Option<[u8; 32]>,
}

impl Model for ResumeCell {
    ghost use Rattle.std.specs.Prelude.{Option, List, ℕ};

    ghost Value = { Option (List ℕ) };

    ghost view = { λ c. c.key };
}

impl ResumeCell {
    /// An empty cell.
    pub fn new() -> ResumeCell
        ensures empty { result ≡ None }
    {
        ResumeCell { key: None }
    }

    /// A cell that holds this key, if there is one.
    pub fn of(key: Option<[u8; 32]>) -> ResumeCell
        ensures same { result ≡ key }
    {
        ResumeCell { key }
    }

    /// What it holds, which it keeps.
    pub fn get(&self) -> Option<[u8; 32]>
        ensures same { result ≡ self.now }
    {
        self.key
    }

    /// Puts a key into it, in the place of an earlier one.
    pub fn store(&mut self, key: &[u8; 32])
        ensures stored { self.new ≡ Some key.now }
    {
        self.key = Some(*key);
    }

    /// Takes out what it holds, and leaves it empty.
    pub fn take(&mut self) -> Option<[u8; 32]>
        ensures taken { result ≡ self.old }
        ensures empty { self.new ≡ None }
    {
        self.key.take()
    }
}
