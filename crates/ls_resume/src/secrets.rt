//! The secrets of users, by ascending user.
ghost use Rattle.std.specs.Prelude.{◌≡◌, ◌↔◌, ◌<◌, ◌++◌, ◌∷◌, [], length, slice_get, IsSome, OnOk, OnErr};
ghost use Rattle.std.specs.Option.{option_copied};
ghost use Rattle.ls_resume.specs.Ascending.{IsAscending};

use ls_bytes::{Memory, Rows};
use ls_secret::Secret;
use std::alloc::Global;
use std::marker::Model;

/// A user, and its secret.
#[derive(Drop)]
pub struct SecretRow {
    pub user: u32,
    pub secret: Secret,
}

/// The secrets of users, by ascending user.
#[derive(Drop)]
pub struct SecretRows {
    rows: Rows<SecretRow>,
}

impl Model for SecretRows {
    ghost use Rattle.std.specs.Prelude.{List};
    ghost use Rattle.ls_resume.specs.declared.secrets.SecretRow.{SecretRow};
    ghost use Rattle.ls_resume.specs.Ascending.{IsAscending};
    ghost use Rattle.ls_resume.specs.Secrets.{users_of};

    ghost Value = { List SecretRow };

    ghost view = { λ s. s.rows };

    ghost invariant = { λ s. IsAscending (users_of s.rows) };
}

impl SecretRows {
    ghost use Rattle.ls_resume.specs.Secrets.{users_of};

    /// No secret.
    pub fn new(alloc: Global) -> SecretRows
        ensures none { result ≡ [] }
    {
        SecretRows {
            rows: Rows::new(alloc),
        }
    }

    /// How many secrets there are.
    pub fn len(&self) -> u32
        ensures count { result ≡ length self.now }
    {
        self.rows.len()
    }

    /// The secret at a place, and None exactly past the end.
    pub fn get(&self, at: u32) -> Option<&SecretRow>
        ensures row { option_copied result ≡ slice_get self.now at }
        ensures within { IsSome result ↔ (at < length self.now) }
    {
        self.rows.get(at)
    }

    /// The secrets, to look at.
    pub fn as_slice(&self) -> &[SecretRow]
        ensures same { result.now ≡ self.now }
        ensures ascending { IsAscending (users_of self.now) }
    {
        self.rows.as_slice()
    }

    /// Adds the secret of a user above all of these. Without memory for it they are as they were.
    pub fn push(&mut self, row: SecretRow) -> Result<(), Memory>
        requires ascending { IsAscending (users_of self.old ++ row.user ∷ []) }
        ensures put { OnOk result (self.new ≡ self.old ++ row ∷ []) }
        ensures kept { OnErr result (self.new ≡ self.old) }
    {
        self.rows.push(row)
    }
}
