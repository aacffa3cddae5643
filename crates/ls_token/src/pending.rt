//! A token that waits to become active.

use ls_bytes::Bytes;
use std::marker::Model;

/// A token of a user that has no protector yet. It opens nothing, and ends with the session.
#[derive(Drop)]
pub struct Pending {
    /// The number of the user whose it is.
    pub user: u32,
    /// Its id, which is odd. Its protector will have it too.
    pub id: u64,
    /// The bytes that will unlock by it.
    pub token: Bytes,
}

impl Model for Pending {
    ghost use Rattle.std.specs.Prelude.{◌≡◌, true};
    ghost use Rattle.ls_record.specs.Rows.{is_odd};
    ghost use Rattle.ls_vault.specs.declared.token.PendingToken.{PendingToken};

    ghost Value = { PendingToken };

    ghost view = { λ p. record { user = p.user; id = p.id; bytes = p.token } };

    ghost invariant = { λ p. is_odd p.id ≡ true };
}
