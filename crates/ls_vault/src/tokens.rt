//! Tokens by their users and ids.
ghost use Rattle.std.specs.Prelude.{◌≡◌, ◌++◌, ℕ, length, filter, map, take, IfOk, OnOk};
ghost use Rattle.std.specs.Option.{option_copied};
ghost use Rattle.ls_vault.specs.Tokens.{token_of, without_token, pending_of, pending_of_others};
ghost use Rattle.ls_vault.specs.Tokens.{has_pending, without_pending, without_first, activated};

use crate::table::Table;
use crate::token::{PendingToken, Token};
use ls_bytes::{Bytes, Memory};
use std::alloc::{AllocError, Global};

/// The active token with this id.
pub(crate) fn token_of(tokens: &[Token], id: u64) -> Option<&Token>
    ensures same { option_copied result ≡ token_of tokens.now id }
{
    tokens.iter().find(|t| t.id == id)
}

/// The active token with this id is gone.
pub(crate) fn remove_token(tokens: &mut Table<Token>, id: u64)
    ensures same { tokens.new ≡ without_token tokens.old id }
{
    tokens.items.retain(|t| !(t.id == id));
}

/// Whether a pending token is this user's with this id.
pub(crate) fn has_pending(pending: &[PendingToken], user: u32, id: u64) -> bool
    ensures same { result ≡ has_pending pending.now user id }
{
    pending.iter().any(|p| p.user == user && p.id == id)
}

/// How many pending tokens the user has.
pub(crate) fn pending_len(pending: &[PendingToken], user: u32) -> usize
    ensures same { result ≡ length (pending_of pending.now user) }
{
    pending.iter().filter(|p| p.user == user).count()
}

/// The pending token is gone.
pub(crate) fn remove_pending(pending: &mut Table<PendingToken>, user: u32, id: u64)
    ensures same { pending.new ≡ without_pending pending.old user id }
{
    pending.items.retain(|p| !(p.user == user && p.id == id));
}

/// The pending tokens of the user are gone.
pub(crate) fn remove_all_pending(pending: &mut Table<PendingToken>, user: u32)
    ensures same { pending.new ≡ pending_of_others pending.old user }
{
    pending.items.retain(|p| !(p.user == user));
}

/// Pending tokens, and those of them that become active.
#[derive(Drop)]
pub(crate) struct Parted {
    pub(crate) active: Table<Token>,
    pub(crate) pending: Table<PendingToken>,
}

/// The user's first k pending tokens become active.
pub(crate) fn part_pending(
    alloc: Global,
    pending: &[PendingToken],
    k: usize,
    user: u32,
) -> Result<Parted, Memory>
    ensures active { IfOk result (λ p.
        p.active ≡ map activated (take k (pending_of pending.now user))) }
    ensures pending { IfOk result (λ p. p.pending ≡ without_first k pending.now user) }
{
    let mut left = k;
    let mut active = Table::new(alloc);
    let mut others = Table::new(alloc);
    for p in pending {
        let bytes = Bytes::of(alloc, p.bytes.as_slice())?;
        if p.user == user && left > 0 {
            active.push(Token { id: p.id, bytes })?;
            left -= 1;
        } else {
            others.push(PendingToken {
                user: p.user,
                id: p.id,
                bytes,
            })?;
        }
    }
    Ok(Parted {
        active,
        pending: others,
    })
}
