//! Tokens come and go.
ghost use Rattle.std.specs.Prelude.{◌≡◌, ◌<◌, ◌≤◌, ◌+◌, ◌^◌, length, nat_lt, Bool, IsTrue, IfOk};
ghost use Rattle.ls_vault.specs.States.{committed_if};
ghost use Rattle.ls_vault.specs.TokenChanges.{token_added, first_activated, tokens_activated};
ghost use Rattle.ls_vault.specs.TokenChanges.{token_dropped, escrow_ended, token_state};
ghost use Rattle.ls_vault.specs.Tokens.{is_active};

use crate::refusal::{is_active, is_pending};
use crate::state::State;
use crate::token::PendingToken;
use crate::tokens::{part_pending, remove_all_pending, remove_pending};
use crate::user_changes::committed;
use crate::users::{add_tokens, drop_token, make_plain};
use ls_bytes::{Bytes, Memory};
use ls_script::TokenState;
use std::alloc::Global;

/// A token waits behind the other pending ones.
pub(crate) fn token_added(state: State, user: u32, bytes: Bytes, id: u64) -> Result<State, Memory>
    ensures same { IfOk result (λ s. s ≡ token_added state user bytes id) }
{
    let mut state = state;
    state
        .session
        .pending
        .push(PendingToken { user, id, bytes })?;
    Ok(state)
}

/// The user's first k pending tokens become its last active ones.
fn first_activated(alloc: Global, k: usize, state: State, user: u32) -> Result<State, Memory>
    ensures same { IfOk result (λ s. s ≡ first_activated k state user) }
{
    let mut state = state;
    let parted = part_pending(alloc, state.session.pending.as_slice(), k, user)?;
    add_tokens(&mut state.vault.users, user, parted.active)?;
    state.session.pending = parted.pending;
    Ok(state)
}

/// The same, kept where there are any.
pub(crate) fn tokens_activated(
    alloc: Global,
    k: usize,
    state: State,
    user: u32,
) -> Result<State, Memory>
    requires kept { 0 < k → state.books.kept + 1 < 2 ^ 64 }
    ensures same { IfOk result (λ s. s ≡ tokens_activated k state user) }
{
    let state = first_activated(alloc, k, state, user)?;
    if k > 0 {
        Ok(committed(state))
    } else {
        Ok(state)
    }
}

/// The token is gone, which is kept where it was active.
pub(crate) fn token_dropped(state: State, user: u32, id: u64) -> State
    requires kept { IsTrue (is_active state user id) → state.books.kept + 1 < 2 ^ 64 }
    ensures same { result ≡ token_dropped state user id }
{
    let mut state = state;
    let active = is_active(&state, user, id);
    drop_token(&mut state.vault.users, user, id);
    remove_pending(&mut state.session.pending, user, id);
    if active { committed(state) } else { state }
}

/// The user can have no tokens any more.
pub(crate) fn escrow_ended(state: State, user: u32) -> State
    requires { state.books.kept + 1 < 2 ^ 64 }
    ensures same { result ≡ escrow_ended state user }
{
    let mut state = state;
    make_plain(&mut state.vault.users, user);
    remove_all_pending(&mut state.session.pending, user);
    committed(state)
}

/// Whether the token is pending, active, or neither.
pub(crate) fn token_state(state: &State, user: u32, id: u64) -> TokenState
    ensures same { result ≡ token_state state.now user id }
{
    if is_pending(state, user, id) {
        TokenState::Pending
    } else if is_active(state, user, id) {
        TokenState::Active
    } else {
        TokenState::Absent
    }
}
