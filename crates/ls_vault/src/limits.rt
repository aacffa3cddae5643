//! Limits of a vault.
ghost use Rattle.std.specs.Prelude.{◌≡◌, ◌-◌, nat_le};
ghost use Rattle.ls_vault.specs.Limits.{most_tokens, is_worn, used, is_full, token_count};
ghost use Rattle.ls_vault.specs.Limits.{activated_count};
ghost use Rattle.ls_vault.specs.Users.{tokens_of};

use crate::state::State;
use crate::token::Token;
use crate::tokens::pending_len;
use crate::user::User;
use crate::users::user_of;

/// The most tokens of one user.
const MOST_TOKENS: usize = 8;

/// Whether no change of the vault can be kept any more.
pub(crate) fn is_worn(state: &State) -> bool
    ensures same { result ≡ is_worn state.now }
{
    state.books.kept == u64::MAX
}

/// How many slots are left of so many.
fn free_slots(slots: u32, users: &[User]) -> usize
    ensures same { result ≡ slots - used users.now }
{
    let mut free = slots as usize;
    for u in users {
        free = free
            .saturating_sub(1)
            .saturating_sub(u.tokens.as_slice().len());
    }
    free
}

/// Whether there are slots, and none is free.
pub(crate) fn is_full(slots: u32, state: &State) -> bool
    ensures same { result ≡ is_full slots state.now }
{
    slots > 0 && free_slots(slots, state.vault.users.as_slice()) == 0
}

/// The active tokens of the user, none where there is no such user.
fn tokens_of(users: &[User], number: u32) -> &[Token]
    ensures same { result.now ≡ tokens_of users.now number }
{
    match user_of(users, number) {
        Some(user) => user.tokens.as_slice(),
        None => &[],
    }
}

/// Whether the user has as many tokens as there may be, active and pending.
pub(crate) fn has_most_tokens(state: &State, user: u32) -> bool
    ensures same { result ≡ nat_le most_tokens (token_count state.now user) }
{
    let active = tokens_of(state.vault.users.as_slice(), user).len();
    let pending = pending_len(state.session.pending.as_slice(), user);
    active >= MOST_TOKENS || pending >= MOST_TOKENS - active
}

/// How many pending tokens of the user find a place.
pub(crate) fn activated_count(slots: u32, state: &State, user: u32) -> usize
    ensures same { result ≡ activated_count slots state.now user }
{
    let pending = pending_len(state.session.pending.as_slice(), user);
    if is_worn(state) {
        0
    } else if slots == 0 {
        pending
    } else {
        pending.min(free_slots(slots, state.vault.users.as_slice()))
    }
}
