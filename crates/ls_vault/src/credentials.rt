//! A user gets another credential.
ghost use Rattle.std.specs.Prelude.{◌≡◌, ◌<◌, ◌≤◌, ◌+◌, ◌^◌, length, IfOk};
ghost use Rattle.ls_vault.specs.Credentials.{is_first, secure_after, credential_changed};
ghost use Rattle.ls_vault.specs.Users.{user_of};

use crate::fresh::{drawn_number, fresh, secure_ids};
use crate::revealed::is_empty;
use crate::state::State;
use crate::user::User;
use crate::user_changes::committed;
use crate::users::{give, user_of};
use ls_bytes::Memory;
use ls_credential::Credential;
use std::alloc::Global;

/// Whether a credential replaces none.
pub(crate) fn is_first(new: &Credential, user: &User) -> bool
    ensures same { result ≡ is_first new.now user.now }
{
    is_empty(user.credential.kind) && !is_empty(new.kind)
}

/// The secure id beside the new credential.
fn secure_after(
    alloc: Global,
    users: &[User],
    new: &Credential,
    drawn: &[u8],
    user: &User,
) -> Result<u64, Memory>
    requires { 8 ≤ length drawn.now }
    ensures same { IfOk result (λ id. id ≡ secure_after users.now new.now drawn.now user.now) }
{
    if is_empty(new.kind) {
        Ok(0)
    } else if is_first(new, user) {
        let taken = secure_ids(alloc, users)?;
        Ok(fresh(drawn_number(drawn), &taken))
    } else {
        Ok(user.secure)
    }
}

/// The user has the new credential. The secret stays.
pub(crate) fn credential_changed(
    alloc: Global,
    state: State,
    user: u32,
    new: Credential,
    drawn: &[u8],
) -> Result<State, Memory>
    requires kept { state.books.kept + 1 < 2 ^ 64 }
    requires drawn { 8 ≤ length drawn.now }
    ensures same { IfOk result (λ s. s ≡ credential_changed state user new drawn.now) }
{
    let mut state = state;
    let Some(u) = user_of(state.vault.users.as_slice(), user) else {
        return Ok(committed(state));
    };
    let secure = secure_after(alloc, state.vault.users.as_slice(), &new, drawn, u)?;
    give(&mut state.vault.users, user, new, secure);
    Ok(committed(state))
}
