//! Users come and go.
ghost use Rattle.std.specs.Prelude.{◌≡◌, ◌<◌, ◌≤◌, ◌+◌, ◌^◌, length, IfOk, take, drop};
ghost use Rattle.ls_secret.specs.Secrets.{new_secret};
ghost use Rattle.ls_vault.specs.States.{committed};
ghost use Rattle.ls_vault.specs.UserChanges.{new_user, added, dropped};

use crate::state::State;
use crate::table::Table;
use crate::tokens::remove_all_pending;
use crate::user::User;
use crate::users::{add_user, remove_user};
use ls_arming::disarmed;
use ls_bytes::Memory;
use ls_credential::Credential;
use ls_secret::Secret;
use std::alloc::Global;

/// One change of the vault more was kept.
pub(crate) fn committed(state: State) -> State
    requires { state.books.kept + 1 < 2 ^ 64 }
    ensures same { result ≡ committed state }
{
    let mut state = state;
    state.books.kept += 1;
    state
}

/// 32 bytes from this place on.
fn half(drawn: &[u8], at: usize) -> [u8; 32]
    requires { at + 32 ≤ length drawn.now }
    ensures same { result ≡ take 32 (drop at drawn.now) }
{
    let mut bytes = [0; 32];
    bytes.copy_from_slice(&drawn[at..at + 32]);
    bytes
}

/// The secret of the first 64 drawn bytes.
fn drawn_secret(alloc: Global, drawn: &[u8]) -> Result<Secret, Memory>
    requires { 64 ≤ length drawn.now }
    ensures same { IfOk result (λ secret. secret ≡
        new_secret (take 32 drawn.now) (take 32 (drop 32 drawn.now))) }
{
    let first = half(drawn, 0);
    let second = half(drawn, 32);
    Secret::create(alloc, &first, &second)
}

/// A new user, with the secret of the first 64 drawn bytes.
fn new_user(alloc: Global, number: u32, escrow: bool, drawn: &[u8]) -> Result<User, Memory>
    requires { 64 ≤ length drawn.now }
    ensures same { IfOk result (λ u. u ≡ new_user number escrow drawn.now) }
{
    Ok(User {
        number,
        secret: drawn_secret(alloc, drawn)?,
        credential: Credential::none(alloc)?,
        fails: 0,
        until: 0,
        secure: 0,
        escrow,
        auto: false,
        tokens: Table::new(alloc),
    })
}

/// The user is added, closed.
pub(crate) fn added(
    alloc: Global,
    state: State,
    number: u32,
    escrow: bool,
    drawn: &[u8],
) -> Result<State, Memory>
    requires kept { state.books.kept + 1 < 2 ^ 64 }
    requires drawn { 64 ≤ length drawn.now }
    ensures same { IfOk result (λ s. s ≡ added state number escrow drawn.now) }
{
    let mut state = state;
    let user = new_user(alloc, number, escrow, drawn)?;
    add_user(&mut state.vault.users, user)?;
    Ok(committed(state))
}

/// Nothing is left of the user.
pub(crate) fn dropped(state: State, user: u32) -> State
    requires { state.books.kept + 1 < 2 ^ 64 }
    ensures same { result ≡ dropped state user }
{
    let mut state = state;
    remove_user(&mut state.vault.users, user);
    state.vault.arming = disarmed(state.vault.arming.take(), user);
    state.books.dead.remove(user);
    state.session.opened.remove(user);
    remove_all_pending(&mut state.session.pending, user);
    state.session.captured.remove(user);
    committed(state)
}
