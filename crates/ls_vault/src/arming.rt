//! Users are armed, and opened again after a restart.
ghost use Rattle.std.specs.Prelude.{◌≡◌, ◌<◌, ◌+◌, ◌^◌, None, IfOk};
ghost use Rattle.ls_vault.specs.Arming.{unarmed, prepared, armed, is_good, taken};
ghost use Rattle.ls_vault.specs.Arming.{resumed};
ghost use Rattle.ls_vault.specs.Limits.{is_worn};
ghost use Rattle.ls_vault.specs.States.{refused};
ghost use Rattle.ls_script.specs.declared.reply.Refusal.TheVariants as refusal;

use crate::limits::is_worn;
use crate::revealed::all_revealed;
use crate::state::{Outcome, State};
use crate::user_changes::committed;
use ls_arming::{Arming, UserNumbers};
use ls_bytes::Memory;
use ls_script::{Refusal, Reply};
use std::alloc::Global;

/// Nothing is armed, and that is kept, or the users of an arming are dead.
fn unarmed(alloc: Global, state: State) -> State
    ensures same { result ≡ unarmed state.vault.arming state }
{
    let mut state = state;
    match state.vault.arming.take() {
        None => {
            if state.books.dead.as_slice().is_empty() || is_worn(&state) {
                return state;
            }
            state.books.dead = UserNumbers::new(alloc);
            committed(state)
        }
        Some(arming) => {
            if is_worn(&state) {
                state.books.dead = arming.users;
                return state;
            }
            state.books.dead = UserNumbers::new(alloc);
            committed(state)
        }
    }
}

/// Nothing is armed, and each user who is unlocked from now on is captured.
pub(crate) fn prepared(alloc: Global, state: State) -> State
    ensures same { result ≡ prepared state }
{
    let mut state = unarmed(alloc, state);
    state.session.prepared = true;
    state.session.captured = UserNumbers::new(alloc);
    state
}

/// The captured users are armed.
pub(crate) fn armed(alloc: Global, state: State) -> State
    requires { state.books.kept + 1 < 2 ^ 64 }
    ensures same { result ≡ armed state }
{
    let mut state = state;
    let users = std::mem::replace(&mut state.session.captured, UserNumbers::new(alloc));
    state.session.prepared = false;
    state.vault.arming = Some(Arming {
        boot: state.session.boot,
        users,
    });
    committed(state)
}

/// Whether the boot is the armed one or one of the five after it.
fn is_good(armed: u32, boot: u32) -> bool
    ensures same { result ≡ is_good armed boot }
{
    !(boot < armed || armed.saturating_add(5) < boot)
}

/// The arming is taken away, and opens its users where it is still good.
pub(crate) fn resumed(alloc: Global, state: State) -> Result<Outcome, Memory>
    ensures same { IfOk result (λ o. o ≡ resumed state.vault.arming state) }
{
    let mut state = state;
    let Some(arming) = state.vault.arming.take() else {
        return Ok(Outcome {
            reply: Reply::Fine,
            state,
        });
    };
    if is_good(arming.boot, state.session.boot) {
        let users = state.vault.users.as_slice();
        let reply = Reply::Resumed(all_revealed(alloc, users, arming.users.as_slice())?);
        state.session.opened.add_all(arming.users.as_slice())?;
        let state = ended(state, arming.users);
        Ok(Outcome { reply, state })
    } else {
        Ok(expired(state, arming))
    }
}

/// The arming that was taken away opens no one any more.
fn expired(state: State, arming: Arming) -> Outcome
    ensures same { state.vault.arming ≡ None → result ≡ refused (taken state arming.users)
        (refusal.Expired arming.boot state.session.boot) }
{
    let reply = Reply::No(Refusal::Expired {
        armed: arming.boot,
        boot: state.session.boot,
    });
    let left = ended(state, arming.users);
    Outcome { reply, state: left }
}

/// The arming of these users was taken away: that is kept, or they are dead.
fn ended(state: State, users: UserNumbers) -> State
    ensures same { state.vault.arming ≡ None → result ≡ taken state users }
{
    let mut state = state;
    if is_worn(&state) {
        state.books.dead = users;
        state
    } else {
        committed(state)
    }
}
