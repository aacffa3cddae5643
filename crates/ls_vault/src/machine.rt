//! One step of the vault machine.
ghost use Rattle.std.specs.Prelude.{◌≡◌, [], ◌<◌, ◌≤◌, ◌+◌, ◌^◌, map, length, IfOk};
ghost use Rattle.std.specs.Prelude.{None};
ghost use Rattle.ls_script.specs.declared.command.Command.TheVariants as command;
ghost use Rattle.ls_vault.specs.Drawn.{effect_len, drawn_len};
ghost use Rattle.ls_vault.specs.Effects.{status_row, auto_set, effect};
ghost use Rattle.ls_vault.specs.Refusals.{refusal};
ghost use Rattle.ls_vault.specs.States.{refused};
ghost use Rattle.ls_vault.specs.Step.{step, restart};

use crate::arming::{armed, prepared, resumed};
use crate::credentials::credential_changed;
use crate::fresh::{drawn_number, fresh, token_ids};
use crate::limits::activated_count;
use crate::refusal::{is_opened, refusal};
use crate::revealed::shown_length;
use crate::session::SessionState;
use crate::state::{Outcome, State};
use crate::table::Table;
use crate::token_changes::{
    escrow_ended, token_added, token_dropped, token_state, tokens_activated,
};
use crate::tokens::pending_len;
use crate::unlocking::{attempted, locked, token_attempted};
use crate::user::User;
use crate::user_changes::{added, committed, dropped};
use crate::users::{set_auto, user_of};
use crate::vault::Books;
use ls_arming::UserNumbers;
use ls_bytes::{Bytes, Memory, Rows, UserList};
use ls_credential::Credential;
use ls_script::{Command, Refusal, Reply, StatusRow};
use std::alloc::Global;

fn fine(state: State) -> Outcome
    ensures same { result ≡ record { reply = Reply.Fine; state = state } }
{
    Outcome {
        reply: Reply::Fine,
        state,
    }
}

/// A count that fits a byte. Of a user with more tokens nothing can be told.
fn small(count: usize) -> Result<u8, Memory>
    ensures same { IfOk result (λ small. small ≡ count) }
{
    u8::try_from(count).map_err(|_| Memory)
}

/// How a user stands.
fn status_row(state: &State, user: u32, u: &User) -> Result<StatusRow, Memory>
    ensures same { IfOk result (λ row. row ≡ status_row state.now user u.now) }
{
    Ok(StatusRow {
        opened: is_opened(state, user),
        kind: u.credential.kind,
        escrow: u.escrow,
        secure: u.secure,
        active: small(u.tokens.as_slice().len())?,
        pending: small(pending_len(state.session.pending.as_slice(), user))?,
    })
}

/// The numbers of all users.
fn numbers(alloc: Global, users: &[User]) -> Result<UserList, Memory>
    ensures same { IfOk result (λ list. list ≡ map (λ u. u.number) users.now) }
{
    let mut list = Rows::new(alloc);
    for u in users {
        list.push(u.number)?;
    }
    Ok(list)
}

/// The outcome of a question about a user.
fn status(state: State, user: u32) -> Result<Outcome, Memory>
    ensures same { IfOk result (λ o. o ≡ effect 0 state (command.Status user) 0 []) }
{
    let Some(u) = user_of(state.vault.users.as_slice(), user) else {
        return Ok(refused(state, Refusal::NoUser));
    };
    let row = status_row(&state, user, u)?;
    Ok(Outcome {
        reply: Reply::Status(row),
        state,
    })
}

fn refused(state: State, why: Refusal) -> Outcome
    ensures same { result ≡ refused state why }
{
    Outcome {
        reply: Reply::No(why),
        state,
    }
}

/// The flag of auto-confirm is set, which is kept where it was another.
fn auto_set(state: State, user: u32, on: bool) -> Outcome
    requires accepted { refusal 0 state (command.AutoPin user on) 0 ≡ None }
    ensures same { result ≡ effect 0 state (command.AutoPin user on) 0 [] }
{
    let mut state = state;
    let Some(u) = user_of(state.vault.users.as_slice(), user) else {
        return refused(state, Refusal::NoUser);
    };
    let differs = u.auto != on;
    set_auto(&mut state.vault.users, user, on);
    if differs {
        fine(committed(state))
    } else {
        fine(state)
    }
}

fn pin_length(state: State, user: u32) -> Outcome
    ensures same { result ≡ effect 0 state (command.PinLength user) 0 [] }
{
    let Some(u) = user_of(state.vault.users.as_slice(), user) else {
        return refused(state, Refusal::NoUser);
    };
    let length = shown_length(u);
    Outcome {
        reply: Reply::PinLength(length),
        state,
    }
}

fn users(alloc: Global, state: State) -> Result<Outcome, Memory>
    ensures same { IfOk result (λ o. o ≡ effect 0 state command.Users 0 []) }
{
    let list = numbers(alloc, state.vault.users.as_slice())?;
    Ok(Outcome {
        reply: Reply::Users(list),
        state,
    })
}

/// The same credential once more.
fn copy_of(alloc: Global, credential: &Credential) -> Result<Credential, Memory>
    ensures same { IfOk result (λ copy. copy ≡ credential.now) }
{
    Ok(Credential {
        kind: credential.kind,
        text: Bytes::of(alloc, credential.text.as_slice())?,
    })
}

/// The user gets a copy of this credential, and keeps its secret.
fn change(
    alloc: Global,
    state: State,
    user: u32,
    credential: &Credential,
    drawn: &[u8],
) -> Result<Outcome, Memory>
    requires kept { state.books.kept + 1 < 2 ^ 64 }
    requires drawn { 8 ≤ length drawn.now }
    ensures same { IfOk result (λ o. o ≡
        effect 0 state (command.Change user credential.now) 0 drawn.now) }
{
    let new = copy_of(alloc, credential)?;
    let state = credential_changed(alloc, state, user, new, drawn)?;
    Ok(fine(state))
}

/// A new token waits. It is answered its id.
fn token_added_fresh(
    alloc: Global,
    state: State,
    user: u32,
    token: &[u8],
    drawn: &[u8],
) -> Result<Outcome, Memory>
    requires drawn { 8 ≤ length drawn.now }
    ensures same { IfOk result (λ o. o ≡
        effect 0 state (command.TokenAdd user token.now) 0 drawn.now) }
{
    let taken = token_ids(alloc, &state)?;
    let id = fresh(drawn_number(drawn), taken.as_slice());
    let state = token_added(state, user, Bytes::of(alloc, token)?, id)?;
    Ok(Outcome {
        reply: Reply::TokenId(id),
        state,
    })
}

/// What a command answers that isn't refused, and the state after it.
fn effect(
    alloc: Global,
    slots: u32,
    state: State,
    command: &Command,
    moment: u64,
    drawn: &[u8],
) -> Result<Outcome, Memory>
    requires accepted { refusal slots state command.now moment ≡ None }
    requires drawn { effect_len slots state command.now ≤ length drawn.now }
    ensures same { IfOk result (λ o. o ≡ effect slots state command.now moment drawn.now) }
{
    match command {
        Command::Add { user, escrow } => Ok(fine(added(alloc, state, *user, *escrow, drawn)?)),
        Command::Drop { user } => Ok(fine(dropped(state, *user))),
        Command::Attempt { user, credential } => attempted(state, *user, credential, moment),
        Command::Change { user, credential } => change(alloc, state, *user, credential, drawn),
        Command::Lock { user } => Ok(fine(locked(state, *user))),
        Command::Status { user } => status(state, *user),
        Command::Users => users(alloc, state),
        Command::TokenAdd { user, token } => {
            token_added_fresh(alloc, state, *user, token.as_slice(), drawn)
        }
        Command::Activate { user } => {
            let k = activated_count(slots, &state, *user);
            Ok(fine(tokens_activated(alloc, k, state, *user)?))
        }
        Command::TokenDrop { user, id } => Ok(fine(token_dropped(state, *user, *id))),
        Command::TokenState { user, id } => {
            let reply = Reply::TokenState(token_state(&state, *user, *id));
            Ok(Outcome { reply, state })
        }
        Command::TokenAttempt { user, .. } => token_attempted(state, *user),
        Command::EscrowOff { user } => Ok(fine(escrow_ended(state, *user))),
        Command::Prepare => Ok(fine(prepared(alloc, state))),
        Command::Arm => Ok(fine(armed(alloc, state))),
        Command::Resume => resumed(alloc, state),
        Command::AutoPin { user, on } => Ok(auto_set(state, *user, *on)),
        Command::PinLength { user } => Ok(pin_length(state, *user)),
    }
}

/// One command, with so many slots, at this moment, and with the bytes that it draws. Where there
/// is no memory the state is lost.
pub fn step(
    alloc: Global,
    slots: u32,
    state: State,
    command: &Command,
    moment: u64,
    drawn: &[u8],
) -> Result<Outcome, Memory>
    requires drawn { drawn_len slots state command.now moment ≤ length drawn.now }
    ensures same { IfOk result (λ o. o ≡ step slots state command.now moment drawn.now) }
{
    match refusal(slots, &state, command, moment) {
        Some(why) => Ok(refused(state, why)),
        None => effect(alloc, slots, state, command, moment, drawn),
    }
}

/// A new session at this boot, with these books.
pub fn restart(alloc: Global, state: State, boot: u32, books: Books) -> State
    ensures same { result ≡ restart state boot books }
{
    let mut state = state;
    state.books = books;
    state.session = SessionState {
        boot,
        opened: UserNumbers::new(alloc),
        pending: Table::new(alloc),
        prepared: false,
        captured: UserNumbers::new(alloc),
    };
    state
}
