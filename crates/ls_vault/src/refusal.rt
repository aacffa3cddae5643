//! When a command is refused.
ghost use Rattle.std.specs.Prelude.{◌≡◌};
ghost use Rattle.std.specs.Option.{option_copied};
ghost use Rattle.ls_vault.specs.Kinds.{same_kind};
ghost use Rattle.ls_vault.specs.Refusals.{is_opened, worn_refusal, add_refusal, attempt_refusal};
ghost use Rattle.ls_vault.specs.Refusals.{locked_refusal, change_refusal, token_add_refusal};
ghost use Rattle.ls_vault.specs.Refusals.{token_drop_refusal, bytes_refusal, escrow_off_refusal};
ghost use Rattle.ls_vault.specs.Refusals.{arm_refusal, resume_refusal, auto_pin_refusal, refusal};
ghost use Rattle.ls_vault.specs.Refusals.{of_user};
ghost use Rattle.ls_vault.specs.Users.{user_of};
ghost use Rattle.ls_vault.specs.Tokens.{token_of, is_active, is_pending};

use crate::limits::{has_most_tokens, is_full, is_worn};
use crate::state::State;
use crate::token::Token;
use crate::tokens::{has_pending, token_of};
use crate::user::User;
use crate::users::user_of;
use ls_credential::{Credential, Kind};
use ls_script::{Command, Refusal};

/// The most users.
const MOST_USERS: usize = 16;

pub(crate) fn is_same_kind(a: Kind, b: Kind) -> bool
    ensures same { result ≡ same_kind a b }
{
    a.code() == b.code()
}

/// Whether the user is opened.
pub(crate) fn is_opened(state: &State, user: u32) -> bool
    ensures same { result ≡ is_opened state.now user }
{
    state.session.opened.contains(user)
}

/// Whether the user has a pending token with this id.
pub(crate) fn is_pending(state: &State, user: u32, id: u64) -> bool
    ensures same { result ≡ is_pending state.now user id }
{
    has_pending(state.session.pending.as_slice(), user, id)
}

/// Whether the user has an active token with this id.
pub(crate) fn is_active(state: &State, user: u32, id: u64) -> bool
    ensures same { result ≡ is_active state.now user id }
{
    match user_of(state.vault.users.as_slice(), user) {
        Some(u) => token_of(u.tokens.as_slice(), id).is_some(),
        None => false,
    }
}

fn worn_refusal(state: &State) -> Option<Refusal>
    ensures same { result ≡ worn_refusal state.now }
{
    if is_worn(state) {
        Some(Refusal::Worn)
    } else {
        None
    }
}

fn add_refusal(slots: u32, state: &State, user: u32) -> Option<Refusal>
    ensures same { result ≡ add_refusal slots state.now user }
{
    if user_of(state.vault.users.as_slice(), user).is_some() {
        Some(Refusal::UserExists)
    } else if state.vault.users.as_slice().len() >= MOST_USERS {
        Some(Refusal::UserLimit)
    } else if is_full(slots, state) {
        Some(Refusal::NoSlot)
    } else {
        worn_refusal(state)
    }
}

/// The user, who has to be there.
fn find(state: &State, user: u32) -> Option<&User>
    ensures same { option_copied result ≡ user_of state.now.vault.users user }
{
    user_of(state.vault.users.as_slice(), user)
}

fn no_user_refusal(state: &State, user: u32) -> Option<Refusal>
    ensures same { result ≡ of_user (user_of state.now.vault.users user) (λ u. None) }
{
    match find(state, user) {
        None => Some(Refusal::NoUser),
        Some(_) => None,
    }
}

fn drop_refusal(state: &State, user: u32) -> Option<Refusal>
    ensures same { result ≡
        of_user (user_of state.now.vault.users user) (λ u. worn_refusal state.now) }
{
    match find(state, user) {
        None => Some(Refusal::NoUser),
        Some(_) => worn_refusal(state),
    }
}

fn attempt_refusal(state: &State, user: u32, offered: &Credential, moment: u64) -> Option<Refusal>
    ensures same { result ≡
        of_user (user_of state.now.vault.users user) (attempt_refusal offered.now moment) }
{
    let Some(u) = find(state, user) else {
        return Some(Refusal::NoUser);
    };
    let stored = u.credential.kind;
    if !is_same_kind(offered.kind, stored) {
        Some(Refusal::WrongKind(stored))
    } else if moment < u.until {
        Some(Refusal::Throttled(u.until - moment))
    } else {
        None
    }
}

fn change_refusal(slots: u32, state: &State, user: u32) -> Option<Refusal>
    ensures same { result ≡
        of_user (user_of state.now.vault.users user) (λ u. change_refusal slots state.now user) }
{
    if find(state, user).is_none() {
        Some(Refusal::NoUser)
    } else if !is_opened(state, user) {
        Some(Refusal::Locked)
    } else if is_full(slots, state) {
        Some(Refusal::NoSlot)
    } else {
        worn_refusal(state)
    }
}

fn token_add_refusal(state: &State, user: u32) -> Option<Refusal>
    ensures same { result ≡
        of_user (user_of state.now.vault.users user) (token_add_refusal state.now user) }
{
    let Some(u) = find(state, user) else {
        return Some(Refusal::NoUser);
    };
    if !u.escrow {
        Some(Refusal::NoEscrow)
    } else if has_most_tokens(state, user) {
        Some(Refusal::TokenLimit)
    } else {
        None
    }
}

fn activate_refusal(state: &State, user: u32) -> Option<Refusal>
    ensures same { result ≡
        of_user (user_of state.now.vault.users user) (λ u. locked_refusal state.now user) }
{
    if find(state, user).is_none() {
        Some(Refusal::NoUser)
    } else if is_opened(state, user) {
        None
    } else {
        Some(Refusal::Locked)
    }
}

fn token_drop_refusal(state: &State, user: u32, id: u64) -> Option<Refusal>
    ensures same { result ≡
        of_user (user_of state.now.vault.users user) (λ u. token_drop_refusal state.now user id) }
{
    let active = is_active(state, user, id);
    if find(state, user).is_none() {
        Some(Refusal::NoUser)
    } else if !(is_pending(state, user, id) || active) {
        Some(Refusal::NoToken)
    } else if active {
        worn_refusal(state)
    } else {
        None
    }
}

fn bytes_refusal(token: Option<&Token>, offered: &[u8]) -> Option<Refusal>
    ensures same { result ≡ bytes_refusal offered.now (option_copied token.entry) }
{
    match token {
        None => Some(Refusal::NoToken),
        Some(t) => {
            if offered == t.bytes.as_slice() {
                None
            } else {
                Some(Refusal::WrongToken)
            }
        }
    }
}

fn token_attempt_refusal(state: &State, user: u32, id: u64, offered: &[u8]) -> Option<Refusal>
    ensures same { result ≡ of_user (user_of state.now.vault.users user) (λ u.
        bytes_refusal offered.now (token_of u.tokens id)) }
{
    match find(state, user) {
        None => Some(Refusal::NoUser),
        Some(u) => bytes_refusal(token_of(u.tokens.as_slice(), id), offered),
    }
}

fn escrow_off_refusal(state: &State, user: u32) -> Option<Refusal>
    ensures same { result ≡
        of_user (user_of state.now.vault.users user) (escrow_off_refusal state.now) }
{
    match find(state, user) {
        None => Some(Refusal::NoUser),
        Some(u) => {
            if !u.escrow {
                Some(Refusal::NoEscrow)
            } else {
                worn_refusal(state)
            }
        }
    }
}

fn arm_refusal(state: &State) -> Option<Refusal>
    ensures same { result ≡ arm_refusal state.now }
{
    if !state.session.prepared {
        Some(Refusal::NotPrepared)
    } else if state.session.captured.as_slice().is_empty() {
        Some(Refusal::Locked)
    } else {
        worn_refusal(state)
    }
}

fn resume_refusal(state: &State) -> Option<Refusal>
    ensures same { result ≡ resume_refusal state.now.vault.arming }
{
    match state.vault.arming {
        None => Some(Refusal::NotArmed),
        Some(_) => None,
    }
}

fn auto_pin_refusal(state: &State, user: u32, on: bool) -> Option<Refusal>
    ensures same { result ≡
        of_user (user_of state.now.vault.users user) (auto_pin_refusal state.now user on) }
{
    let Some(u) = find(state, user) else {
        return Some(Refusal::NoUser);
    };
    if !is_opened(state, user) {
        Some(Refusal::Locked)
    } else if u.auto != on {
        worn_refusal(state)
    } else {
        None
    }
}

/// The first cause for which a command changes nothing, with so many slots and at this moment.
pub(crate) fn refusal(slots: u32, state: &State, command: &Command, moment: u64) -> Option<Refusal>
    ensures same { result ≡ refusal slots state.now command.now moment }
{
    match command {
        Command::Add { user, .. } => add_refusal(slots, state, *user),
        Command::Drop { user } => drop_refusal(state, *user),
        Command::Attempt { user, credential } => {
            attempt_refusal(state, *user, credential, moment)
        }
        Command::Change { user, .. } => change_refusal(slots, state, *user),
        Command::Lock { user }
        | Command::Status { user }
        | Command::TokenState { user, .. }
        | Command::PinLength { user } => no_user_refusal(state, *user),
        Command::Users | Command::Prepare => None,
        Command::TokenAdd { user, .. } => token_add_refusal(state, *user),
        Command::Activate { user } => activate_refusal(state, *user),
        Command::TokenDrop { user, id } => token_drop_refusal(state, *user, *id),
        Command::TokenAttempt { user, id, token } => {
            token_attempt_refusal(state, *user, *id, token.as_slice())
        }
        Command::EscrowOff { user } => escrow_off_refusal(state, *user),
        Command::Arm => arm_refusal(state),
        Command::Resume => resume_refusal(state),
        Command::AutoPin { user, on } => auto_pin_refusal(state, *user, *on),
    }
}
