//! How many bytes a command draws.
ghost use Rattle.std.specs.Prelude.{◌≡◌, ◌*◌, IfOk};
ghost use Rattle.ls_script.specs.declared.command.Command.TheVariants as command;
ghost use Rattle.ls_vault.specs.Drawn.{credential_len, token_len, effect_len, drawn_len};
ghost use Rattle.ls_vault.specs.Drawn.{is_first_of};
ghost use Rattle.ls_vault.specs.Users.{user_of};

use crate::credentials::is_first;
use crate::limits::activated_count;
use crate::refusal::refusal;
use crate::revealed::is_empty;
use crate::state::State;
use crate::users::user_of;
use ls_bytes::Memory;
use ls_credential::{Credential, Kind};
use ls_script::Command;

/// How many bytes a number, a key, and the start of a cipher's counter have.
const NUMBER_LEN: usize = 8;

const KEY_LEN: usize = 32;

const IV_LEN: usize = 12;

/// How many bytes the value of a slot has, and a file whose loss destroys what is sealed with it.
const VALUE_LEN: usize = 16;

const DISCARDABLE_LEN: usize = 16_384;

/// For the protector of a credential of this kind.
fn credential_len(slots: u32, kind: Kind) -> usize
    ensures same { result ≡ credential_len slots kind }
{
    let beside = if is_empty(kind) { 0 } else { 16 + IV_LEN };
    let handle = if is_empty(kind) { 0 } else { NUMBER_LEN };
    let place = if slots == 0 {
        DISCARDABLE_LEN + handle
    } else {
        VALUE_LEN
    };
    NUMBER_LEN + KEY_LEN + 2 * IV_LEN + beside + place
}

/// For the protector of a token.
fn token_len(slots: u32) -> usize
    ensures same { result ≡ token_len slots }
{
    let place = if slots == 0 { 0 } else { VALUE_LEN + IV_LEN };
    KEY_LEN + 2 * IV_LEN + DISCARDABLE_LEN + place
}

/// Whether a credential replaces none of a user that is there.
fn is_first_of(state: &State, user: u32, new: &Credential) -> bool
    ensures same { result ≡ is_first_of new.now (user_of state.now.vault.users user) }
{
    match user_of(state.vault.users.as_slice(), user) {
        Some(u) => is_first(new, u),
        None => false,
    }
}

/// For a changed credential.
fn change_len(slots: u32, state: &State, user: u32, new: &Credential) -> usize
    ensures same { result ≡ effect_len slots state.now (command.Change user new.now) }
{
    let first = if is_first_of(state, user, new) {
        2 * NUMBER_LEN
    } else {
        0
    };
    first + credential_len(slots, new.kind)
}

/// How many bytes these counts make together, where memory could hold them.
fn times(count: usize, len: usize) -> Result<usize, Memory>
    ensures same { IfOk result (λ all. all ≡ count * len) }
{
    count.checked_mul(len).ok_or(Memory)
}

/// How many bytes a command draws that isn't refused.
fn effect_len(slots: u32, state: &State, command: &Command) -> Result<usize, Memory>
    ensures same { IfOk result (λ len. len ≡ effect_len slots state.now command.now) }
{
    match command {
        Command::Add { escrow, .. } => {
            let own = if *escrow { IV_LEN } else { 0 };
            Ok(2 * 32 + own + credential_len(slots, Kind::Empty))
        }
        Command::Change { user, credential } => Ok(change_len(slots, state, *user, credential)),
        Command::TokenAdd { .. } => Ok(NUMBER_LEN),
        Command::Activate { user } => times(activated_count(slots, state, *user), token_len(slots)),
        Command::Arm => {
            let starts = times(state.session.captured.as_slice().len(), 2 * IV_LEN)?;
            starts.checked_add(2 * KEY_LEN).ok_or(Memory)
        }
        _ => Ok(0),
    }
}

/// How many bytes a command draws at this moment. A refused one draws none.
pub(crate) fn drawn_len(
    slots: u32,
    state: &State,
    command: &Command,
    moment: u64,
) -> Result<usize, Memory>
    ensures same { IfOk result (λ len. len ≡ drawn_len slots state.now command.now moment) }
{
    match refusal(slots, state, command, moment) {
        Some(_) => Ok(0),
        None => effect_len(slots, state, command),
    }
}
