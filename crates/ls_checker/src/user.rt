//! Whether a world holds of a row what it has to hold of a user.
ghost use Rattle.std.specs.Prelude.{◌≡◌, ◌↔◌, map, IsTrue, IfOk};
ghost use Rattle.std.specs.List.{AllZip, AllByRecursion};
ghost use Rattle.ls_record.specs.Rows.{IsRow};
ghost use Rattle.ls_vault.specs.Kinds.{is_pin};
ghost use Rattle.ls_vault.specs.Revealed.{shown_length};
ghost use Rattle.ls_sealing.specs.Protectors.{failures, held};
ghost use Rattle.ls_unsealing.specs.Parts.{held_by};
ghost use Rattle.ls_standing.specs.Named.{held_of_row, credential_of};
ghost use Rattle.ls_standing.specs.Standing.{SaysUser, HoldsUser};
ghost use Rattle.ls_checker.specs.Parts.{HoldsCredential, HoldsRest};

use crate::escrow::holds_tokens;
use crate::user_files::{holds_handle, holds_resume};
use ls_arming::Arming;
use ls_board::{Counter, World};
use ls_bytes::Memory;
use ls_credential::Kind;
use ls_record::UserRow;
use ls_unsealing::{HeldParts, Protector, Purpose, seals, shows_metrics};
use ls_vault::{Token, User};
use std::alloc::Global;

// ---- what the row says

/// Whether these are the ids of the tokens, in order.
fn are_ids_of(ids: &[u64], tokens: &[Token]) -> bool
    ensures same { IsTrue result ↔ (ids.now ≡ map (λ t. t.id) tokens.now) }
{
    match (ids, tokens) {
        ([], []) => true,
        ([id, ids @ ..], [token, tokens @ ..]) => *id == token.id && are_ids_of(ids, tokens),
        _ => false,
    }
}

fn is_pin(kind: Kind) -> bool
    ensures same { result ≡ is_pin kind }
{
    match kind {
        Kind::Pin => true,
        Kind::Empty | Kind::Pattern | Kind::Password => false,
    }
}

/// The length of the PIN that the lock screen knows, 0 for none.
fn shown_length(user: &User) -> usize
    ensures same { result ≡ shown_length user.now }
{
    let length = user.credential.text.as_slice().len();
    if user.auto && is_pin(user.credential.kind) && length >= 6 {
        length
    } else {
        0
    }
}

/// Whether the row says what the record keeps of the user.
fn says_user(row: &UserRow, user: &User) -> bool
    ensures decided { IsTrue result ↔ SaysUser row.now user.now }
{
    row.user == user.number
        && row.kind == user.credential.kind
        && row.escrow == user.escrow
        && row.auto == user.auto
        && row.pin as usize == shown_length(user)
        && row.secure == user.secure
        && are_ids_of(row.tokens.as_slice(), user.tokens.as_slice())
}

// ---- the credential

/// The failures of a protector: those of its slot or of its Gatekeeper record, else none.
fn failures(held: &HeldParts) -> Counter
    ensures same { result ≡ failures (held_by held.now) }
{
    let none = Counter { fails: 0, until: 0 };
    if held.weaver {
        match &held.slot {
            None => none,
            Some(slot) => Counter {
                fails: slot.fails,
                until: slot.until,
            },
        }
    } else {
        match held.counter {
            None => none,
            Some(counter) => counter,
        }
    }
}

/// Whether the failures are those of the user.
fn are_counted(held: &HeldParts, user: &User) -> bool
    ensures decided { IsTrue result
        ↔ (failures (held_by held.now) ≡ record { fails = user.now.fails; until = user.now.until }) }
{
    let failures = failures(held);
    failures.fails == user.fails && failures.until == user.until
}

/// Whether what is held of a credential's protector is sealed and counted for the user.
fn seals_credential(alloc: Global, id: u64, held: &HeldParts, user: &User) -> Result<bool, Memory>
    ensures decided { IfOk result (λ holds. IsTrue holds
        ↔ HoldsCredential id (held_by held.now) user.now) }
{
    let credential = &user.credential;
    let secret = &user.secret;
    Ok(
        are_counted(held, user)
            && seals(alloc, id, held, credential, secret)?
            && shows_metrics(alloc, held, credential, secret)?,
    )
}

/// Whether a world's protector of the user's credential is sealed and counted for the user.
fn holds_credential(
    alloc: Global,
    world: &World,
    row: &UserRow,
    user: &User,
) -> Result<bool, Memory>
    requires { IsRow row.now }
    ensures decided { IfOk result (λ holds. IsTrue holds
        ↔ HoldsCredential row.now.protector (held world.now (credential_of row.now)) user.now) }
{
    let protector = Protector {
        user: row.user,
        id: row.protector,
        purpose: Purpose::Credential(row.kind),
    };
    let parts = HeldParts::of(alloc, world, &protector)?;
    seals_credential(alloc, row.protector, &parts, user)
}

// ---- the user

/// Whether a world holds what it has to hold of the user beside the credential's protector.
fn holds_rest(
    alloc: Global,
    world: &World,
    armed: &Option<Arming>,
    row: &UserRow,
    user: &User,
) -> Result<bool, Memory>
    requires { IsRow row.now }
    ensures decided { IfOk result (λ holds. IsTrue holds
        ↔ HoldsRest (held_of_row world.now armed.now row.now) user.now) }
{
    Ok(
        holds_tokens(alloc, world, armed, row, user)?
            && holds_handle(alloc, world, armed, row, user)?
            && holds_resume(alloc, world, armed, row, user)?,
    )
}

/// Whether a world holds of a row what it has to hold of the user.
#[tactic(auto, using(crate::proofs::StandingLemmas::user_of_parts, crate::proofs::StandingLemmas::parts_of_user))]
fn holds_user(
    alloc: Global,
    world: &World,
    armed: &Option<Arming>,
    row: &UserRow,
    user: &User,
) -> Result<bool, Memory>
    requires { IsRow row.now }
    ensures decided { IfOk result (λ holds. IsTrue holds
        ↔ HoldsUser row.now (held_of_row world.now armed.now row.now) user.now) }
{
    if !says_user(row, user) {
        return Ok(false);
    }
    if !holds_credential(alloc, world, row, user)? {
        return Ok(false);
    }
    holds_rest(alloc, world, armed, row, user)
}

/// Whether a world holds of these rows what it has to hold of these users.
pub(crate) fn holds_users(
    alloc: Global,
    world: &World,
    armed: &Option<Arming>,
    rows: &[UserRow],
    users: &[User],
) -> Result<bool, Memory>
    requires { AllByRecursion IsRow rows.now }
    ensures decided { IfOk result (λ holds. IsTrue holds ↔ AllZip
        (λ row u. HoldsUser row (held_of_row world.now armed.now row) u) rows.now users.now) }
{
    let [row, rows @ ..] = rows else {
        return Ok(users.is_empty());
    };
    let [user, users @ ..] = users else {
        return Ok(false);
    };
    if !holds_user(alloc, world, armed, row, user)? {
        return Ok(false);
    }
    holds_users(alloc, world, armed, rows, users)
}
