//! Whether a world holds the halves of a user's secret, and its tokens.
ghost use Rattle.std.specs.Prelude.{◌≡◌, ◌==◌, ◌↔◌, [], map, false, IsTrue, IfOk, IsSomeAnd, MatchBool};
ghost use Rattle.std.specs.Option.{option_and_then};
ghost use Rattle.std.specs.List.{AllZip, AllByRecursion};
ghost use Rattle.ls_formats.specs.declared.part.FilePart.TheVariants.{E0, P1};
ghost use Rattle.ls_record.specs.Rows.{IsRow};
ghost use Rattle.ls_secret.specs.Escrow.{opened_e0};
ghost use Rattle.ls_sealing.specs.Protectors.{held};
ghost use Rattle.ls_sealing.specs.Seals.{SealsToken, CompletesTo};
ghost use Rattle.ls_unsealing.specs.Parts.{held_by};
ghost use Rattle.ls_standing.specs.Named.{held_of_row, held_of_user, token_of};
ghost use Rattle.ls_standing.specs.Standing.{HoldsEscrow};

use crate::user_files::user_file;
use ls_arming::Arming;
use ls_blob::opened_under;
use ls_board::World;
use ls_bytes::{Bytes, Memory};
use ls_formats::FilePart;
use ls_record::UserRow;
use ls_secret::Secret;
use ls_unsealing::{HeldParts, Protector, Purpose, completes, seals_token};
use ls_vault::{Token, User};
use std::alloc::Global;

/// What the `e0` file opens to under the secret, if it is there and opens.
fn opened_e0(alloc: Global, secret: &Secret, e0: &Option<Bytes>) -> Result<Option<Bytes>, Memory>
    ensures same { IfOk result (λ p0. p0 ≡ option_and_then (opened_e0 secret.now) e0.now) }
{
    let Some(e0) = e0 else {
        return Ok(None);
    };
    opened_under(alloc, secret.sp_text(), b"e0-encryption", e0.as_slice())
}

/// What a world holds of the protector of a token.
fn token_parts(alloc: Global, world: &World, row: &UserRow, id: u64) -> Result<HeldParts, Memory>
    requires { (id == 0) ≡ false }
    ensures held { IfOk result (λ parts. held_by parts ≡ held world.now (token_of row.now id)) }
{
    let protector = Protector {
        user: row.user,
        id,
        purpose: Purpose::Token,
    };
    HeldParts::of(alloc, world, &protector)
}

/// Whether the protector of a token's id seals the first half of the secret for the token.
fn seals_one(
    alloc: Global,
    world: &World,
    row: &UserRow,
    id: u64,
    p1: &Option<Bytes>,
    token: &Token,
    secret: &Secret,
    p0: &[u8],
) -> Result<bool, Memory>
    requires { (id == 0) ≡ false }
    ensures decided { IfOk result (λ seals. IsTrue seals ↔ SealsToken
        (held world.now (token_of row.now id)) p1.now token.now.bytes secret.now p0.now) }
{
    let held = token_parts(alloc, world, row, id)?;
    seals_token(alloc, &held, p1, token.bytes.as_slice(), secret, p0)
}

/// Whether the protectors of these ids seal the first half of the secret for these tokens.
fn seal_all(
    alloc: Global,
    world: &World,
    row: &UserRow,
    ids: &[u64],
    p1: &Option<Bytes>,
    tokens: &[Token],
    secret: &Secret,
    p0: &[u8],
) -> Result<bool, Memory>
    requires { AllByRecursion (λ id. (id == 0) ≡ false) ids.now }
    ensures decided { IfOk result (λ seal. IsTrue seal
        ↔ AllZip (λ id t. SealsToken (held world.now (token_of row.now id)) p1.now t.bytes
        secret.now p0.now) ids.now tokens.now) }
{
    let [id, ids @ ..] = ids else {
        return Ok(tokens.is_empty());
    };
    let [token, tokens @ ..] = tokens else {
        return Ok(false);
    };
    if !seals_one(alloc, world, row, *id, p1, token, secret, p0)? {
        return Ok(false);
    }
    seal_all(alloc, world, row, ids, p1, tokens, secret, p0)
}

/// Whether the second half completes the first one to the user's secret, and the first one is
/// sealed for its tokens.
fn halves_hold(
    alloc: Global,
    world: &World,
    row: &UserRow,
    p0: &[u8],
    p1: &Option<Bytes>,
    user: &User,
) -> Result<bool, Memory>
    requires { IsRow row.now }
    ensures decided { IfOk result (λ hold. IsTrue hold
        ↔ (IsSomeAnd p1.now (CompletesTo user.now.secret p0.now)
        × AllZip (λ held t. SealsToken held p1.now t.bytes user.now.secret p0.now)
        (map (λ id. held world.now (token_of row.now id)) row.now.tokens) user.now.tokens)) }
{
    if !completes(alloc, p0, p1, &user.secret)? {
        return Ok(false);
    }
    let ids = row.tokens.as_slice();
    seal_all(
        alloc,
        world,
        row,
        ids,
        p1,
        user.tokens.as_slice(),
        &user.secret,
        p0,
    )
}

/// Whether a world holds both halves of the user's secret, and seals the first one for its tokens.
fn holds_escrow(
    alloc: Global,
    world: &World,
    armed: &Option<Arming>,
    row: &UserRow,
    user: &User,
) -> Result<bool, Memory>
    requires { IsRow row.now }
    ensures decided { IfOk result (λ holds. IsTrue holds ↔ HoldsEscrow
        (held_of_user world.now armed.now row.now)
        (held_of_row world.now armed.now row.now).tokens user.now) }
{
    let e0 = user_file(alloc, world, armed, row, FilePart::E0)?;
    let p1 = user_file(alloc, world, armed, row, FilePart::P1)?;
    match opened_e0(alloc, &user.secret, &e0)? {
        None => Ok(false),
        Some(p0) => halves_hold(alloc, world, row, p0.as_slice(), &p1, user),
    }
}

/// Whether a world holds what it has to hold for the user's tokens. Without escrow there is none.
pub(crate) fn holds_tokens(
    alloc: Global,
    world: &World,
    armed: &Option<Arming>,
    row: &UserRow,
    user: &User,
) -> Result<bool, Memory>
    requires { IsRow row.now }
    ensures decided { IfOk result (λ holds. IsTrue holds ↔ MatchBool user.now.escrow
        (HoldsEscrow (held_of_user world.now armed.now row.now)
        (held_of_row world.now armed.now row.now).tokens user.now)
        (user.now.tokens ≡ [])) }
{
    if user.escrow {
        holds_escrow(alloc, world, armed, row, user)
    } else {
        Ok(user.tokens.as_slice().is_empty())
    }
}
