//! Protectors that are built on a board.
ghost use Rattle.std.specs.Prelude.{◌≡◌, ◌≤◌, ◌<◌, ℕ, is_some, length, IfOk, IfSome};
ghost use Rattle.ls_board.specs.declared.world.World.{World as Worlds};
ghost use Rattle.ls_board.specs.Acts.{Sight};
ghost use Rattle.ls_board.specs.Runs.{AllApply, AllSound};
ghost use Rattle.ls_sealing.specs.Draws.{credential_draw_size, token_draw_size};

use crate::building::drawn::{drawn, salt_of};
use crate::building::sizes::{credential_draw_size, token_draw_size};
use crate::building::{P0, PROTECTOR, TOKEN, USER};
use crate::fault::RowFault;
use ls_board::{Action, Answer, Board, Plan};
use ls_bytes::{Bytes, Memory};
use ls_credential::{Credential, Kind};
use ls_fixtures::{act_with_room, run_with_room};
use ls_sealing::{
    Place, credential_plan, gatekeeper_password, protectors_are_written_by_plans, stretched,
    token_plan,
};
use ls_secret::Secret;
use ls_vault::{Token, User};
use std::alloc::Global;

/// The slot of this number, where the board has Weaver.
fn slot_of<B: Board>(board: &B, number: u32) -> Result<Option<u32>, RowFault>
    ensures fits { IfOk result (λ slot. IfSome slot (λ n. n < (B.sight board.now).slots)) }
{
    if board.slots() == 0 {
        Ok(None)
    } else if number < board.slots() {
        Ok(Some(number))
    } else {
        Err(RowFault::Form)
    }
}

/// The handle of a password for this id.
pub fn sign<B: Board>(
    alloc: Global,
    board: &mut B,
    sid: u64,
    password: &[u8],
) -> Result<[u8; 49], RowFault> {
    let action = Action::GkSign {
        sid,
        salt: 77,
        password: Bytes::of(alloc, password)?,
    };
    match act_with_room(alloc, board, &action, &mut Vec::new(alloc))? {
        Ok(Answer::Handle(handle)) => Ok(handle),
        _ => Err(RowFault::Form),
    }
}

// ---- the credential's protector

/// The stretched text of a credential, with the salt that is drawn.
fn stretched_text(alloc: Global, credential: &Credential) -> Result<[u8; 32], RowFault> {
    let drawn = drawn(alloc, 72)?;
    Ok(stretched(alloc, credential, &salt_of(&drawn))?)
}

/// The handle of the `pwd` file, where it has one.
fn pwd_handle<B: Board>(
    alloc: Global,
    board: &mut B,
    credential: &Credential,
) -> Result<Option<[u8; 49]>, RowFault> {
    if board.slots() > 0 || credential.kind == Kind::Empty {
        return Ok(None);
    }
    let text = stretched_text(alloc, credential)?;
    let handle = sign(alloc, board, PROTECTOR, &gatekeeper_password(&text))?;
    Ok(Some(handle))
}

/// The plan that builds it. Any board with its slot may run it in any world.
fn plan_for_credential(
    alloc: Global,
    place: &Place,
    credential: &Credential,
    secret: &Secret,
    drawn: &[u8],
    handle: &Option<[u8; 49]>,
) -> Result<Plan, Memory>
    requires id { 0 < place.now.id }
    requires drawn { length drawn.now ≡
        credential_draw_size (is_some place.now.slot) credential.now.kind }
    requires salt { 72 ≤ length drawn.now }
    ensures sound { IfOk result (λ plan. (slots : ℕ)
        → IfSome place.now.slot (λ n. n < slots) → AllSound slots plan) }
    ensures applies { IfOk result (λ plan. (w : Worlds) → AllApply w plan) }
{
    let text = stretched(alloc, credential, &salt_of(drawn))?;
    let plan = credential_plan(alloc, place, credential, secret, drawn, &text, handle)?;
    protectors_are_written_by_plans();
    Ok(plan)
}

/// The plan that builds it on this board.
fn credential_plan_on<B: Board>(
    alloc: Global,
    board: &B,
    user: &User,
    handle: &Option<[u8; 49]>,
) -> Result<Plan, RowFault>
    ensures sound { IfOk result (AllSound (B.sight board.now).slots) }
    ensures applies { IfOk result (λ plan. (w : Worlds) → AllApply w plan) }
{
    let slot = slot_of(board, 1)?;
    let drawn = drawn(alloc, credential_draw_size(slot, user.credential.kind))?;
    let place = Place {
        user: USER,
        id: PROTECTOR,
        slot,
    };
    Ok(plan_for_credential(
        alloc,
        &place,
        &user.credential,
        &user.secret,
        &drawn,
        handle,
    )?)
}

/// Runs a plan with the room for it.
fn run<B: Board>(alloc: Global, board: &mut B, plan: &Plan) -> Result<(), RowFault>
    requires sound { AllSound (B.sight board.old).slots plan.now }
    requires applies { (w : Worlds) → AllApply w plan.now }
{
    match run_with_room(alloc, board, plan)? {
        Ok(()) => Ok(()),
        Err(_) => Err(RowFault::Form),
    }
}

/// Builds it.
fn build_credential<B: Board>(alloc: Global, board: &mut B, user: &User) -> Result<(), RowFault> {
    let handle = pwd_handle(alloc, board, &user.credential)?;
    let plan = credential_plan_on(alloc, board, user, &handle)?;
    run(alloc, board, &plan)
}

// ---- the token's protector

/// The plan that builds it. Any board with its slot may run it in any world.
fn plan_for_token(
    alloc: Global,
    place: &Place,
    token: &[u8],
    version: u8,
    p0: &[u8; 32],
    drawn: &[u8],
) -> Result<Plan, Memory>
    requires id { 0 < place.now.id }
    requires version { (2 ≤ version) × (version ≤ 3) }
    requires drawn { length drawn.now ≡ token_draw_size (is_some place.now.slot) }
    ensures sound { IfOk result (λ plan. (slots : ℕ)
        → IfSome place.now.slot (λ n. n < slots) → AllSound slots plan) }
    ensures applies { IfOk result (λ plan. (w : Worlds) → AllApply w plan) }
{
    let plan = token_plan(alloc, place, token, version, p0, drawn)?;
    protectors_are_written_by_plans();
    Ok(plan)
}

/// The plan that builds it on this board.
fn token_plan_on<B: Board>(
    alloc: Global,
    board: &B,
    version: u8,
    token: &[u8],
) -> Result<Plan, RowFault>
    requires version { (2 ≤ version) × (version ≤ 3) }
    ensures sound { IfOk result (AllSound (B.sight board.now).slots) }
    ensures applies { IfOk result (λ plan. (w : Worlds) → AllApply w plan) }
{
    let slot = slot_of(board, 2)?;
    let drawn = drawn(alloc, token_draw_size(slot))?;
    let place = Place {
        user: USER,
        id: TOKEN,
        slot,
    };
    Ok(plan_for_token(alloc, &place, token, version, &P0, &drawn)?)
}

/// Builds it.
fn build_token<B: Board>(
    alloc: Global,
    board: &mut B,
    version: u8,
    token: &[u8],
) -> Result<(), RowFault>
    requires version { (2 ≤ version) × (version ≤ 3) }
{
    let plan = token_plan_on(alloc, board, version, token)?;
    run(alloc, board, &plan)
}

// ---- both

/// Builds the protectors of a user with one token or none.
pub fn build<B: Board>(alloc: Global, board: &mut B, user: &User) -> Result<(), RowFault> {
    build_credential(alloc, board, user)?;
    let version = user.secret.version();
    match user.tokens.as_slice() {
        [] => Ok(()),
        [token] if version == 2 || version == 3 => {
            build_token(alloc, board, version, token.bytes.as_slice())
        }
        _ => Err(RowFault::Form),
    }
}
