//! The draft of a credential's protector.
ghost use Rattle.std.specs.Prelude.{◌≡◌, ◌≤◌, ◌<◌, false, true, length, is_some, IfOk, MatchOption};
ghost use Rattle.byteorder.specs.Endian.{big_number};
ghost use Rattle.ls_board.specs.Acts.{Sight};
ghost use Rattle.ls_board.specs.Gatekeeper.{signed};
ghost use Rattle.ls_reading.specs.Reading.{Sees};
ghost use Rattle.ls_record.specs.Rows.{is_protector_id};
ghost use Rattle.ls_sealing.specs.Building.{for_credential, new_handle, new_stretched};
ghost use Rattle.ls_sealing.specs.Draws.{piece, credential_draw, credential_draw_size};
ghost use Rattle.ls_sealing.specs.Protectors.{credential as for_kind, is_enrolled};
ghost use Rattle.ls_protector.specs.Drafts.{drafted, signed_draft, IsSignedDraft, MayBeAsked};

use crate::parts::{is_enrolled, parts_for_credential};
use crate::states::Draft;
use byteorder::{BigEndian, ByteOrder};
use ls_board::{Action, Answer, Board, BoardFault};
use ls_bytes::{Bytes, Memory};
use ls_credential::Credential;
use ls_sealing::{Place, credential_plan, gatekeeper_password, stretched};
use ls_secret::Secret;
use std::alloc::Global;

// ---- what is drawn

/// The salt of the stretched text.
fn text_salt(drawn: &[u8]) -> [u8; 16]
    requires drawn { 72 ≤ length drawn.now }
    ensures same { result ≡ piece 56 16 drawn.now }
{
    let mut salt = [0; 16];
    salt.copy_from_slice(&drawn[56..72]);
    salt
}

/// The salt of the handle.
fn handle_salt(drawn: &[u8]) -> u64
    requires drawn { 16476 ≤ length drawn.now }
    ensures same { result ≡ big_number 8 (piece 16468 8 drawn.now) }
{
    BigEndian::read_u64(&drawn[16468..16476])
}

// ---- the handle

/// The Gatekeeper's handle of a password for this id, by its action.
fn sign_by<B: Board>(
    alloc: Global,
    board: &mut B,
    sid: u64,
    salt: u64,
    password: &[u8],
    sign: &Action,
) -> Result<[u8; 49], BoardFault>
    requires signs { sign.now ≡ Action.GkSign sid salt password.now }
    ensures sees { Sees (λ w. signed w.gk_key sid salt password.now)
        (B.sight board.old) result (B.sight board.new) }
{
    board.ready(alloc, 1, 0)?;
    let mut out = Vec::new(alloc);
    match board.act(sign, &mut out) {
        Ok(Answer::Handle(handle)) => Ok(handle),
        Ok(_) => unreachable!(),
        Err(fault) => Err(fault),
    }
}

/// The Gatekeeper's handle of a password for this id, version 1 and 49 bytes, with this salt. It is
/// only made: the Gatekeeper keeps nothing by it.
pub fn sign<B: Board>(
    alloc: Global,
    board: &mut B,
    sid: u64,
    salt: u64,
    password: &[u8],
) -> Result<[u8; 49], BoardFault>
    ensures sees { Sees (λ w. signed w.gk_key sid salt password.now)
        (B.sight board.old) result (B.sight board.new) }
{
    let sign = Action::GkSign {
        sid,
        salt,
        password: Bytes::of(alloc, password)?,
    };
    sign_by(alloc, board, sid, salt, password, &sign)
}

/// The handle of the `pwd` file. The Gatekeeper is asked where the protector is to have a record
/// with it, and else there is none.
fn handle_for<B: Board>(
    alloc: Global,
    board: &mut B,
    place: &Place,
    credential: &Credential,
    drawn: &[u8],
    stretched: &[u8; 32],
) -> Result<Option<[u8; 49]>, BoardFault>
    requires drawn { length drawn.now ≡
        credential_draw_size (is_some place.now.slot) credential.now.kind }
    requires stretched { stretched.now ≡
        new_stretched credential.now (credential_draw credential.now.kind drawn.now) }
    ensures sees { Sees (λ w. new_handle place.now.id place.now.slot credential.now
        (credential_draw credential.now.kind drawn.now) w.gk_key)
        (B.sight board.old) result (B.sight board.new) }
    ensures given { IfOk result (λ handle. is_some handle ≡
        is_enrolled (is_some place.now.slot) (for_kind credential.now.kind)) }
    ensures unasked { is_enrolled (is_some place.now.slot) (for_kind credential.now.kind) ≡ false
        → B.sight board.new ≡ B.sight board.old }
{
    if !is_enrolled(place.slot, credential.kind) {
        return Ok(None);
    }
    let password = gatekeeper_password(stretched);
    let handle = sign(alloc, board, place.id, handle_salt(drawn), &password)?;
    Ok(Some(handle))
}

// ---- the draft

/// The draft, where this is the stretched text, and this the handle of the `pwd` file.
fn draft_by(
    alloc: Global,
    place: &Place,
    credential: &Credential,
    secret: &Secret,
    drawn: &[u8],
    stretched: &[u8; 32],
    handle: &Option<[u8; 49]>,
) -> Result<Draft, Memory>
    requires id { 0 < place.now.id }
    requires drawn { length drawn.now ≡
        credential_draw_size (is_some place.now.slot) credential.now.kind }
    requires stretched { stretched.now ≡
        new_stretched credential.now (credential_draw credential.now.kind drawn.now) }
    ensures same { IfOk result (λ draft. draft ≡ signed_draft place.now.user place.now.id
        place.now.slot credential.now secret.now drawn.now handle.now) }
{
    let plan = credential_plan(alloc, place, credential, secret, drawn, stretched, handle)?;
    let parts = parts_for_credential(alloc, place, credential.kind)?;
    Ok(Draft::of(parts, plan))
}

/// The draft of a new protector that seals the secret for a credential, by the drawn bytes behind
/// its id. The Gatekeeper is asked for the handle of the `pwd` file where the board has no slots and
/// there is a credential; else no action is done. Nothing of the world changes. It makes the room
/// for its one call.
pub fn draft_credential<B: Board>(
    alloc: Global,
    board: &mut B,
    user: u32,
    id: u64,
    slot: Option<u32>,
    secret: &Secret,
    credential: &Credential,
    drawn: &[u8],
) -> Result<Draft, BoardFault>
    // It is even, and not 0.
    requires id { is_protector_id id ≡ true }
    requires slot { MatchOption slot ((B.sight board.old).slots ≡ 0)
        (λ n. n < (B.sight board.old).slots) }
    requires drawn { length drawn.now ≡ credential_draw_size (is_some slot) credential.now.kind }
    // Where the world is told, it is the draft by the key of the world's Gatekeeper.
    ensures drafts { Sees (λ w. drafted user id slot (for_credential credential.now secret.now)
        drawn.now w.gk_key) (B.sight board.old) result (B.sight board.new) }
    // On every board it is that by the handle that the board gave.
    ensures made { IfOk result
        (IsSignedDraft user id slot credential.now secret.now drawn.now) }
    ensures asked { IfOk result (λ draft. MayBeAsked (B.sight board.old).slots draft.plan) }
    ensures unasked { is_enrolled (is_some slot) (for_kind credential.now.kind) ≡ false
        → B.sight board.new ≡ B.sight board.old }
{
    let place = Place { user, id, slot };
    let stretched = stretched(alloc, credential, &text_salt(drawn))?;
    let handle = handle_for(alloc, board, &place, credential, drawn, &stretched)?;
    let draft = draft_by(
        alloc, &place, credential, secret, drawn, &stretched, &handle,
    )?;
    Ok(draft)
}
