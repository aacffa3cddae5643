//! A change is planned over a board: noise is drawn, and the Gatekeeper may be asked for handles.
ghost use Rattle.std.specs.Prelude.{◌≡◌, ◌≢◌, ◌<◌, None, false, length, IfOk, IsTrue, OnOk};
ghost use Rattle.std.specs.List.{Contains};
ghost use Rattle.ls_board.specs.Acts.{Sight};
ghost use Rattle.ls_credential.specs.Rules.{fault_of};
ghost use Rattle.ls_record.specs.Rows.{IsRecord};
ghost use Rattle.ls_turn.specs.Refusing.{has_no_slot};
ghost use Rattle.ls_formats.specs.declared.parts.Parts.{Parts as PartsOf};
ghost use Rattle.ls_placing.specs.Placing.{slots_of};
ghost use Rattle.ls_sealing.specs.Protectors.{Protector};
ghost use Rattle.ls_standing.specs.NamedProtectors.{NamesProtector};
ghost use Rattle.ls_turn.specs.Serving.{CanServe, IsKeptAs};
ghost use Rattle.ls_drawing.specs.Passing.{Passes};
ghost use Rattle.ls_changing.specs.Planning.{IsPlan, IsChoice, IsDrawnFor, draw_len};

use crate::drawn::{drawn_len, handle_salt, own_len, protector_bytes};
use crate::handles::own_handle;
use crate::numbers::{Numbers, choose, is_first, taken_by};
use crate::own::comes;
use crate::planned::{Planned, plan_besides};
use ls_board::{Board, BoardFault};
use ls_bytes::Memory;
use ls_credential::Credential;
use ls_drawing::draw;
use ls_edits::counts_are_small;
use ls_placing::{new_places_are_free, there_is_a_free_slot};
use ls_protector::draft_credential;
use ls_record::UserRow;
use ls_secret::Secret;
use ls_turn::Session;

/// A credential keeps the rule of its kind.
fn keeps_rule(new: &Credential)
    ensures rule { fault_of new.now.kind new.now.text ≡ None }
{
    let _kind = new.kind;
}

/// Chooses the numbers by the drawn bytes.
fn chosen(x: &Session, row: &UserRow, new: &Credential, drawn: &[u8]) -> Result<Numbers, Memory>
    requires each { (p : Protector) → NamesProtector x.now.settings.settled.rec p
        → (q : PartsOf) × Contains x.now.named.items q × IsKeptAs x.now.slots p q }
    requires rules { IsRecord x.now.settings.settled.rec }
    requires here { Contains x.now.settings.settled.rec.users row.now }
    requires room { x.now.slots ≢ 0 → length (slots_of x.now.named.items) < x.now.slots }
    requires drawn { length drawn.now ≡ draw_len x.now.slots row.now new.now }
    ensures choice { IfOk result (IsChoice x.now row.now new.now drawn.now) }
{
    let taken = taken_by(x)?;
    keeps_rule(new);
    counts_are_small(new);
    new_places_are_free();
    let first = is_first(row.kind, new.kind);
    Ok(choose(
        x.slots,
        row,
        new.kind,
        drawn,
        own_len(first) as usize,
        &taken,
    ))
}

/// Plans the change by numbers and drawn bytes.
fn planned_with<B: Board>(
    board: &mut B,
    x: &Session,
    row: &UserRow,
    secret: &Secret,
    new: &Credential,
    drawn: &[u8],
    n: &Numbers,
) -> Result<Planned, BoardFault>
    requires can { CanServe (B.sight board.old) x.now }
    requires rules { IsRecord x.now.settings.settled.rec }
    requires drawn { length drawn.now ≡ draw_len x.now.slots row.now new.now }
    requires choice { IsChoice x.now row.now new.now drawn.now n.now }
    ensures passes { Passes (B.sight board.old) result (B.sight board.new) }
    ensures same { IsTrue (B.sight board.old).told
        → OnOk result ((B.sight board.new).world ≡ (B.sight board.old).world) }
    ensures plan { IfOk result
        (IsPlan (B.sight board.new) x.now row.now new.now secret.now drawn.now) }
{
    let first = is_first(row.kind, new.kind);
    let salt = handle_salt(drawn);
    let handle = match own_handle(
        x.alloc,
        board,
        comes(row.secure, n.secure),
        n.secure,
        salt,
        secret,
    ) {
        Ok(handle) => handle,
        Err(fault) => return Err(fault),
    };
    let besides = match plan_besides(x.alloc, &x.settings, row, new, n, &handle) {
        Ok(besides) => besides,
        Err(_) => return Err(BoardFault::Memory),
    };
    let bytes = protector_bytes(drawn, first);
    match draft_credential(x.alloc, board, row.user, n.id, n.slot, secret, new, bytes) {
        Ok(draft) => Ok(Planned {
            gone: row.protector,
            id: n.id,
            slot: n.slot,
            secure: n.secure,
            draft,
            others: besides.others,
            commit: besides.commit,
            after: besides.after,
        }),
        Err(fault) => Err(fault),
    }
}

/// Plans the change by drawn bytes.
fn planned_by<B: Board>(
    board: &mut B,
    x: &Session,
    row: &UserRow,
    secret: &Secret,
    new: &Credential,
    drawn: &[u8],
) -> Result<Planned, BoardFault>
    requires can { CanServe (B.sight board.old) x.now }
    requires rules { IsRecord x.now.settings.settled.rec }
    requires here { Contains x.now.settings.settled.rec.users row.now }
    requires room { has_no_slot x.now ≡ false }
    requires drawn { length drawn.now ≡ draw_len x.now.slots row.now new.now }
    ensures passes { Passes (B.sight board.old) result (B.sight board.new) }
    ensures same { IsTrue (B.sight board.old).told
        → OnOk result ((B.sight board.new).world ≡ (B.sight board.old).world) }
    ensures plan { IfOk result
        (IsPlan (B.sight board.new) x.now row.now new.now secret.now drawn.now) }
{
    there_is_a_free_slot();
    match chosen(x, row, new, drawn) {
        Ok(n) => planned_with(board, x, row, secret, new, drawn, &n),
        Err(_) => Err(BoardFault::Memory),
    }
}

/// Plans the change that gives the user of a row another credential: draws what it takes, chooses an
/// id, a slot and a secure id, and drafts the new protector. Nothing that is stored is changed.
pub(crate) fn planned<B: Board>(
    board: &mut B,
    x: &Session,
    row: &UserRow,
    secret: &Secret,
    new: &Credential,
) -> Result<Planned, BoardFault>
    requires can { CanServe (B.sight board.old) x.now }
    requires rules { IsRecord x.now.settings.settled.rec }
    requires here { Contains x.now.settings.settled.rec.users row.now }
    requires room { has_no_slot x.now ≡ false }
    ensures passes { Passes (B.sight board.old) result (B.sight board.new) }
    ensures plan { IfOk result
        (IsDrawnFor (B.sight board.old) (B.sight board.new) x.now row.now new.now secret.now) }
{
    let first = is_first(row.kind, new.kind);
    let drawn = match draw(x.alloc, board, drawn_len(x.slots, first, new.kind)) {
        Ok(drawn) => drawn,
        Err(fault) => return Err(fault),
    };
    planned_by(board, x, row, secret, new, drawn.as_slice())
}
