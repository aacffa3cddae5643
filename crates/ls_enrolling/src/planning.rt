//! A new user is planned over a board: noise is drawn, and a protector is drafted.
ghost use Rattle.std.specs.Prelude.{◌≡◌, ◌≤◌, None, false, length, IfOk, IsTrue, OnOk};
ghost use Rattle.ls_board.specs.Acts.{Sight};
ghost use Rattle.ls_drawing.specs.Passing.{Passes};
ghost use Rattle.ls_record.specs.Rows.{IsRecord};
ghost use Rattle.ls_script.specs.declared.command.Command.TheVariants as command;
ghost use Rattle.ls_secret.specs.Secrets.{new_secret, IsSecret};
ghost use Rattle.ls_turn.specs.Refusing.{has_no_slot, own_refusal};
ghost use Rattle.ls_turn.specs.Serving.{CanServe};
ghost use Rattle.ls_enrolling.specs.Enrolling.{draw_len, first_half, second_half};
ghost use Rattle.ls_enrolling.specs.Planning.{IsPlan, IsChoice, IsReadyFor, MayCome, chosen_by};

use crate::drawn::{block_at, drawn_len, first_half, protector_bytes, second_half};
use crate::numbers::{Numbers, choose};
use crate::planned::{Planned, plan_besides};
use ls_board::{Board, BoardFault};
use ls_bytes::Memory;
use ls_credential::Credential;
use ls_drawing::draw;
use ls_placing::there_is_a_free_slot;
use ls_protector::draft_credential;
use ls_secret::Secret;
use ls_turn::Session;
use std::alloc::Global;

/// The secret of a new user, by the drawn bytes.
fn secret_of(alloc: Global, drawn: &[u8]) -> Result<Secret, Memory>
    requires drawn { 64 ≤ length drawn.now }
    ensures same { IfOk result (λ secret.
        secret ≡ new_secret (first_half drawn.now) (second_half drawn.now)) }
    ensures is_secret { IfOk result IsSecret }
{
    Secret::create(alloc, &first_half(drawn), &second_half(drawn))
}

/// Plans the new user by its secret, the numbers and the drawn bytes.
fn planned_with<B: Board>(
    board: &mut B,
    x: &Session,
    user: u32,
    escrow: bool,
    secret: &Secret,
    drawn: &[u8],
    n: &Numbers,
) -> Result<Planned, BoardFault>
    requires can { CanServe (B.sight board.old) x.now }
    requires rules { IsRecord x.now.settings.settled.rec }
    requires drawn { length drawn.now ≡ draw_len x.now.slots escrow }
    requires choice { IsChoice x.now (chosen_by user escrow drawn.now n.now) }
    requires secret { secret.now ≡ new_secret (first_half drawn.now) (second_half drawn.now) }
    ensures passes { Passes (B.sight board.old) result (B.sight board.new) }
    ensures same { IsTrue (B.sight board.old).told
        → OnOk result ((B.sight board.new).world ≡ (B.sight board.old).world) }
    ensures plan { IfOk result (IsPlan (B.sight board.new) x.now user escrow drawn.now) }
{
    let besides = match plan_besides(x.alloc, &x.settings, user, escrow, n.id, secret, drawn) {
        Ok(besides) => besides,
        Err(_) => return Err(BoardFault::Memory),
    };
    let none = match Credential::none(x.alloc) {
        Ok(none) => none,
        Err(_) => return Err(BoardFault::Memory),
    };
    let bytes = protector_bytes(drawn, escrow);
    match draft_credential(x.alloc, board, user, n.id, n.slot, secret, &none, bytes) {
        Ok(draft) => Ok(Planned {
            id: n.id,
            slot: n.slot,
            draft,
            others: besides.others,
            commit: besides.commit,
        }),
        Err(fault) => Err(fault),
    }
}

/// Plans the new user by the drawn bytes.
fn planned_by<B: Board>(
    board: &mut B,
    x: &Session,
    user: u32,
    escrow: bool,
    drawn: &[u8],
) -> Result<Planned, BoardFault>
    requires can { CanServe (B.sight board.old) x.now }
    requires may { MayCome x.now user }
    requires room { has_no_slot x.now ≡ false }
    requires drawn { length drawn.now ≡ draw_len x.now.slots escrow }
    ensures passes { Passes (B.sight board.old) result (B.sight board.new) }
    ensures same { IsTrue (B.sight board.old).told
        → OnOk result ((B.sight board.new).world ≡ (B.sight board.old).world) }
    ensures plan { IfOk result (IsPlan (B.sight board.new) x.now user escrow drawn.now) }
{
    there_is_a_free_slot();
    let n = match choose(x, drawn, block_at(escrow) as usize) {
        Ok(n) => n,
        Err(_) => return Err(BoardFault::Memory),
    };
    match secret_of(x.alloc, drawn) {
        Ok(secret) => planned_with(board, x, user, escrow, &secret, drawn, &n),
        Err(_) => Err(BoardFault::Memory),
    }
}

/// Knows the record by its rules.
fn known_rules(x: &Session)
    ensures rules { IsRecord x.now.settings.settled.rec }
{
    let _record = x.settings.record();
}

/// Plans a user who isn't refused: draws what it takes, chooses an id and a slot, and drafts the
/// protector. Nothing that is stored is changed.
pub(crate) fn planned<B: Board>(
    board: &mut B,
    x: &Session,
    user: u32,
    escrow: bool,
) -> Result<Planned, BoardFault>
    requires can { CanServe (B.sight board.old) x.now }
    requires goes { own_refusal x.now (command.Add user escrow) ≡ None }
    ensures passes { Passes (B.sight board.old) result (B.sight board.new) }
    ensures plan { IfOk result
        (IsReadyFor (B.sight board.old) (B.sight board.new) x.now user escrow) }
{
    known_rules(x);
    let drawn = match draw(x.alloc, board, drawn_len(x.slots, escrow)) {
        Ok(drawn) => drawn,
        Err(fault) => return Err(fault),
    };
    planned_by(board, x, user, escrow, drawn.as_slice())
}
