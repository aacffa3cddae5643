//! The activation of tokens is planned over a board: the half of the secret is read, and noise is drawn.
ghost use Rattle.std.specs.Prelude.{◌≡◌, ◌≢◌, ◌≤◌, ◌*◌, ◌+◌, true, length, drop, None, IfOk, OnOk, IsTrue};
ghost use Rattle.std.specs.List.{Contains};
ghost use Rattle.ls_board.specs.Acts.{Sight};
ghost use Rattle.ls_drawing.specs.Passing.{Passes};
ghost use Rattle.ls_edits.specs.Rows.{with_more_tokens};
ghost use Rattle.ls_formats.specs.Contents.{AreBytes};
ghost use Rattle.ls_placing.specs.Placing.{slots_of};
ghost use Rattle.ls_record.specs.declared.edit.Edit.TheVariants.{PutRow};
ghost use Rattle.ls_record.specs.Edits.{MayChange};
ghost use Rattle.ls_record.specs.Rows.{IsRecord, is_odd};
ghost use Rattle.ls_script.specs.declared.command.Command.TheVariants as command;
ghost use Rattle.ls_turn.specs.declared.session.Opened.{Opened as OpenedOf};
ghost use Rattle.ls_turn.specs.declared.session.Pending.{Pending as PendingOf};
ghost use Rattle.ls_turn.specs.Agreeing.{retired_files};
ghost use Rattle.ls_turn.specs.Refusing.{own_refusal};
ghost use Rattle.ls_turn.specs.Serving.{CanServe};
ghost use Rattle.ls_vault.specs.Drawn.{token_len};
ghost use Rattle.ls_activating.specs.Activating.{SayNone};
ghost use Rattle.ls_activating.specs.Counting.{chosen_for, count_for, token_ids};
ghost use Rattle.ls_activating.specs.Planning.{AreDrafts, IsEntry, IsPlan, IsPlanFrom, IsReadyFor, PassesTo};

use crate::choosing::ids_of;
use crate::counting::drawn_len;
use crate::drafting::push_drafts;
use crate::halves::half;
use crate::planned::Planned;
use crate::rows::commit_row;
use ls_board::{Board, BoardFault};
use ls_bytes::Memory;
use ls_chain::ChainFault;
use ls_drawing::draw;
use ls_placing::taken_slots;
use ls_protector::Draft;
use ls_record::UserRow;
use ls_secret::Secret;
use ls_turn::{Pending, Session, find_entry};

/// Lets each go, with nothing done.
fn discard_all(mut drafts: Vec<Draft>) {
    while let Some(draft) = drafts.pop() {
        draft.discard();
    }
    drafts.destroy_empty();
}

/// The drafts of the protectors of these tokens.
fn drafts_for(
    x: &Session,
    user: u32,
    version: u8,
    p0: &[u8; 32],
    tokens: &[Pending],
    drawn: &[u8],
) -> Result<Vec<Draft>, Memory>
    requires room { x.now.slots ≢ 0
        → length (slots_of x.now.named.items) + length tokens.now ≤ x.now.slots }
    requires version { (2 ≤ version) × (version ≤ 3) }
    requires odd { (p : PendingOf) → Contains tokens.now p → is_odd p.id ≡ true }
    requires drawn { length drawn.now ≡ length tokens.now * token_len x.now.slots }
    ensures drafts { IfOk result (λ drafts. AreDrafts x.now.slots user version p0.now
        (slots_of x.now.named.items) tokens.now drafts.items) }
{
    let mut taken = match taken_slots(x.alloc, &x.named) {
        Ok(taken) => taken,
        Err(memory) => return Err(memory),
    };
    let mut drafts = match Vec::with_capacity(x.alloc, tokens.len()) {
        Ok(drafts) => drafts,
        Err(_) => return Err(Memory),
    };
    let slots = x.slots;
    match push_drafts(
        x.alloc,
        &mut drafts,
        &mut taken,
        slots,
        user,
        version,
        p0,
        tokens,
        drawn,
    ) {
        Ok(()) => Ok(drafts),
        Err(memory) => {
            discard_all(drafts);
            Err(memory)
        }
    }
}

/// Plans the activation by the half of the secret and drawn bytes.
fn planned_by(
    x: &Session,
    row: &UserRow,
    version: u8,
    p0: &[u8; 32],
    tokens: &[Pending],
    drawn: &[u8],
) -> Result<Planned, Memory>
    requires may { MayChange x.now.settings.settled.rec
        (PutRow (with_more_tokens (token_ids tokens.now) row.now)) }
    requires room { x.now.slots ≢ 0
        → length (slots_of x.now.named.items) + length tokens.now ≤ x.now.slots }
    requires version { (2 ≤ version) × (version ≤ 3) }
    requires odd { (p : PendingOf) → Contains tokens.now p → is_odd p.id ≡ true }
    requires drawn { length drawn.now ≡ length tokens.now * token_len x.now.slots }
    ensures plan { IfOk result (IsPlan x.now row.now tokens.now version p0.now) }
{
    let ids = match ids_of(x.alloc, tokens) {
        Ok(ids) => ids,
        Err(memory) => return Err(memory),
    };
    let commit = match commit_row(x.alloc, &x.settings, row, &ids) {
        Ok(commit) => commit,
        Err(_) => return Err(Memory),
    };
    match drafts_for(x, row.user, version, p0, tokens, drawn) {
        Ok(drafts) => Ok(Planned {
            ids,
            drafts,
            commit,
        }),
        Err(memory) => Err(memory),
    }
}

/// Draws what it takes, and plans the activation by the half of the secret.
fn planned_with<B: Board>(
    board: &mut B,
    x: &Session,
    row: &UserRow,
    version: u8,
    p0: &[u8; 32],
    tokens: &[Pending],
) -> Result<Planned, BoardFault>
    requires few { length tokens.now ≤ 8 }
    requires may { MayChange x.now.settings.settled.rec
        (PutRow (with_more_tokens (token_ids tokens.now) row.now)) }
    requires room { x.now.slots ≢ 0
        → length (slots_of x.now.named.items) + length tokens.now ≤ x.now.slots }
    requires version { (2 ≤ version) × (version ≤ 3) }
    requires odd { (p : PendingOf) → Contains tokens.now p → is_odd p.id ≡ true }
    ensures passes { Passes (B.sight board.old) result (B.sight board.new) }
    ensures plan { IfOk result (IsPlan x.now row.now tokens.now version p0.now) }
    ensures bytes { AreBytes 32 p0.now }
    ensures noise { IsTrue (B.sight board.old).told → OnOk result ((B.sight board.new).world
        ≡ record (B.sight board.old).world {
          noise = drop (length tokens.now * token_len x.now.slots)
              (B.sight board.old).world.noise;
        }) }
{
    let drawn = match draw(x.alloc, board, drawn_len(x.slots, tokens.len())) {
        Ok(drawn) => drawn,
        Err(fault) => return Err(fault),
    };
    match planned_by(x, row, version, p0, tokens, drawn.as_slice()) {
        Ok(plan) => Ok(plan),
        Err(_) => Err(BoardFault::Memory),
    }
}

/// Reads the half of the secret, and plans the activation by it.
fn planned_behind<B: Board>(
    board: &mut B,
    x: &Session,
    row: &UserRow,
    secret: &Secret,
    tokens: &[Pending],
) -> Result<Planned, ChainFault>
    requires few { length tokens.now ≤ 8 }
    requires may { MayChange x.now.settings.settled.rec
        (PutRow (with_more_tokens (token_ids tokens.now) row.now)) }
    requires room { x.now.slots ≢ 0
        → length (slots_of x.now.named.items) + length tokens.now ≤ x.now.slots }
    requires odd { (p : PendingOf) → Contains tokens.now p → is_odd p.id ≡ true }
    ensures passes { PassesTo (IsPlanFrom (B.sight board.old) (B.sight board.new) x.now row.now secret.now
        tokens.now) row.now.user secret.now (B.sight board.old) result (B.sight board.new) }
{
    let p0 = match half(x.alloc, board, row.user, secret) {
        Ok(p0) => p0,
        Err(fault) => return Err(fault),
    };
    let version = secret.version();
    match planned_with(board, x, row, version, &p0, tokens) {
        Ok(plan) => Ok(plan),
        Err(BoardFault::Failed(part)) => Err(ChainFault::Failed(part)),
        Err(BoardFault::Memory) => Err(ChainFault::Memory),
    }
}

/// Plans the activation of these tokens of a user, for whom it isn't refused: reads the half of the
/// secret, draws what it takes, and drafts a protector for each. Nothing that is stored is changed.
pub(crate) fn planned<B: Board>(
    board: &mut B,
    x: &Session,
    user: u32,
    tokens: &[Pending],
) -> Result<Planned, ChainFault>
    requires can { CanServe (B.sight board.old) x.now }
    requires goes { own_refusal x.now (command.Activate user) ≡ None }
    requires some { count_for x.now user ≢ 0 }
    requires chosen { tokens.now ≡ chosen_for x.now user }
    requires none { SayNone (retired_files x.now) tokens.now }
    ensures passes { (entry : OpenedOf) × IsEntry x.now user entry
        × PassesTo (IsReadyFor (B.sight board.old) (B.sight board.new) x.now user) user entry.secret
        (B.sight board.old) result (B.sight board.new) }
{
    let Some(row) = x.row(user) else {
        unreachable!()
    };
    let Some(opened) = find_entry(&x.opened, user) else {
        unreachable!()
    };
    match planned_behind(board, x, row, &opened.secret, tokens) {
        Ok(plan) => Ok(plan),
        Err(fault) => Err(fault),
    }
}
