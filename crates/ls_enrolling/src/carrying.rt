//! A planned user is added.
ghost use Rattle.std.specs.Prelude.{◌≡◌, ◌≤◌, [], IfOk, IsTrue, Err, vec_capacity};
ghost use Rattle.ls_board.specs.Acts.{Sight};
ghost use Rattle.ls_script.specs.declared.reply.Reply.TheVariants as reply;
ghost use Rattle.ls_turn.specs.declared.stop.Stop.TheVariants as stop;
ghost use Rattle.ls_turn.specs.Agreeing.{Agrees};
ghost use Rattle.ls_turn.specs.Serving.{CanServe, Serves, Turned, Always, stage_in};
ghost use Rattle.ls_vault.specs.declared.state.State.{State};
ghost use Rattle.ls_vault.specs.Script.{Stage};
ghost use Rattle.ls_enrolling.specs.Planning.{IsPlannedFor, exchange_of, added_turn};

use crate::planned::Planned;
use ls_board::{Board, BoardFault, Plan};
use ls_bytes::Memory;
use ls_committing::commit_change;
use ls_drawing::stop_by;
use ls_exchange::Exchange;
use ls_placing::a_new_place_is_clear;
use ls_protector::Draft;
use ls_script::Reply;
use ls_settings::commits_touch_settings_files_alone;
use ls_turn::{Session, Stop};
use std::alloc::Global;

/// A place for a new protector.
fn place(alloc: Global) -> Result<Vec<Draft>, Memory>
    ensures empty { IfOk result (λ drafts. drafts.items ≡ []) }
    ensures room { IfOk result (λ drafts. 1 ≤ vec_capacity drafts) }
{
    let drafts = Vec::with_capacity(alloc, 1)?;
    Ok(drafts)
}

/// The change. It lets nothing go.
fn exchange_for(alloc: Global, plan: Planned) -> Result<Exchange, Memory>
    ensures same { IfOk result (λ work. work ≡ exchange_of plan) }
{
    let Planned {
        id: _,
        slot: _,
        draft,
        others,
        commit,
    } = plan;
    let mut drafts = match place(alloc) {
        Ok(drafts) => drafts,
        Err(memory) => {
            draft.discard();
            return Err(memory);
        }
    };
    drafts.push_reserved(draft);
    Exchange::of(
        alloc,
        drafts,
        others,
        commit,
        Vec::new(alloc),
        Plan::new(alloc),
    )
}

/// Carries out the change that adds a user.
pub(crate) fn carried<B: Board>(
    board: &mut B,
    x: &mut Session,
    user: u32,
    escrow: bool,
    plan: Planned,
) -> Result<Reply, Stop>
    requires can { CanServe (B.sight board.old) x.old }
    requires planned { IsPlannedFor (B.sight board.old) x.old user escrow plan }
    ensures serves { (p : IsPlannedFor (B.sight board.old) x.old user escrow plan)
        (turn : Stage → Turned)
        → (IsTrue (B.sight board.old).told → (s : State) → Agrees (B.sight board.old).world x.old s
        → turn (stage_in (B.sight board.old).world s)
        ≡ added_turn (B.sight board.old).world s user escrow p.drawn)
        → Serves (B.sight board.old) x.old turn Always result x.new (B.sight board.new) }
    ensures fine { IfOk result (λ r. r ≡ reply.Fine) }
    // Want of memory comes before any action.
    ensures untouched { result ≡ Err stop.Memory
        → (B.sight board.new).world ≡ (B.sight board.old).world }
{
    a_new_place_is_clear();
    commits_touch_settings_files_alone();
    let work = match exchange_for(x.alloc, plan) {
        Ok(work) => work,
        Err(_) => return Err(stop_by(x, BoardFault::Memory)),
    };
    commit_change(board, x, work)
}
