//! A planned activation is carried out.
ghost use Rattle.std.specs.Prelude.{◌≡◌, IsTrue, IfOk, Err};
ghost use Rattle.ls_board.specs.Acts.{Sight};
ghost use Rattle.ls_script.specs.declared.reply.Reply.TheVariants as reply;
ghost use Rattle.ls_turn.specs.declared.session.Session.{Session as Sessions};
ghost use Rattle.ls_turn.specs.declared.stop.Stop.TheVariants as stop;
ghost use Rattle.ls_turn.specs.Agreeing.{Agrees};
ghost use Rattle.ls_turn.specs.Serving.{CanServe, Serves, Turned, Always, stage_in};
ghost use Rattle.ls_vault.specs.declared.state.State.{State};
ghost use Rattle.ls_vault.specs.Script.{Stage};
ghost use Rattle.ls_activating.specs.Counting.{count_for};
ghost use Rattle.ls_activating.specs.Planning.{IsPlannedFor, activated_turn, exchange_of};

use crate::choosing::take_out;
use crate::planned::Planned;
use ls_board::{Board, BoardFault, Plan};
use ls_bytes::Memory;
use ls_committing::commit_change;
use ls_drawing::stop_by;
use ls_exchange::Exchange;
use ls_placing::{a_new_place_is_clear, a_new_place_is_kept};
use ls_script::Reply;
use ls_settings::commits_touch_settings_files_alone;
use ls_turn::{Session, Stop};
use std::alloc::Global;

/// The change.
fn exchange_for(alloc: Global, plan: Planned) -> Result<Exchange, Memory>
    ensures same { IfOk result (λ work. work ≡ exchange_of plan) }
{
    let Planned {
        ids: _,
        drafts,
        commit,
    } = plan;
    Exchange::of(
        alloc,
        drafts,
        Plan::new(alloc),
        commit,
        Vec::new(alloc),
        Plan::new(alloc),
    )
}

/// Carries out the activation of a user's tokens.
pub(crate) fn carried<B: Board>(
    board: &mut B,
    x: &mut Session,
    user: u32,
    plan: Planned,
) -> Result<Reply, Stop>
    // The session before.
    ghost before: { Sessions }
    requires before { x.old ≡ before }
    requires can { CanServe (B.sight board.old) before }
    requires planned { IsPlannedFor (B.sight board.old) before user plan }
    ensures serves { (turn : Stage → Turned)
        → (IsTrue (B.sight board.old).told → (s : State) → Agrees (B.sight board.old).world before s
        → turn (stage_in (B.sight board.old).world s)
        ≡ activated_turn (B.sight board.old).world s user (count_for before user))
        → Serves (B.sight board.old) before turn Always result x.new (B.sight board.new) }
    ensures fine { IfOk result (λ r. r ≡ reply.Fine) }
    // Want of memory comes before any action.
    ensures untouched { result ≡ Err stop.Memory
        → (B.sight board.new).world ≡ (B.sight board.old).world }
{
    a_new_place_is_clear();
    a_new_place_is_kept();
    commits_touch_settings_files_alone();
    take_out(&mut x.pending, plan.ids.as_slice());
    let work = match exchange_for(x.alloc, plan) {
        Ok(work) => work,
        Err(_) => return Err(stop_by(x, BoardFault::Memory)),
    };
    commit_change(board, x, work)
}
