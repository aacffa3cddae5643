//! A planned change is carried out.
ghost use Rattle.std.specs.Prelude.{◌≡◌, ◌≤◌, [], IfOk, IsTrue, Err, vec_capacity};
ghost use Rattle.ls_board.specs.Acts.{Sight};
ghost use Rattle.ls_script.specs.declared.reply.Reply.TheVariants as reply;
ghost use Rattle.ls_turn.specs.declared.session.Session.{Session as Sessions};
ghost use Rattle.ls_turn.specs.declared.stop.Stop.TheVariants as stop;
ghost use Rattle.ls_turn.specs.Agreeing.{Agrees};
ghost use Rattle.ls_turn.specs.Serving.{CanServe, Serves, Turned, Always, stage_in};
ghost use Rattle.ls_vault.specs.declared.state.State.{State};
ghost use Rattle.ls_vault.specs.Script.{Stage};
ghost use Rattle.ls_changing.specs.Planning.{IsPlannedFor, exchange_of, changed_turn};

use crate::keeping::{keep_metrics, take_named};
use crate::planned::Planned;
use ls_board::{Board, BoardFault};
use ls_bytes::Memory;
use ls_committing::commit_change;
use ls_credential::Credential;
use ls_drawing::stop_by;
use ls_exchange::Exchange;
use ls_placing::a_new_place_is_clear;
use ls_protector::{Draft, Named};
use ls_script::Reply;
use ls_settings::commits_touch_settings_files_alone;
use ls_turn::{Session, Stop};
use std::alloc::Global;

/// A place for a new protector, and one for a protector that is let go.
fn places(alloc: Global) -> Result<(Vec<Draft>, Vec<Named>), Memory>
    ensures empty { IfOk result (λ two. (two.0.items ≡ []) × (two.1.items ≡ [])) }
    ensures room { IfOk result (λ two. (1 ≤ vec_capacity two.0) × (1 ≤ vec_capacity two.1)) }
{
    let retire = Vec::with_capacity(alloc, 1)?;
    let drafts = Vec::with_capacity(alloc, 1)?;
    Ok((drafts, retire))
}

/// The change, with the protector that it lets go.
fn exchange_for(alloc: Global, plan: Planned, gone: Named) -> Result<Exchange, Memory>
    ensures same { IfOk result (λ work. work ≡ exchange_of plan gone) }
{
    let Planned {
        gone: _,
        id: _,
        slot: _,
        secure: _,
        draft,
        others,
        commit,
        after,
    } = plan;
    let (mut drafts, mut retire) = match places(alloc) {
        Ok(two) => two,
        Err(memory) => {
            draft.discard();
            return Err(memory);
        }
    };
    drafts.push_reserved(draft);
    retire.push_reserved(gone);
    Exchange::of(alloc, drafts, others, commit, retire, after)
}

/// Carries out the change that gives an opened user another credential.
pub(crate) fn carried<B: Board>(
    board: &mut B,
    x: &mut Session,
    user: u32,
    new: &Credential,
    plan: Planned,
) -> Result<Reply, Stop>
    // The session before.
    ghost before: { Sessions }
    requires before { x.old ≡ before }
    requires can { CanServe (B.sight board.old) before }
    requires planned { IsPlannedFor (B.sight board.old) before user new.now plan }
    ensures serves { (p : IsPlannedFor (B.sight board.old) before user new.now plan)
        (turn : Stage → Turned)
        → (IsTrue (B.sight board.old).told → (s : State) → Agrees (B.sight board.old).world before s
        → turn (stage_in (B.sight board.old).world s)
        ≡ changed_turn (B.sight board.old).world s user new.now p.drawn)
        → Serves (B.sight board.old) before turn Always result x.new (B.sight board.new) }
    ensures fine { IfOk result (λ r. r ≡ reply.Fine) }
    // Want of memory comes before any action.
    ensures untouched { result ≡ Err stop.Memory
        → (B.sight board.new).world ≡ (B.sight board.old).world }
{
    a_new_place_is_clear();
    commits_touch_settings_files_alone();
    let gone = take_named(&mut x.named, plan.gone);
    keep_metrics(&mut x.opened, user, new);
    let work = match exchange_for(x.alloc, plan, gone) {
        Ok(work) => work,
        Err(_) => return Err(stop_by(x, BoardFault::Memory)),
    };
    commit_change(board, x, work)
}
