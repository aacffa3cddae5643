//! A protector on its way to being named.
ghost use Rattle.std.specs.Prelude.{◌≡◌, ◌≤◌, ◌∷◌, [], IsTrue, IfOk, IfErr, OnOk};
ghost use Rattle.ls_board.specs.Acts.{Sight};
ghost use Rattle.ls_board.specs.Keeping.{Keeps};
ghost use Rattle.ls_board.specs.Reach.{SameBut};
ghost use Rattle.ls_board.specs.Runs.{CanRun, Did, FailedIn, LeavesOnly, PlanImage};
ghost use Rattle.ls_protector.specs.Parts.{reach_of_names, reach_of_parts};
ghost use Rattle.ls_protector.specs.Clear.{IsClearOf, NamesParts, KeepsVaults};
ghost use Rattle.ls_protector.specs.Settled.{IsSettled};
ghost use Rattle.ls_protector.specs.Steps.{Steps, part_of_failed};

use crate::act::act_one;
use crate::states::{Draft, Durable, Named, Retired, Staged};
use ls_board::{Action, Board, Part, Plan, run_plan};
use ls_formats::Parts;
use ls_settings::{Committed, Settings};

/// Does the plan of a draft. It takes no memory. What is named is changed at no moment and in no
/// image. After a fault the protector comes back, to be abandoned.
pub fn stage<B: Board>(board: &mut B, draft: Draft) -> Result<Staged, (Retired, Part)>
    requires run { CanRun (B.sight board.old) draft.plan }
    requires clear { IsClearOf (B.sight board.old) draft.parts }
    ensures parts { IfOk result (λ staged. staged ≡ draft.parts) }
    ensures back { IfErr result (λ failed. failed.0 ≡ draft.parts) }
    ensures did { OnOk result (Did (B.sight board.old) draft.plan (B.sight board.new)) }
    ensures failed { IfErr result (λ failed.
        FailedIn (B.sight board.old) draft.plan failed.1 (B.sight board.new)) }
    ensures keeps { Keeps (λ part. part) (B.sight board.old) (B.sight board.new)
        (part_of_failed result) }
    ensures crash { IsTrue (B.sight board.old).told
        → LeavesOnly (B.sight board.old) (B.sight board.new)
        (PlanImage (B.sight board.old).world draft.plan) }
    // Whatever it answers, all but its parts stays.
    ensures but { IsTrue (B.sight board.old).told
        → SameBut (reach_of_parts draft.parts) (B.sight board.old).world (B.sight board.new).world }
    ensures stands { KeepsVaults (B.sight board.old) (B.sight board.new) }
{
    let Draft { parts, plan } = draft;
    match run_plan(board, &plan) {
        Ok(()) => Ok(Staged { parts }),
        Err(fault) => Err((Retired { parts }, fault.part)),
    }
}

/// Puts all changes of files on the disk.
fn sync<B: Board>(board: &mut B, parts: &Parts) -> Result<(), Part>
    requires run { CanRun (B.sight board.old) (Action.Sync ∷ []) }
    ensures steps { Steps (B.sight board.old) (Action.Sync ∷ []) result (B.sight board.new) }
{
    act_one(board, parts.names.allocator(), &Action::Sync)
}

/// Puts it on the disk. It takes no memory. From then on none of its files is touched, so each
/// image has it as it stands. After a fault it comes back, to be abandoned.
pub fn settle<B: Board>(board: &mut B, staged: Staged) -> Result<Durable, (Retired, Part)>
    requires room { 1 ≤ (B.sight board.old).actions }
    ensures parts { IfOk result (λ durable. durable ≡ staged) }
    ensures back { IfErr result (λ failed. failed.0 ≡ staged) }
    ensures did { OnOk result (Did (B.sight board.old) (Action.Sync ∷ []) (B.sight board.new)) }
    ensures failed { IfErr result (λ failed.
        FailedIn (B.sight board.old) (Action.Sync ∷ []) failed.1 (B.sight board.new)) }
    ensures keeps { Keeps (λ part. part) (B.sight board.old) (B.sight board.new)
        (part_of_failed result) }
    ensures crash { IsTrue (B.sight board.old).told
        → LeavesOnly (B.sight board.old) (B.sight board.new)
        (PlanImage (B.sight board.old).world (Action.Sync ∷ [])) }
    ensures settled { IsTrue (B.sight board.old).told
        → IfOk result (λ durable. IsSettled (B.sight board.new).world durable) }
    // Whatever it answers, nothing is changed.
    ensures but { IsTrue (B.sight board.old).told
        → SameBut (reach_of_names []) (B.sight board.old).world (B.sight board.new).world }
    ensures stands { KeepsVaults (B.sight board.old) (B.sight board.new) }
{
    let Staged { parts } = staged;
    match sync(board, &parts) {
        Ok(()) => Ok(Durable { parts }),
        Err(part) => Err((Retired { parts }, part)),
    }
}

/// The commit was made, and its record names the protector.
pub fn bind_named(durable: Durable, done: &Committed) -> Named
    requires named { NamesParts done.now durable }
    ensures same { result ≡ durable }
{
    let Durable { parts } = durable;
    Named { parts }
}

/// A protector that is named by settings that were loaded, with none of its files touched.
pub fn found<B: Board>(board: &B, parts: Parts, settings: &Settings) -> Named
    requires named { NamesParts settings.now.settled.rec parts }
    requires settled { IsTrue (B.sight board.now).told
        → IsSettled (B.sight board.now).world parts }
    ensures same { result ≡ parts }
{
    Named { parts }
}
