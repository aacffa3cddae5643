//! Making the settings files that have to be made.
ghost use Rattle.std.specs.Prelude.{◌≡◌, ◌++◌, IfOk, IfErr, OnOk, IsTrue};
ghost use Rattle.ls_formats.specs.declared.side.Side.TheVariants.{First, Second};
ghost use Rattle.ls_formats.specs.PartNames.{settings_text};
ghost use Rattle.ls_board.specs.Acts.{Sight};
ghost use Rattle.ls_board.specs.Effect.{file_at};
ghost use Rattle.ls_settings.specs.declared.fault.OpenRefusal.TheVariants as refusal;
ghost use Rattle.ls_settings.specs.Commits.{synced};
ghost use Rattle.ls_board.specs.Keeping.{Keeps};
ghost use Rattle.ls_settings.specs.Loading.{make_of, makes_of, RunsPlan, IsMakePlan, IsFound, MakesFiles, IsNotForeign};

use crate::actions::{FILE_LENGTH, push_synced, settings_name};
use crate::fault::OpenRefusal;
use crate::files::Pair;
use crate::found::stays;
use crate::settings::Settings;
use ls_board::{Action, Board, Plan, run_plan};
use ls_bytes::{Bytes, Memory};
use ls_formats::Side;
use std::alloc::Global;

/// Adds the making of a file, where it has to be made.
fn push_make(
    alloc: Global,
    plan: &mut Plan,
    current: Option<Side>,
    side: Side,
    file: &Option<Bytes>,
) -> Result<(), Memory>
    ensures pushed { OnOk result (plan.new ≡ plan.old ++ synced (make_of current side file.now)) }
{
    if stays(current, side, file) {
        return Ok(());
    }
    let make = Action::Make {
        name: settings_name(alloc, side)?,
        len: FILE_LENGTH,
    };
    push_synced(plan, make)
}

/// The making of each settings file that isn't current and hasn't 4,096 bytes.
fn make_plan(alloc: Global, current: Option<Side>, files: &Pair) -> Result<Plan, Memory>
    ensures plan { IfOk result (λ p. p ≡ makes_of current files.now.first files.now.second) }
{
    let mut plan = Plan::new(alloc);
    push_make(alloc, &mut plan, current, Side::First, &files.first)?;
    push_make(alloc, &mut plan, current, Side::Second, &files.second)?;
    Ok(plan)
}

/// Makes room for a plan on the settings files, and runs it.
fn run<B: Board>(alloc: Global, board: &mut B, plan: &Plan) -> Result<(), OpenRefusal>
    requires makes { IsMakePlan plan.now }
    ensures keeps { Keeps refusal.Fault (B.sight board.old) (B.sight board.new) result }
    ensures runs { IsTrue (B.sight board.old).told
        → RunsPlan (B.sight board.old) plan.now result (B.sight board.new) }
    ensures never { IfErr result IsNotForeign }
{
    let (actions, bytes) = plan.weight();
    board.ready(alloc, actions, bytes)?;
    match run_plan(board, plan) {
        Ok(()) => Ok(()),
        Err(fault) => Err(OpenRefusal::Fault(fault.part)),
    }
}

/// Makes each settings file that isn't current and hasn't 4,096 bytes.
pub(crate) fn make_files<B: Board>(
    alloc: Global,
    board: &mut B,
    settings: &Settings,
    files: &Pair,
) -> Result<(), OpenRefusal>
    requires found { IsFound files.now.first files.now.second settings.now }
    requires first { IsTrue (B.sight board.old).told
        → files.now.first ≡ file_at (B.sight board.old).world (settings_text First) }
    requires second { IsTrue (B.sight board.old).told
        → files.now.second ≡ file_at (B.sight board.old).world (settings_text Second) }
    ensures keeps { Keeps refusal.Fault (B.sight board.old) (B.sight board.new) result }
    ensures makes { IsTrue (B.sight board.old).told
        → MakesFiles (B.sight board.old) settings.now result (B.sight board.new) }
    ensures never { IfErr result IsNotForeign }
{
    let plan = make_plan(alloc, settings.place.side, files)?;
    run(alloc, board, &plan)
}
