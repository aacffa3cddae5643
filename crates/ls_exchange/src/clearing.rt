//! What is done behind the commit.
ghost use Rattle.std.specs.Prelude.{◌≡◌, ◌≤◌, ◌+◌, ◌<◌, ◌++◌, ◌∷◌, [], IsTrue, OnOk, OnErr, length, vec_len, vec_capacity};
ghost use Rattle.std.specs.List.{Contains};
ghost use Rattle.ls_formats.specs.declared.parts.Parts.{Parts};
ghost use Rattle.ls_board.specs.Acts.{Sight};
ghost use Rattle.ls_board.specs.Reach.{AllTouchOnly};
ghost use Rattle.ls_board.specs.Runs.{CanRun};
ghost use Rattle.ls_protector.specs.Clear.{IsClearOf, NamesParts};
ghost use Rattle.ls_protector.specs.Parts.{erasing_of};
ghost use Rattle.ls_exchange.specs.Exchanges.{retiring_of, HasFirstOf};
ghost use Rattle.ls_exchange.specs.Turns.{Runs, RetiredAreClear, storage};

use crate::lists::take_first;
use crate::others::run_others;
use ls_board::{Board, Part, Plan};
use ls_protector::{Durable, Named, Retired, bind_named, retire};
use ls_settings::Committed;

/// Retires a protector. There is a place for it.
fn retire_one<B: Board>(
    board: &mut B,
    named: Named,
    done: &Committed,
    retired: &mut Vec<Retired>,
) -> Result<(), Part>
    requires run { CanRun (B.sight board.old) (erasing_of named) }
    requires clear { IsClearOf (B.sight board.old) named }
    requires room { vec_len retired.old < vec_capacity retired.old }
    ensures runs { Runs (B.sight board.old) (erasing_of named) result (B.sight board.new) }
    ensures put { OnOk result (retired.new.items ≡ retired.old.items ++ named ∷ []) }
    ensures kept { OnErr result (retired.new.items ≡ retired.old.items) }
    ensures len { OnOk result (vec_len retired.new ≡ vec_len retired.old + 1) }
    ensures capacity { vec_capacity retired.new ≡ vec_capacity retired.old }
{
    match retire(board, named, done) {
        Ok(one) => {
            retired.push_reserved(one);
            Ok(())
        }
        Err((back, part)) => {
            back.abandon();
            Err(part)
        }
    }
}

/// Retires each, in order. There is a place for each.
fn retire_all<B: Board>(
    board: &mut B,
    mut all: Vec<Named>,
    done: &Committed,
    retired: &mut Vec<Retired>,
) -> Result<(), Part>
    requires run { CanRun (B.sight board.old) (retiring_of all.items) }
    requires clear { IsTrue (B.sight board.old).told
        → RetiredAreClear (B.sight board.old).world all.items }
    requires room { vec_len retired.old + length all.items ≤ vec_capacity retired.old }
    ensures runs { Runs (B.sight board.old) (retiring_of all.items) result (B.sight board.new) }
    ensures put { OnOk result (retired.new.items ≡ retired.old.items ++ all.items) }
    ensures some { HasFirstOf retired.old.items all.items retired.new.items }
{
    while let Some(named) = take_first(&mut all) {
        if let Err(part) = retire_one(board, named, done, retired) {
            return Err(part);
        }
    }
    Ok(())
}

/// Retires each, and does other actions.
pub(crate) fn clear_away<B: Board>(
    board: &mut B,
    all: Vec<Named>,
    after: &Plan,
    done: &Committed,
    retired: &mut Vec<Retired>,
) -> Result<(), Part>
    requires run { CanRun (B.sight board.old) (retiring_of all.items ++ after.now) }
    requires clear { IsTrue (B.sight board.old).told
        → RetiredAreClear (B.sight board.old).world all.items }
    requires stored { IsTrue (B.sight board.old).told → AllTouchOnly storage after.now }
    requires room { vec_len retired.old + length all.items ≤ vec_capacity retired.old }
    ensures runs { Runs (B.sight board.old) (retiring_of all.items ++ after.now) result
        (B.sight board.new) }
    ensures put { OnOk result (retired.new.items ≡ retired.old.items ++ all.items) }
    ensures some { HasFirstOf retired.old.items all.items retired.new.items }
{
    if let Err(part) = retire_all(board, all, done, retired) {
        return Err(part);
    }
    match run_others(board, after) {
        Ok(()) => Ok(()),
        Err(part) => Err(part),
    }
}

/// The new protectors are named by the record that was committed.
pub(crate) fn bind_all(mut durable: Vec<Durable>, done: &Committed, named: &mut Vec<Named>)
    requires names { (p : Parts) → Contains durable.items p → NamesParts done.now p }
    requires room { vec_len named.old + length durable.items ≤ vec_capacity named.old }
    ensures put { named.new.items ≡ named.old.items ++ durable.items }
{
    while let Some(one) = take_first(&mut durable) {
        named.push_reserved(bind_named(one, done));
    }
}
