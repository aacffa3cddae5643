//! The files of the retired protectors of one id.
ghost use Rattle.std.specs.Prelude.{◌≡◌, ◌<◌, ◌≤◌, ◌∷◌, [], length, MatchBool, OnOk, None, Some, Err};
ghost use Rattle.ls_board.specs.Acts.{Sight};
ghost use Rattle.ls_placing.specs.Placing.{SaysId};
ghost use Rattle.ls_sweep.specs.Sifted.{AreThose};
ghost use Rattle.ls_tidying.specs.Tidying.{OnlyTidies, without_at, SaysNot, LeftFrom};
ghost use Rattle.ls_turn.specs.declared.stop.Cause.{Cause as Causes};
ghost use Rattle.ls_turn.specs.declared.stop.Stop.TheVariants as stop;
ghost use Rattle.ls_turn.specs.Agreeing.{retired_files};
ghost use Rattle.ls_turn.specs.Serving.{CanServe};

use crate::tidying::step_at;
use ls_board::Board;
use ls_bytes::Name;
use ls_placing::id_in;
use ls_protector::Retired;
use ls_turn::{Session, Stop};

/// Whether the name says the id.
fn says_it(name: &Name, id: u64) -> bool
    ensures decided { MatchBool result (SaysId (name.now ∷ []) id) (¬ SaysId (name.now ∷ []) id) }
{
    match id_in(name) {
        Some(said) => said == id,
        None => false,
    }
}

/// Whether one of these names says the id.
fn says_id(names: &[Name], id: u64) -> bool
    ensures decided { MatchBool result (SaysId names.now id) (¬ SaysId names.now id) }
{
    match names {
        [] => false,
        [name, rest @ ..] => says_it(name, id) || says_id(rest, id),
    }
}

/// Whether no retired protector stands at this place.
fn is_past(retired: &[Retired], i: usize) -> bool
    ensures decided { MatchBool result (length retired.now ≤ i) (i < length retired.now) }
{
    retired.len() <= i
}

/// Removes all files that the retired protector of this place has left.
fn clear_at<B: Board>(board: &mut B, x: &mut Session, i: usize) -> Result<(), Stop>
    requires can { CanServe (B.sight board.old) x.old }
    requires there { i < length x.old.retired.items }
    ensures only { OnlyTidies (B.sight board.old) x.old result x.new (B.sight board.new) }
    ensures left { OnOk result (x.new.retired.items ≡ without_at x.old.retired.items i) }
{
    match step_at(board, x, i) {
        Ok(true) => Ok(()),
        Ok(false) => clear_at(board, x, i),
        Err(why) => Err(why),
    }
}

/// Removes the files of each retired protector of this id, from this place on.
fn tidy_from<B: Board>(board: &mut B, x: &mut Session, id: u64, i: usize) -> Result<(), Stop>
    requires can { CanServe (B.sight board.old) x.old }
    ensures only { OnlyTidies (B.sight board.old) x.old result x.new (B.sight board.new) }
    ensures left { OnOk result (LeftFrom id i x.old.retired.items x.new.retired.items) }
{
    if is_past(&x.retired, i) {
        return Ok(());
    }
    if !says_id(x.retired[i].parts().names.as_slice(), id) {
        return tidy_from(board, x, id, i + 1);
    }
    match clear_at(board, x, i) {
        Ok(()) => tidy_from(board, x, id, i),
        Err(why) => Err(why),
    }
}

/// Removes all files of the retired protectors of this id: of each of which one file that is left
/// says it. The others are left as they are. It makes the room for that by itself. A session that
/// has stopped does nothing and answers why.
pub fn tidy_id<B: Board>(board: &mut B, x: &mut Session, id: u64) -> Result<(), Stop>
    requires can { x.old.stopped ≡ None → CanServe (B.sight board.old) x.old }
    ensures only { x.old.stopped ≡ None
        → OnlyTidies (B.sight board.old) x.old result x.new (B.sight board.new) }
    ensures left { OnOk result
        (AreThose (SaysNot id) x.old.retired.items x.new.retired.items) }
    ensures gone { OnOk result (¬ SaysId (retired_files x.new) id) }
    ensures stops { (why : Causes) → x.old.stopped ≡ Some why
        → (result ≡ Err (stop.Stopped why)) × (x.new ≡ x.old)
        × (B.sight board.new ≡ B.sight board.old) }
{
    if let Some(why) = x.stopped {
        return Err(Stop::Stopped(why));
    }
    match tidy_from(board, x, id, 0) {
        Ok(()) => Ok(()),
        Err(why) => Err(why),
    }
}
