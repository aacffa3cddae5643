//! The files of retired protectors, one at a time.
ghost use Rattle.std.specs.Prelude.{◌≡◌, ◌≤◌, ◌<◌, ◌↔◌, [], ℕ, IsTrue, List, length, None, Some, Err};
ghost use Rattle.std.specs.List.{Contains};
ghost use Rattle.ls_board.specs.Acts.{Sight};
ghost use Rattle.ls_tidying.specs.Tidying.{Tidies, TidiesAt};
ghost use Rattle.ls_turn.specs.declared.stop.Cause.{Cause as Causes};
ghost use Rattle.ls_turn.specs.declared.stop.Stop.TheVariants as stop;
ghost use Rattle.ls_turn.specs.Serving.{CanServe};

use ls_board::Board;
use ls_bytes::Name;
use ls_protector::{Retired, tidy_step};
use ls_turn::{Cause, Session, Stop};

/// The length of the longest of these names.
fn longest(names: &[Name]) -> u64
    ensures most { (n : List ℕ) → Contains names.now n → length n ≤ result }
{
    match names {
        [] => 0,
        [name, rest @ ..] => {
            let len = name.as_slice().len() as u64;
            let most = longest(rest);
            if most < len { len } else { most }
        }
    }
}

/// One step at the retired protector of this place, and whether it is gone then.
pub(crate) fn step_at<B: Board>(board: &mut B, x: &mut Session, i: usize) -> Result<bool, Stop>
    requires can { CanServe (B.sight board.old) x.old }
    requires there { i < length x.old.retired.items }
    ensures tidies { TidiesAt i (B.sight board.old) x.old result x.new (B.sight board.new) }
{
    let bytes = longest(x.retired[i].parts().names.as_slice());
    if board.ready(x.alloc, 1, bytes).is_err() {
        x.stopped = Some(Cause::Memory);
        return Err(Stop::Memory);
    }
    let gone = match tidy_step(board, &mut x.retired[i]) {
        Ok(gone) => gone,
        Err(part) => {
            x.stopped = Some(Cause::Fault(part));
            return Err(Stop::Fault(part));
        }
    };
    if gone {
        x.retired.remove(i).spent();
    }
    Ok(gone)
}

/// Whether no retired protector is left.
fn none_left(retired: &[Retired]) -> bool
    ensures same { IsTrue result ↔ (retired.now ≡ []) }
{
    retired.is_empty()
}

/// One step of a session of which no call has stopped.
fn step<B: Board>(board: &mut B, x: &mut Session) -> Result<bool, Stop>
    requires can { CanServe (B.sight board.old) x.old }
    ensures tidies { Tidies (B.sight board.old) x.old result x.new (B.sight board.new) }
{
    if none_left(&x.retired) {
        return Ok(true);
    }
    match step_at(board, x, 0) {
        Ok(_) => Ok(none_left(&x.retired)),
        Err(why) => Err(why),
    }
}

/// Removes one file of the oldest retired protector, and answers whether no retired protector is
/// left. It makes the room for that by itself; with none left it does nothing. A session that has
/// stopped does nothing and answers why.
pub fn tidy<B: Board>(board: &mut B, x: &mut Session) -> Result<bool, Stop>
    requires can { x.old.stopped ≡ None → CanServe (B.sight board.old) x.old }
    ensures tidies { x.old.stopped ≡ None
        → Tidies (B.sight board.old) x.old result x.new (B.sight board.new) }
    ensures stops { (why : Causes) → x.old.stopped ≡ Some why
        → (result ≡ Err (stop.Stopped why)) × (x.new ≡ x.old)
        × (B.sight board.new ≡ B.sight board.old) }
{
    if let Some(why) = x.stopped {
        return Err(Stop::Stopped(why));
    }
    match step(board, x) {
        Ok(none) => Ok(none),
        Err(why) => Err(why),
    }
}
