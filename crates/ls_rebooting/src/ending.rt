//! The end of an arming.
ghost use Rattle.std.specs.Prelude.{◌≡◌, ◌≢◌, ◌≤◌, IfOk, OnOk, IsSome, Err};
ghost use Rattle.ls_board.specs.Acts.{Sight};
ghost use Rattle.ls_naming.specs.Current.{last_sequence};
ghost use Rattle.ls_script.specs.declared.reply.Reply.TheVariants as reply;
ghost use Rattle.ls_turn.specs.declared.stop.Stop.TheVariants as stop;
ghost use Rattle.ls_turn.specs.Serving.{Always, CanServe, Serves};
ghost use Rattle.ls_rebooting.specs.Clearing.{EndsArming};
ghost use Rattle.ls_rebooting.specs.Ending.{HasEnded, unarming};

use crate::carrying::carry;
use crate::clearing::clear_work;
use crate::room::make_room;
use ls_board::Board;
use ls_change::Work;
use ls_script::Reply;
use ls_settings::commits_touch_settings_files_alone;
use ls_sweep::empty_cell;
use ls_turn::{Cause, Session, Stop};

/// Empties the cell and leaves the record, in which nothing can be kept any more.
fn take_alone<B: Board>(board: &mut B, x: &mut Session) -> Result<Reply, Stop>
    requires can { CanServe (B.sight board.old) x.old }
    requires armed { IsSome x.old.settings.settled.rec.armed }
    requires worn { x.old.settings.settled.sequence ≡ last_sequence }
    ensures serves { Serves (B.sight board.old) x.old unarming Always result x.new
        (B.sight board.new) }
    ensures kept { OnOk result (x.new ≡ x.old) }
    ensures fine { IfOk result (λ r. r ≡ reply.Fine) }
    // Want of memory comes before any action.
    ensures untouched { result ≡ Err stop.Memory
        → B.sight board.new ≡ record (B.sight board.old) {
          actions = (B.sight board.new).actions;
          bytes = (B.sight board.new).bytes;
        } }
{
    if board.ready(x.alloc, 1, 0).is_err() {
        x.stopped = Some(Cause::Memory);
        return Err(Stop::Memory);
    }
    if let Err(part) = empty_cell(x.alloc, board) {
        x.stopped = Some(Cause::Fault(part));
        return Err(Stop::Fault(part));
    }
    Ok(Reply::Fine)
}

/// Empties the cell and commits the record without the arming.
fn take_and_clear<B: Board>(board: &mut B, x: &mut Session, work: Work) -> Result<Reply, Stop>
    requires can { CanServe (B.sight board.old) x.old }
    requires ends { EndsArming x.old.settings work }
    requires kept { x.old.settings.settled.sequence ≢ last_sequence }
    ensures serves { Serves (B.sight board.old) x.old unarming Always result x.new
        (B.sight board.new) }
    ensures becomes { OnOk result (x.new ≡ record x.old { settings = work.commit.to }) }
    ensures fine { IfOk result (λ r. r ≡ reply.Fine) }
    // Want of memory comes before any action.
    ensures untouched { result ≡ Err stop.Memory
        → B.sight board.new ≡ record (B.sight board.old) {
          actions = (B.sight board.new).actions;
          bytes = (B.sight board.new).bytes;
        } }
{
    let Ok(_) = make_room(x.alloc, board, &work) else {
        x.stopped = Some(Cause::Memory);
        return Err(Stop::Memory);
    };
    if let Err(part) = empty_cell(x.alloc, board) {
        x.stopped = Some(Cause::Fault(part));
        return Err(Stop::Fault(part));
    }
    commits_touch_settings_files_alone();
    carry(board, x, work)
}

/// Ends the arming that the record names, if it names one: the cell is emptied, and where something
/// can be kept the record without the arming is committed.
pub(crate) fn end_arming<B: Board>(board: &mut B, x: &mut Session) -> Result<Reply, Stop>
    requires can { CanServe (B.sight board.old) x.old }
    ensures serves { Serves (B.sight board.old) x.old unarming Always result x.new
        (B.sight board.new) }
    ensures ends { OnOk result (HasEnded x.old x.new) }
    ensures fine { IfOk result (λ r. r ≡ reply.Fine) }
    // Want of memory comes before any action.
    ensures untouched { result ≡ Err stop.Memory
        → B.sight board.new ≡ record (B.sight board.old) {
          actions = (B.sight board.new).actions;
          bytes = (B.sight board.new).bytes;
        } }
{
    let Some(armed) = &x.settings.record().armed else {
        return Ok(Reply::Fine);
    };
    if x.settings.sequence() == u64::MAX {
        return take_alone(board, x);
    }
    let Ok(work) = clear_work(x.alloc, &x.settings, armed.users.as_slice()) else {
        x.stopped = Some(Cause::Memory);
        return Err(Stop::Memory);
    };
    take_and_clear(board, x, work)
}
