//! A session stops.
ghost use Rattle.std.specs.Prelude.{◌≡◌};
ghost use Rattle.ls_turn.specs.Serving.{stopped_by};
ghost use Rattle.ls_drawing.specs.Drawing.{stop_of};

use ls_board::BoardFault;
use ls_turn::{Cause, Session, Stop};

/// The session serves no more, by the fault of a call.
pub fn stop_by(x: &mut Session, fault: BoardFault) -> Stop
    ensures stop { result ≡ stop_of fault }
    ensures stopped { x.new ≡ record x.old { stopped = stopped_by (stop_of fault) x.old.stopped } }
{
    match fault {
        BoardFault::Failed(part) => {
            x.stopped = Some(Cause::Fault(part));
            Stop::Fault(part)
        }
        BoardFault::Memory => {
            x.stopped = Some(Cause::Memory);
            Stop::Memory
        }
    }
}
