//! Tokens become active.
ghost use Rattle.std.specs.Prelude.{◌≡◌, ◌≢◌, None, IsTrue, Err};
ghost use Rattle.ls_board.specs.Acts.{Sight};
ghost use Rattle.ls_drawing.specs.Passing.{IsStored};
ghost use Rattle.ls_script.specs.declared.command.Command.TheVariants as command;
ghost use Rattle.ls_turn.specs.declared.stop.Stop.TheVariants as stop;
ghost use Rattle.ls_turn.specs.Agreeing.{retired_files};
ghost use Rattle.ls_turn.specs.Refusing.{own_refusal, Refuses};
ghost use Rattle.ls_turn.specs.Serving.{CanServe, Serves, turned, Always};
ghost use Rattle.ls_activating.specs.Activating.{IsTidyFor, SayNone};
ghost use Rattle.ls_activating.specs.Counting.{chosen_for, count_for};

use crate::carrying::carried;
use crate::choosing::first_of;
use crate::counting::count_for;
use crate::freeing::{is_said, tidy_each};
use crate::halves::corrupt_by;
use crate::planning::planned;
use crate::refusing::refusal;
use ls_board::{Board, BoardFault};
use ls_chain::ChainFault;
use ls_drawing::stop_by;
use ls_script::Reply;
use ls_turn::{Pending, Session, Stop};

/// Activates these tokens of a user, whose ids no file that is left of a retired protector says.
fn activate_free<B: Board>(
    board: &mut B,
    x: &mut Session,
    user: u32,
    tokens: &[Pending],
) -> Result<Reply, Stop>
    requires can { CanServe (B.sight board.old) x.old }
    requires goes { own_refusal x.old (command.Activate user) ≡ None }
    requires some { count_for x.old user ≢ 0 }
    requires chosen { tokens.now ≡ chosen_for x.old user }
    requires none { SayNone (retired_files x.old) tokens.now }
    ensures serves { Serves (B.sight board.old) x.old
        (turned x.old.slots (command.Activate user)) Always result x.new (B.sight board.new) }
    ensures refuses { Refuses None (B.sight board.old) x.old result x.new (B.sight board.new) }
    // Want of memory comes before anything that is stored is changed.
    ensures untouched { result ≡ Err stop.Memory → IsTrue (B.sight board.old).told
        → IsStored (B.sight board.old).world (B.sight board.new).world }
{
    match planned(board, x, user, tokens) {
        Ok(plan) => carried(board, x, user, plan),
        Err(ChainFault::Corrupt(spot)) => match corrupt_by(x.alloc, user, spot.at) {
            Ok(why) => Ok(Reply::No(why)),
            Err(_) => Err(stop_by(x, BoardFault::Memory)),
        },
        Err(ChainFault::Failed(part)) => Err(stop_by(x, BoardFault::Failed(part))),
        Err(ChainFault::Memory) => Err(stop_by(x, BoardFault::Memory)),
    }
}

/// Activates these tokens of a user. First the files are removed that retired protectors of their ids
/// have left, if there are any.
fn activate_these<B: Board>(
    board: &mut B,
    x: &mut Session,
    user: u32,
    tokens: &[Pending],
) -> Result<Reply, Stop>
    requires can { CanServe (B.sight board.old) x.old }
    requires goes { own_refusal x.old (command.Activate user) ≡ None }
    requires some { count_for x.old user ≢ 0 }
    requires chosen { tokens.now ≡ chosen_for x.old user }
    ensures serves { Serves (B.sight board.old) x.old
        (turned x.old.slots (command.Activate user)) Always result x.new (B.sight board.new) }
    ensures refuses { Refuses None (B.sight board.old) x.old result x.new (B.sight board.new) }
    ensures untouched { IsTidyFor x.old user → result ≡ Err stop.Memory
        → IsTrue (B.sight board.old).told
        → IsStored (B.sight board.old).world (B.sight board.new).world }
{
    match is_said(x.alloc, &x.retired, tokens) {
        Ok(false) => return activate_free(board, x, user, tokens),
        Ok(true) => {}
        Err(_) => return Err(stop_by(x, BoardFault::Memory)),
    }
    match tidy_each(board, x, tokens) {
        Ok(()) => activate_free(board, x, user, tokens),
        Err(why) => Err(why),
    }
}

/// The pending tokens of an opened user become its last active ones, in order: as many as there are
/// free slots, all where there are no slots at all, none where nothing can be kept. The others stay
/// pending. It reads the user's `e0` file, draws noise, and commits the user's row; files of retired
/// protectors with the ids of these tokens are removed before. Without a token to activate it makes no
/// call.
pub fn activate<B: Board>(board: &mut B, x: &mut Session, user: u32) -> Result<Reply, Stop>
    requires can { CanServe (B.sight board.old) x.old }
    ensures serves { Serves (B.sight board.old) x.old
        (turned x.old.slots (command.Activate user)) Always result x.new (B.sight board.new) }
    ensures refuses { Refuses (own_refusal x.old (command.Activate user)) (B.sight board.old) x.old
        result x.new (B.sight board.new) }
    // Where no file that a retired protector has left says the id of a pending token of the user, want
    // of memory comes before anything that is stored is changed.
    ensures untouched { IsTidyFor x.old user → result ≡ Err stop.Memory
        → IsTrue (B.sight board.old).told
        → IsStored (B.sight board.old).world (B.sight board.new).world }
{
    match refusal(x, user) {
        Some(why) => return Ok(Reply::No(why)),
        None => {}
    }
    let count = count_for(x, user);
    if count == 0 {
        return Ok(Reply::Fine);
    }
    match first_of(x.alloc, &x.pending, user, count) {
        Ok(tokens) => activate_these(board, x, user, &tokens),
        Err(_) => Err(stop_by(x, BoardFault::Memory)),
    }
}
