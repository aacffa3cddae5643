//! A token is added.
ghost use Rattle.std.specs.Prelude.{◌≡◌, ◌++◌, ◌∷◌, [], IfOk, OnOk, OnErr, Some};
ghost use Rattle.ls_board.specs.Acts.{Sight};
ghost use Rattle.ls_script.specs.declared.command.Command.TheVariants as command;
ghost use Rattle.ls_turn.specs.Refusing.{own_refusal, Refuses};
ghost use Rattle.ls_turn.specs.Serving.{CanServe, Serves, turned, Always};
ghost use Rattle.ls_tokens.specs.Adding.{taken_ids};

use crate::fresh::{id_by, taken_ids};
use crate::refusing::refusal;
use ls_board::{Board, BoardFault};
use ls_bytes::{Bytes, IdList, Memory};
use ls_drawing::{draw, stop_by};
use ls_script::Reply;
use ls_turn::{Pending, Session, Stop};

/// What is made before the drawing: the ids that are taken, and the token's bytes.
#[derive(Drop)]
struct Made {
    taken: IdList,
    token: Bytes,
}

/// Makes it.
fn made_for(x: &Session, token: &Bytes) -> Result<Made, Memory>
    ensures taken { IfOk result (λ made. made.taken ≡ taken_ids x.now) }
    ensures token { IfOk result (λ made. made.token ≡ token.now) }
{
    let taken = taken_ids(x)?;
    let token = Bytes::of(x.alloc, token.as_slice())?;
    Ok(Made { taken, token })
}

/// Puts a pending token behind the others.
fn put_pending(x: &mut Session, one: Pending) -> Result<(), Memory>
    ensures put { OnOk result ((x.new ≡ record x.old { pending = x.new.pending })
        × (x.new.pending.items ≡ x.old.pending.items ++ one ∷ [])) }
    ensures kept { OnErr result ((x.new ≡ record x.old { pending = x.new.pending })
        × (x.new.pending.items ≡ x.old.pending.items)) }
{
    match x.pending.push(one) {
        Ok(()) => Ok(()),
        Err(_) => Err(Memory),
    }
}

/// Adds a token of 1 to 64 bytes to a user, behind all that are pending, under an id that no token
/// has. It draws 8 bytes and does nothing else.
pub fn token_add<B: Board>(
    board: &mut B,
    x: &mut Session,
    user: u32,
    token: &Bytes,
) -> Result<Reply, Stop>
    requires can { CanServe (B.sight board.old) x.old }
    ensures serves { Serves (B.sight board.old) x.old
        (turned x.old.slots (command.TokenAdd user token.now)) Always result x.new
        (B.sight board.new) }
    ensures refuses { Refuses (own_refusal x.old (command.TokenAdd user token.now))
        (B.sight board.old) x.old result x.new (B.sight board.new) }
{
    match refusal(x, user) {
        Some(why) => return Ok(Reply::No(why)),
        None => {}
    }
    let made = match made_for(x, token) {
        Ok(made) => made,
        Err(_) => return Err(stop_by(x, BoardFault::Memory)),
    };
    let drawn = match draw(x.alloc, board, 8) {
        Ok(drawn) => drawn,
        Err(fault) => return Err(stop_by(x, fault)),
    };
    let id = id_by(drawn.as_slice(), made.taken.as_slice());
    let one = Pending {
        user,
        id,
        token: made.token,
    };
    match put_pending(x, one) {
        Ok(()) => Ok(Reply::TokenId(id)),
        Err(_) => Err(stop_by(x, BoardFault::Memory)),
    }
}
