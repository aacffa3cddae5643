//! The length of a user's PIN.
ghost use Rattle.std.specs.Prelude.{◌≡◌, Ok, IfSome};
ghost use Rattle.ls_board.specs.Acts.{Sight};
ghost use Rattle.ls_script.specs.declared.command.Command.TheVariants as command;
ghost use Rattle.ls_script.specs.declared.reply.Reply.TheVariants as reply;
ghost use Rattle.ls_turn.specs.Refusing.{row_of, own_refusal, Refuses};
ghost use Rattle.ls_turn.specs.Serving.{CanServe, Serves, turned, Always};

use ls_script::{Refusal, Reply};
use ls_turn::Session;

/// Says how long a user's PIN is, as the record shows it, also of a closed user; 0 where it isn't
/// shown. It does no action and takes no memory, and the session stays as it is.
pub fn pin_length(x: &Session, user: u32) -> Reply
    ensures serves { (old : Sight) → CanServe old x.now → Serves old x.now
        (turned x.now.slots (command.PinLength user)) Always (Ok result) x.now old }
    ensures refuses { (old : Sight)
        → Refuses (own_refusal x.now (command.PinLength user)) old x.now (Ok result) x.now old }
    ensures tells { IfSome (row_of x.now.settings.settled.rec user) (λ row. result ≡ reply.PinLength row.pin) }
{
    match x.row(user) {
        None => Reply::No(Refusal::NoUser),
        Some(row) => Reply::PinLength(row.pin),
    }
}
