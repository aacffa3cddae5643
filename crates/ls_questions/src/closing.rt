//! A user is closed.
ghost use Rattle.std.specs.Prelude.{◌≡◌, ◌==◌, not, filter, Ok, IfSome};
ghost use Rattle.ls_board.specs.Acts.{Sight};
ghost use Rattle.ls_script.specs.declared.command.Command.TheVariants as command;
ghost use Rattle.ls_script.specs.declared.reply.Reply.TheVariants as reply;
ghost use Rattle.ls_turn.specs.Refusing.{row_of, own_refusal, Refuses};
ghost use Rattle.ls_turn.specs.Serving.{CanServe, Serves, turned, Always};

use ls_script::{Refusal, Reply};
use ls_turn::{Session, take_out};

/// Closes a user. A captured user stays captured. It does no action and takes no memory.
pub fn lock(x: &mut Session, user: u32) -> Reply
    ensures serves { (old : Sight) → CanServe old x.old
        → Serves old x.old (turned x.old.slots (command.Lock user)) Always (Ok result) x.new old }
    ensures refuses { (old : Sight)
        → Refuses (own_refusal x.old (command.Lock user)) old x.old (Ok result) x.new old }
    // The user is taken from the opened ones, and nothing else is another.
    ensures closed { IfSome (row_of x.old.settings.settled.rec user) (λ row. (result ≡ reply.Fine)
        × (x.new ≡ record x.old { opened = x.new.opened })
        × (x.new.opened.items ≡ filter (λ o. not (o.user == user)) x.old.opened.items)) }
{
    match x.row(user) {
        None => Reply::No(Refusal::NoUser),
        Some(_) => {
            take_out(&mut x.opened, user);
            Reply::Fine
        }
    }
}
