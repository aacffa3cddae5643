//! Why tokens of a user don't become active.
ghost use Rattle.std.specs.Prelude.{◌≡◌, None};
ghost use Rattle.ls_script.specs.declared.command.Command.TheVariants as command;
ghost use Rattle.ls_turn.specs.Refusing.{own_refusal, unless_open};

use ls_script::Refusal;
use ls_turn::Session;

/// Why they don't for a user who has a row.
fn refusal_there(x: &Session, user: u32) -> Option<Refusal>
    ensures same { result ≡ unless_open x.now user None }
{
    if x.is_open(user) {
        None
    } else {
        Some(Refusal::Locked)
    }
}

/// Why the tokens of a user don't become active, by the record and what the session knows.
pub(crate) fn refusal(x: &Session, user: u32) -> Option<Refusal>
    ensures same { result ≡ own_refusal x.now (command.Activate user) }
{
    match x.row(user) {
        None => Some(Refusal::NoUser),
        Some(_) => refusal_there(x, user),
    }
}
