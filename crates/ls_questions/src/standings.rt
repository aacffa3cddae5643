//! Whether a user is opened, and its kind.
ghost use Rattle.std.specs.Prelude.{◌≡◌};
ghost use Rattle.ls_board.specs.declared.world.World.{World as Worlds};
ghost use Rattle.ls_turn.specs.Agreeing.{Agrees};
ghost use Rattle.ls_vault.specs.Script.{standing_of};
ghost use Rattle.ls_vault.specs.declared.state.State.{State};
ghost use Rattle.ls_questions.specs.Answers.{standing_in};

use ls_credential::Kind;
use ls_turn::Session;

/// Whether the session has a user opened, and the kind of its credential; None exactly where the
/// record has no such user. It takes no memory.
pub fn standing(x: &Session, user: u32) -> Option<(bool, Kind)>
    ensures same { result ≡ standing_in x.now user }
    ensures agreed { (w : Worlds) (s : State) → Agrees w x.now s → result ≡ standing_of s user }
{
    match x.row(user) {
        None => None,
        Some(row) => Some((x.is_open(user), row.kind)),
    }
}
