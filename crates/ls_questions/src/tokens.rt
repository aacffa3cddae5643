//! Where a token stands.
ghost use Rattle.std.specs.Prelude.{◌≡◌, Ok, IfSome};
ghost use Rattle.ls_arming.specs.Numbers.{contains};
ghost use Rattle.ls_board.specs.Acts.{Sight};
ghost use Rattle.ls_script.specs.declared.command.Command.TheVariants as command;
ghost use Rattle.ls_script.specs.declared.reply.Reply.TheVariants as reply;
ghost use Rattle.ls_turn.specs.Refusing.{row_of, own_refusal, Refuses};
ghost use Rattle.ls_turn.specs.Serving.{CanServe, Serves, turned, Always};
ghost use Rattle.ls_questions.specs.Answers.{token_state_in};

use ls_record::UserRow;
use ls_script::{Refusal, Reply, TokenState};
use ls_turn::Session;

/// Whether one of these ids is it.
fn is_among(ids: &[u64], id: u64) -> bool
    ensures same { result ≡ contains ids.now id }
{
    ids.iter().any(|i| *i == id)
}

/// Where a token of the user of a row stands.
fn state_in_row(x: &Session, user: u32, row: &UserRow, id: u64) -> TokenState
    ensures same { result ≡ token_state_in x.now user row.now id }
{
    if x.is_waiting(user, id) {
        TokenState::Pending
    } else if is_among(row.tokens.as_slice(), id) {
        TokenState::Active
    } else {
        TokenState::Absent
    }
}

/// Says where a token stands. It does no action and takes no memory, and the session stays as it
/// is.
pub fn token_state(x: &Session, user: u32, id: u64) -> Reply
    ensures serves { (old : Sight) → CanServe old x.now → Serves old x.now
        (turned x.now.slots (command.TokenState user id)) Always (Ok result) x.now old }
    ensures refuses { (old : Sight)
        → Refuses (own_refusal x.now (command.TokenState user id)) old x.now (Ok result) x.now old }
    ensures tells { IfSome (row_of x.now.settings.settled.rec user) (λ row.
        result ≡ reply.TokenState (token_state_in x.now user row id)) }
{
    match x.row(user) {
        None => Reply::No(Refusal::NoUser),
        Some(row) => Reply::TokenState(state_in_row(x, user, row, id)),
    }
}
