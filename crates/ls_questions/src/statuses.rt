//! How a user stands.
ghost use Rattle.std.specs.Prelude.{◌≡◌, ◌≤◌, length, Ok, IfSome};
ghost use Rattle.ls_board.specs.Acts.{Sight};
ghost use Rattle.ls_script.specs.declared.command.Command.TheVariants as command;
ghost use Rattle.ls_script.specs.declared.reply.Reply.TheVariants as reply;
ghost use Rattle.ls_turn.specs.Refusing.{row_of, pending_for, own_refusal, Refuses};
ghost use Rattle.ls_turn.specs.Serving.{CanServe, Serves, turned, Always};
ghost use Rattle.ls_questions.specs.Answers.{status_in};

use ls_record::UserRow;
use ls_script::{Refusal, Reply, StatusRow};
use ls_turn::Session;

/// A count that fits a byte, or the last number of one.
fn small(count: usize) -> u8
    ensures same { count ≤ 255 → result ≡ count }
{
    u8::try_from(count).unwrap_or(u8::MAX)
}

/// How the user of a row stands.
fn status_row(x: &Session, user: u32, row: &UserRow) -> StatusRow
    ensures same { length row.now.tokens ≤ 255 → length (pending_for x.now user) ≤ 255
        → result ≡ status_in x.now user row.now }
{
    StatusRow {
        opened: x.is_open(user),
        kind: row.kind,
        escrow: row.escrow,
        secure: row.secure,
        active: small(row.tokens.as_slice().len()),
        pending: small(x.pending_count(user)),
    }
}

/// Says how a user stands. It does no action and takes no memory, and the session stays as it is.
pub fn status(x: &Session, user: u32) -> Reply
    ensures serves { (old : Sight) → CanServe old x.now → Serves old x.now
        (turned x.now.slots (command.Status user)) Always (Ok result) x.now old }
    ensures refuses { (old : Sight)
        → Refuses (own_refusal x.now (command.Status user)) old x.now (Ok result) x.now old }
    // on every board, of as many pending tokens as fit a byte
    ensures tells { IfSome (row_of x.now.settings.settled.rec user) (λ row. length (pending_for x.now user) ≤ 255
        → result ≡ reply.Status (status_in x.now user row)) }
{
    match x.row(user) {
        None => Reply::No(Refusal::NoUser),
        Some(row) => Reply::Status(status_row(x, user, row)),
    }
}
