//! What is printed for a line.
ghost use Rattle.std.specs.Prelude.{◌≡◌, ◌≢◌, ◌≤◌, ℕ, List, length, IfOk, OnErr, Some, None, count_by, ◌==◌};
ghost use Rattle.ls_lines.specs.Lines.{ended};
ghost use Rattle.ls_top.specs.Lines.{reply_text, syntax_text};
ghost use Rattle.ls_top.specs.Printed.{printed_for};
ghost use Rattle.ls_top.specs.Script.{served};

use crate::line::command_of_line;
use crate::vault::{Refusal, Reply, Users};
use ls_bytes::Memory;

/// What is printed for a line: the reply of its command, or that it has none.
pub fn printed(reply: Option<Reply>) -> &'static [u8]
    ensures text { result.now ≡ printed_for reply }
{
    match reply {
        None => b"no syntax 1\n",
        Some(Reply::Fine) => b"ok\n",
        Some(Reply::Refused(Refusal::UserExists)) => b"no user-exists\n",
        Some(Reply::Refused(Refusal::UserLimit)) => b"no user-limit\n",
    }
}

/// Does the command of a line, and gives its reply; there is none where the line has no command.
/// Only a reply Fine has changed the users.
pub fn reply_to(users: &mut Users, line: &[u8]) -> Result<Option<Reply>, Memory>
    ensures printed { IfOk result (λ reply.
        (served users.old line.now).printed ≡ printed_for reply) }
    ensures users { IfOk result (λ reply. (served users.old line.now).users ≡ users.new) }
    ensures same { IfOk result (λ reply. reply ≢ Some Reply.Fine → users.new ≡ users.old) }
    ensures kept { OnErr result (users.new ≡ users.old) }
{
    match command_of_line(line) {
        None => Ok(None),
        Some(command) => Ok(Some(users.step(command)?)),
    }
}
