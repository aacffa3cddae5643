//! The plain program: the replies to a script that is there as a whole, with no board.
ghost use Rattle.std.specs.Prelude.{◌≡◌, IfOk};
ghost use Rattle.ls_lines.specs.Lines.{lines_of};
ghost use Rattle.ls_top.specs.Script.{replies};

use crate::reply::{printed, reply_to};
use crate::vault::Users;
use ls_bytes::{Bytes, Memory, put_bytes};
use ls_lines::first_line;
use std::alloc::Global;

/// What is printed for a script that finds these users.
pub fn replies_of(alloc: Global, users: Users, script: &[u8]) -> Result<Bytes, Memory>
    ensures replies { IfOk result (λ said. said ≡ replies users (lines_of script.now)) }
{
    let mut users = users;
    let mut said = Bytes::of(alloc, &[])?;
    let mut rest = script;
    while !rest.is_empty() {
        let (line, more) = first_line(rest);
        let reply = reply_to(&mut users, line)?;
        put_bytes(&mut said, printed(reply))?;
        rest = more;
    }
    Ok(said)
}
