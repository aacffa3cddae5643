//! The numbers of all users.
ghost use Rattle.std.specs.Prelude.{◌≡◌, map, Some, Err, IfOk, OnOk, OnErr};
ghost use Rattle.ls_board.specs.Acts.{Sight};
ghost use Rattle.ls_script.specs.declared.command.Command.TheVariants as command;
ghost use Rattle.ls_script.specs.declared.reply.Reply.TheVariants as reply;
ghost use Rattle.ls_turn.specs.Refusing.{own_refusal, Refuses};
ghost use Rattle.ls_turn.specs.Serving.{CanServe, Serves, turned, Always};

use ls_bytes::{Memory, UserList};
use ls_record::{Record, UserRow};
use ls_script::Reply;
use ls_turn::{Cause, Session, Stop};
use std::alloc::Global;

/// The numbers of these rows.
fn numbers(alloc: Global, rows: &[UserRow]) -> Result<UserList, Memory>
    ensures same { IfOk result (λ list. list ≡ map (λ r. r.user) rows.now) }
{
    let mut list = UserList::new(alloc);
    for row in rows {
        list.push(row.user)?;
    }
    Ok(list)
}

/// Says the numbers of all users, ascending. It does no action. Without memory the session stops,
/// and else it stays as it is.
pub fn users(x: &mut Session) -> Result<Reply, Stop>
    ensures serves { (old : Sight) → CanServe old x.old → Serves old x.old
        (turned x.old.slots command.Users) Always result x.new old }
    ensures refuses { (old : Sight)
        → Refuses (own_refusal x.old command.Users) old x.old result x.new old }
    ensures tells { IfOk result (λ r.
        r ≡ reply.Users (map (λ u. u.user) x.old.settings.settled.rec.users)) }
    ensures kept { OnOk result (x.new ≡ x.old) }
    ensures lacking { OnErr result ((result ≡ Err Stop.Memory)
        × (x.new ≡ record x.old { stopped = Some Cause.Memory })) }
{
    let list = match numbers(x.alloc, x.settings.record().users.as_slice()) {
        Ok(list) => list,
        Err(_) => {
            x.stopped = Some(Cause::Memory);
            return Err(Stop::Memory);
        }
    };
    Ok(Reply::Users(list))
}
