//! How a call is noted.
ghost use Rattle.std.specs.Prelude.{◌≡◌, ◌+◌, ◌≤◌, ◌++◌, ◌∷◌, [], false, true, IsTrue, vec_len, vec_capacity};
ghost use Rattle.std.specs.List.{filter};
ghost use Rattle.ls_memboard.specs.Calls.{changed_a_file};
ghost use Rattle.ls_board.specs.Effect.{weight_of};
ghost use Rattle.ls_board.specs.Images.{changing};
ghost use Rattle.ls_memboard.specs.Failures.{has_none};
ghost use Rattle.ls_memboard.specs.Noted.{IsNoted};
ghost use Rattle.ls_memboard.specs.Replay.{call_fits};

use crate::call::Entry;
use crate::memory::MemBoard;
use crate::pool::keep;
use ls_board::Action;

/// Keeps the entry among the changes, where it changed a file.
fn keep_change(changes: &mut Vec<Entry>, e: Entry)
    requires { vec_len changes.old + 1 ≤ vec_capacity changes.old }
    ensures items { changes.new.items ≡ changes.old.items ++ filter changed_a_file (e ∷ []) }
    ensures len { vec_len changes.new ≤ vec_len changes.old + 1 }
    ensures capacity { vec_capacity changes.old ≤ vec_capacity changes.new }
{
    if e.changed_a_file() {
        changes.push_reserved(e);
    }
}

impl MemBoard {
    ghost use Rattle.ls_memboard.specs.Seen.{sight_of};

    /// Notes a call: whether it had its effect, whether it failed, and how many bytes it heard.
    pub(crate) fn note(&mut self, a: &Action, whole: bool, failed: bool, count: usize)
        requires actions { 1 ≤ self.old.actions }
        requires bytes { weight_of a.now ≤ self.old.bytes }
        requires fits { IsTrue (call_fits (sight_of self.old).world (changing a.now)) }
        requires listed { failed ≡ true → has_none self.old.failures ≡ false }
        ensures noted { IsNoted (sight_of self.old) a.now whole failed count (sight_of self.new) }
        ensures failures { self.new.failures ≡ self.old.failures }
    {
        let kept = keep(&mut self.pool, a);
        let entry = Entry {
            kept,
            part: a.part(),
            whole,
            failed,
            count,
        };
        self.log.push_reserved(entry);
        keep_change(&mut self.changes, entry);
        self.devices.redo(&self.pool, &entry);
        self.actions -= 1;
        self.bytes -= a.weight() as usize;
    }
}
