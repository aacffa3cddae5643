//! The board in memory is a board.
ghost use Rattle.std.specs.Prelude.{◌≡◌, ◌≤◌, ◌+◌, OnOk, vec_len, vec_capacity};
ghost use Rattle.ls_board.specs.Acts.{CanAct, Acts, Readies};
ghost use Rattle.ls_memboard.specs.Failing.{most_heard};

use crate::failure::outcome;
use crate::memory::MemBoard;
use ls_board::{Action, Answer, Board, BoardFault};
use ls_bytes::Memory;
use std::alloc::Global;

/// Makes room for so many more items.
fn grow<T>(items: &mut Vec<T>, wanted: usize) -> Result<(), Memory>
    ensures items { items.new.items ≡ items.old.items }
    ensures len { vec_len items.new ≡ vec_len items.old }
    ensures enough { OnOk result (vec_len items.new + wanted ≤ vec_capacity items.new) }
    ensures capacity { vec_capacity items.old ≤ vec_capacity items.new }
{
    items.reserve(wanted)?;
    Ok(())
}

impl MemBoard {
    ghost use Rattle.ls_memboard.specs.Seen.{sight_of};

    /// How many bytes the action could hear.
    fn could_hear(&self, a: &Action) -> usize
        ensures most { result ≡ most_heard (sight_of self.now).world a.now }
    {
        match a {
            Action::Hear { max } => self.devices.input.rest().len().min(*max as usize),
            _ => 0,
        }
    }
}

impl Board for MemBoard {
    ghost use Rattle.ls_memboard.specs.Seen.{sight_of, failures_of};
    ghost use Rattle.ls_memboard.specs.Failing.{FailsAsListed};

    ghost sight = { sight_of };

    ghost slots_are_told = { λ b told. b.in_step.slots };

    ghost slots_are_few = { λ b. b.in_step.few_slots };

    ghost tables_are_sorted = { λ b told. b.in_step.in_order };

    ghost faults_are_none = { λ b none. b.in_step.quiet none };

    fn slots(&self) -> u32 {
        self.start.slots.len()
    }

    fn ready(&mut self, _alloc: Global, actions: u32, bytes: u64) -> Result<(), Memory>
        ensures readies { Readies (sight_of self.old) actions bytes result (sight_of self.new) }
        ensures failures { failures_of self.new ≡ failures_of self.old }
    {
        let more = self.actions.max(actions);
        let longer = self.bytes.max(bytes as usize);
        grow(&mut self.log, more as usize)?;
        grow(&mut self.changes, more as usize)?;
        grow(&mut self.pool, longer)?;
        self.devices.make_room(more, longer)?;
        self.actions = more;
        self.bytes = longer;
        Ok(())
    }

    fn act(&mut self, a: &Action, out: &mut Vec<u8>) -> Result<Answer, BoardFault>
        requires { CanAct (sight_of self.old) a.now }
        ensures acts { Acts (sight_of self.old) a.now result out.new.items (sight_of self.new) }
        ensures failing { FailsAsListed (failures_of self.old) (sight_of self.old) a.now result
            (sight_of self.new) }
        ensures failures { failures_of self.new ≡ failures_of self.old }
    {
        out.clear();
        if let Some(done) = outcome(self.failures.as_slice(), self.log.len()) {
            let count = self.could_hear(a);
            self.note(a, done, true, count);
            return Err(BoardFault::Failed(a.part()));
        }
        match self.answered(a, out) {
            Ok(answer) => {
                self.note(a, true, false, out.len());
                Ok(answer)
            }
            Err(_) => {
                self.note(a, false, false, 0);
                Err(BoardFault::Memory)
            }
        }
    }
}
