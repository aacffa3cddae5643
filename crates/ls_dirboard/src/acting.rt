//! A directory is a board.
ghost use Rattle.std.specs.Prelude.{◌≡◌, ◌≤◌, ◌+◌, IfOk, OnOk};
ghost use Rattle.ls_board.specs.Acts.{CanAct, Acts, Readies};
ghost use Rattle.ls_board.specs.Effect.{after, Answers};
ghost use Rattle.ls_secure.specs.Asked.{Asks};

use crate::board::DirBoard;
use crate::outside::Trouble;
use ls_board::{Action, Answer, Board, BoardFault};
use ls_bytes::Memory;
use std::alloc::Global;

impl Board for DirBoard {
    ghost use Rattle.ls_dirboard.specs.Seen.{sight_of, devices_of};

    ghost sight = { sight_of };

    ghost slots_are_told = { λ b told. absurd (cc) };

    ghost slots_are_few = { λ b. b.outside.devices.few };

    ghost tables_are_sorted = { λ b told. absurd (cc) };

    ghost faults_are_none = { λ b none. absurd (cc) };

    fn slots(&self) -> u32 {
        self.outside.devices.slots.len()
    }

    fn ready(&mut self, _alloc: Global, actions: u32, bytes: u64) -> Result<(), Memory>
        ensures readies { Readies (sight_of self.old) actions bytes result (sight_of self.new) }
        ensures devices { devices_of self.new ≡ devices_of self.old }
    {
        let more = self.actions.max(actions);
        self.outside.make_room(more)?;
        self.actions = more;
        self.bytes = self.bytes.max(bytes);
        Ok(())
    }

    fn act(&mut self, a: &Action, out: &mut Vec<u8>) -> Result<Answer, BoardFault>
        requires { CanAct (sight_of self.old) a.now }
        ensures acts { Acts (sight_of self.old) a.now result out.new.items (sight_of self.new) }
        // The devices keep the rules of the board, though nobody is told what they hold.
        ensures devices { IfOk result (λ answer. Asks a.now
            → Answers (devices_of self.old) a.now answer out.new.items
            × (devices_of self.new ≡ after (devices_of self.old) a.now 0)) }
    {
        out.clear();
        let alloc = self.outside.rt.alloc();
        let outcome = self.outside.answer(alloc, a, out);
        self.actions -= 1;
        self.bytes -= a.weight();
        match outcome {
            Ok(answer) => Ok(answer),
            Err(trouble) => {
                out.clear();
                Err(self.fault(trouble, a.part()))
            }
        }
    }
}
