//! The one way to the outside.
ghost use Rattle.std.specs.Prelude.{◌≡◌, ◌≤◌, length, IsTrue};
ghost use Rattle.ls_board.specs.Acts.{Sight, CanAct, Acts, Readies};
ghost use Rattle.ls_board.specs.Worlds.{InOrder};
ghost use Rattle.ls_board.specs.declared.action.Part.{Part as Parts};

use crate::action::{Action, Answer, BoardFault};
use ls_bytes::Memory;
use std::alloc::Global;

/// Files, devices, input and output, in one order of calls.
///
/// A board may tell its world or not; no call changes whether it does. The room that its spare
/// actions and bytes give is used up by `act` and made by `ready`.
pub trait Board {
    /// What contracts see of it.
    ghost sight: { Self → Sight };

    /// The number of Weaver slots, 0 to 256; 0 where there is no Weaver. It never changes.
    fn slots(&self) -> u32
        ensures { result ≡ (sight self.now).slots };

    /// Makes the spare room at least so many actions and bytes, never makes it smaller, and
    /// changes nothing else.
    fn ready(&mut self, alloc: Global, actions: u32, bytes: u64) -> Result<(), Memory>
        ensures { Readies (sight self.old) actions bytes result (sight self.new) };

    /// Clears `out`, does one action, and puts the bytes of its answer into `out`.
    fn act(&mut self, a: &Action, out: &mut Vec<u8>) -> Result<Answer, BoardFault>
        requires { CanAct (sight self.old) a.now }
        ensures { Acts (sight self.old) a.now result out.new.items (sight self.new) };

    /// Where the world is told, the number of slots is that of the world.
    ghost slots_are_told: { (b : Self) → IsTrue (sight b).told
        → (sight b).slots ≡ length (sight b).world.slots };

    /// There are at most 256 slots.
    ghost slots_are_few: { (b : Self) → (sight b).slots ≤ 256 };

    /// Where the world is told, the rows of its tables stand in the order of their keys.
    ghost tables_are_sorted: { (b : Self) → IsTrue (sight b).told → InOrder (sight b).world };

    /// A board of which no call ever fails has counted no fault.
    ghost faults_are_none: { (b : Self) → IsTrue (sight b).never_fails
        → (p : Parts) → (sight b).faults p ≡ 0 };
}
