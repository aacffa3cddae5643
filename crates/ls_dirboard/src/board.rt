//! The board itself.
ghost use Rattle.std.specs.Prelude.{◌≡◌, ◌≤◌};

use crate::faults::Faults;
use crate::outside::{Outside, Trouble};
use ls_board::{BoardFault, Part};

/// A board over a directory. It tells nothing of its world.
#[derive(Drop)]
pub struct DirBoard {
    pub(crate) outside: Outside,
    pub(crate) faults: Faults,
    /// The spare room.
    pub(crate) actions: u32,
    pub(crate) bytes: u64,
    ghost record_room: { actions ≤ outside.devices.gk.spare },
    ghost key_room: { actions ≤ outside.devices.keys.spare },
}

impl DirBoard {
    ghost use Rattle.std.specs.Prelude.{Err};
    ghost use Rattle.ls_dirboard.specs.Seen.{Blames};

    /// What is answered where an action of this part wasn't done. A failure is counted.
    pub(crate) fn fault(&mut self, trouble: Trouble, part: Part) -> BoardFault
        ensures blames { Blames part trouble self.old.faults result self.new.faults }
        ensures outside { self.new.outside ≡ self.old.outside }
        ensures actions { self.new.actions ≡ self.old.actions }
        ensures bytes { self.new.bytes ≡ self.old.bytes }
    {
        match trouble {
            Trouble::Memory => BoardFault::Memory,
            Trouble::Failed => {
                self.faults.count(part);
                BoardFault::Failed(part)
            }
        }
    }
}
