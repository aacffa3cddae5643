//! Why settings aren't opened, and why no commit is prepared.
ghost use Rattle.std.specs.Prelude.{◌≡◌};

use ls_board::{BoardFault, Part};
use ls_bytes::{Memory, Name};

/// Why settings aren't opened.
#[derive(Drop)]
pub enum OpenRefusal {
    /// The current settings file is at fault: its name, and the place in it, from 0, of the first
    /// fault.
    Foreign { name: Name, at: u32 },
    /// This part of the board failed, and its count rose.
    Fault(Part),
    /// There was no memory.
    Memory,
}

impl From<BoardFault> for OpenRefusal {
    ghost use Rattle.ls_settings.specs.Refusals.{refusal_of};

    ghost from_gives = { λ fault e. e ≡ refusal_of fault };

    fn from(fault: BoardFault) -> OpenRefusal {
        match fault {
            BoardFault::Failed(part) => OpenRefusal::Fault(part),
            BoardFault::Memory => OpenRefusal::Memory,
        }
    }
}

impl From<Memory> for OpenRefusal {
    ghost use Rattle.ls_settings.specs.declared.fault.OpenRefusal.TheVariants as refusal;

    ghost from_gives = { λ _ e. e ≡ refusal.Memory };

    fn from(_memory: Memory) -> OpenRefusal {
        OpenRefusal::Memory
    }
}

/// Why no commit is prepared.
#[derive(Clone, Copy, Debug, PartialEq, Eq)]
pub enum PrepareFault {
    /// The settings have the last sequence number.
    Worn,
    /// There was no memory.
    Memory,
}

impl From<Memory> for PrepareFault {
    ghost use Rattle.ls_settings.specs.declared.fault.PrepareFault.TheVariants as fault;

    ghost from_gives = { λ _ e. e ≡ fault.Memory };

    fn from(_memory: Memory) -> PrepareFault {
        PrepareFault::Memory
    }
}

/// Why a settings file isn't read.
#[derive(Clone, Copy, Debug, PartialEq, Eq)]
pub(crate) enum FileFault {
    /// The place of the first fault, from 0.
    Foreign { at: u32 },
    /// There was no memory.
    Memory,
}

impl From<Memory> for FileFault {
    ghost use Rattle.ls_settings.specs.declared.fault.FileFault.TheVariants as fault;

    ghost from_gives = { λ _ e. e ≡ fault.Memory };

    fn from(_memory: Memory) -> FileFault {
        FileFault::Memory
    }
}
