//! The board itself, and how it is made.
ghost use Rattle.std.specs.Prelude.{◌≡◌, ◌+◌, ◌≤◌, [], true, length, IfOk, OnOk, OnErr, vec_len, vec_capacity};
ghost use Rattle.ls_memboard.specs.Step.{IsInStep};
ghost use Rattle.ls_memboard.specs.Failures.{has_none};

use crate::call::Entry;
use crate::devices::Devices;
use crate::failure::FailureList;
use ls_board::World;
use ls_bytes::Memory;
use std::alloc::Global;

/// A board in memory. It tells its whole world.
pub struct MemBoard {
    pub(crate) alloc: Global,
    pub(crate) start: World,
    pub(crate) failures: FailureList,
    /// The calls done, the oldest first.
    pub(crate) log: Vec<Entry>,
    /// Those of them that changed what a file holds.
    pub(crate) changes: Vec<Entry>,
    /// The names and bytes of all calls.
    pub(crate) pool: Vec<u8>,
    /// What stands beside the files now.
    pub(crate) devices: Devices,
    /// The spare room.
    pub(crate) actions: u32,
    pub(crate) bytes: usize,
    ghost log_room: { vec_len log + actions ≤ vec_capacity log },
    ghost changes_room: { vec_len changes + actions ≤ vec_capacity changes },
    ghost pool_room: { vec_len pool + bytes ≤ vec_capacity pool },
    ghost said_room: { vec_len devices.said + bytes ≤ vec_capacity devices.said },
    ghost record_room: { actions ≤ devices.gk.spare },
    ghost key_room: { actions ≤ devices.keys.spare },
    ghost in_step: { IsInStep start failures pool.items log.items changes.items devices },
}

// One call lets a board go, as one lets go of a world.
impl Drop for MemBoard {
    fn drop(self) {
        let MemBoard {
            alloc: _,
            start: _,
            failures: _,
            log: _,
            changes: _,
            pool: _,
            devices: _,
            actions: _,
            bytes: _,
        } = self;
    }
}

impl MemBoard {
    ghost use Rattle.ls_board.specs.Acts.{Sight};
    ghost use Rattle.ls_board.specs.declared.world.World.{World as Worlds};
    ghost use Rattle.ls_memboard.specs.Seen.{sight_of, failures_of, fresh};

    /// A board that starts at this world, whose Weaver has at most 256 slots, and fails these calls.
    /// It has no spare room yet.
    pub fn new(alloc: Global, world: World, failures: FailureList) -> Result<MemBoard, Memory>
        requires { length world.slots ≤ 256 }
        ensures seen { IfOk result (λ b. sight_of b ≡ fresh world failures) }
        ensures failures { IfOk result (λ b. failures_of b ≡ failures) }
    {
        let _ = world.files.len();
        let _ = world.touched.len();
        let _ = world.gk.len();
        let _ = world.keys.len();
        let devices = Devices::of(alloc, &world)?;
        Ok(MemBoard {
            alloc,
            start: world,
            failures,
            log: Vec::new(alloc),
            changes: Vec::new(alloc),
            pool: Vec::new(alloc),
            devices,
            actions: 0,
            bytes: 0,
        })
    }

    /// Begins again on this world, whose Weaver has at most 256 slots: the same calls fail, no call
    /// was made, and there is no spare room. Without memory the board is as it was.
    pub fn restart(&mut self, world: World) -> Result<(), Memory>
        requires { length world.slots ≤ 256 }
        ensures seen { OnOk result (sight_of self.new ≡ fresh world (failures_of self.old)) }
        ensures kept { OnErr result (sight_of self.new ≡ sight_of self.old) }
        ensures failures { failures_of self.new ≡ failures_of self.old }
    {
        let _ = world.files.len();
        let _ = world.touched.len();
        let _ = world.gk.len();
        let _ = world.keys.len();
        let devices = Devices::of(self.alloc, &world)?;
        self.start = world;
        self.log = Vec::new(self.alloc);
        self.changes = Vec::new(self.alloc);
        self.pool = Vec::new(self.alloc);
        self.devices = devices;
        self.actions = 0;
        self.bytes = 0;
        Ok(())
    }

    /// How many calls of `act` were made.
    pub fn moment(&self) -> u64
        ensures calls { result ≡ length (sight_of self.now).past }
    {
        self.log.len() as u64
    }

    /// All that was said, with what the start had said.
    pub fn said(&self) -> &[u8]
        ensures same { result.now ≡ (sight_of self.now).world.said }
    {
        &self.devices.said
    }
}
