//! All that a board may keep.
ghost use Rattle.std.specs.Prelude.{◌≡◌, ◌≤◌, None, IfOk, OnOk, OnErr};
ghost use Rattle.std.specs.FinMap.Entries.{put};
ghost use Rattle.ls_board.specs.Effect.{with_file};
ghost use Rattle.ls_board.specs.Order.{byte_cmp};
ghost use Rattle.ls_board.specs.Worlds.{blank_world};

use crate::devices::{GkTable, KeyTable};
use crate::files::FileTable;
use crate::rows::copied_list;
use crate::touch::TouchTable;
use ls_bytes::{Bytes, Memory, Name, Rows};
use ls_weaver::Weaver;
use std::alloc::Global;

/// The slots by their numbers.
pub type SlotTable = Weaver;

/// Moments in milliseconds, in the order in which the clock gives them.
pub type MomentList = Rows<u64>;

/// All that a board may keep.
pub struct World {
    /// The files as they read.
    pub files: FileTable,
    /// The files that were touched since the last sync.
    pub touched: TouchTable,
    /// The Weaver's slots.
    pub slots: SlotTable,
    /// The key under which the Gatekeeper signs handles.
    pub gk_key: [u8; 32],
    /// The Gatekeeper's records.
    pub gk: GkTable,
    /// The keys of the key store.
    pub keys: KeyTable,
    /// What the resume cell holds.
    pub cell: Option<[u8; 32]>,
    /// What is left to be heard.
    pub input: Bytes,
    /// What was said.
    pub said: Bytes,
    /// The moments that the clock gives next. The last one stays.
    pub moments: MomentList,
    /// The noise that is left. Past its end there are zeros.
    pub noise: Bytes,
}

// One call lets a world go. Where the drop is derived, each place that may drop a world lets go of
// its fields one by one.
impl Drop for World {
    fn drop(self) {
        let World {
            files: _,
            touched: _,
            slots: _,
            gk_key: _,
            gk: _,
            keys: _,
            cell: _,
            input: _,
            said: _,
            moments: _,
            noise: _,
        } = self;
    }
}

impl World {
    /// A world with so many blank slots, at most 256, in which nothing is stored. The Gatekeeper's
    /// key is zeros.
    pub fn blank(alloc: Global, slots: u32) -> Result<World, Memory>
        requires { slots ≤ 256 }
        ensures blank { IfOk result (λ w. w ≡ blank_world slots) }
    {
        Ok(World {
            files: FileTable::new(alloc),
            touched: TouchTable::new(alloc),
            slots: Weaver::new(alloc, slots)?,
            gk_key: [0; 32],
            gk: GkTable::new(alloc),
            keys: KeyTable::new(alloc),
            cell: None,
            input: Bytes::from(Vec::new(alloc)),
            said: Bytes::from(Vec::new(alloc)),
            moments: MomentList::new(alloc),
            noise: Bytes::from(Vec::new(alloc)),
        })
    }

    /// Makes the file of this name hold these bytes. It isn't touched by that.
    pub fn put_file(&mut self, name: &Name, bytes: &[u8]) -> Result<(), Memory>
        ensures put { OnOk result (self.new
            ≡ record self.old { files = put byte_cmp name.now bytes.now self.old.files }) }
        ensures kept { OnErr result (self.new ≡ self.old) }
    {
        self.files.put(name, bytes)
    }

    /// Takes the file of this name away, if it is there. It isn't touched by that.
    pub fn drop_file(&mut self, name: &Name)
        ensures dropped { self.new
            ≡ record self.old { files = with_file self.old.files name.now None } }
    {
        self.files.remove(name.as_slice());
    }

    /// The same world again.
    pub fn copy(&self, alloc: Global) -> Result<World, Memory>
        ensures same { IfOk result (λ w. w ≡ self.now) }
    {
        let mut world = World::blank(alloc, 0)?;
        self.copy_into(alloc, &mut world)?;
        Ok(world)
    }

    // Makes the world the same as this one.
    fn copy_into(&self, alloc: Global, world: &mut World) -> Result<(), Memory>
        ensures same { OnOk result (world.new ≡ self.now) }
    {
        self.copy_stored_into(alloc, world)?;
        self.copy_streams_into(alloc, world)
    }

    // Makes the files and what the devices store the same, one field at a time.
    fn copy_stored_into(&self, alloc: Global, world: &mut World) -> Result<(), Memory>
        ensures same { OnOk result (world.new ≡ record self.now {
          input = world.old.input;
          said = world.old.said;
          moments = world.old.moments;
          noise = world.old.noise;
        }) }
    {
        world.files = self.files.copy()?;
        world.touched = self.touched.copy()?;
        world.slots = self.slots.copy(alloc)?;
        world.gk_key = self.gk_key;
        world.gk = self.gk.copy(alloc)?;
        world.keys = self.keys.copy(alloc)?;
        world.cell = self.cell;
        Ok(())
    }

    // Makes what is heard, said and drawn the same, one field at a time.
    fn copy_streams_into(&self, alloc: Global, world: &mut World) -> Result<(), Memory>
        ensures same { OnOk result (world.new ≡ record world.old {
          input = self.now.input;
          said = self.now.said;
          moments = self.now.moments;
          noise = self.now.noise;
        }) }
    {
        world.input = Bytes::of(alloc, self.input.as_slice())?;
        world.said = Bytes::of(alloc, self.said.as_slice())?;
        world.moments = copied_list(alloc, &self.moments)?;
        world.noise = Bytes::of(alloc, self.noise.as_slice())?;
        Ok(())
    }
}
