//! All slots of a device.
ghost use Rattle.std.specs.Prelude.{◌≡◌, ◌≤◌, ◌<◌, ◌++◌, ◌∷◌, [], length, replicate, slice_get, slice_set, slice_index_or, option_copied, IfOk, OnOk, OnErr};
ghost use Rattle.ls_weaver.specs.Slots.{blank_slot, written, slot_after, slot_answer};

use crate::slot::{Slot, SlotRead};
use ls_bytes::Memory;
use std::alloc::Global;
use std::marker::Model;

/// The slots of a device, by their numbers.
#[derive(Drop)]
pub struct Weaver {
    slots: Vec<Slot>,
}

impl Model for Weaver {
    ghost use Rattle.std.specs.Prelude.{List, length, ◌<◌, ◌^◌};
    ghost use Rattle.ls_weaver.specs.declared.slot.Slot.{Slot};

    ghost Value = { List Slot };

    ghost view = { λ w. w.slots.items };

    ghost invariant = { λ w. length w.slots.items < 2 ^ 32 };
}

impl Weaver {
    /// So many blank slots.
    pub fn new(alloc: Global, n: u32) -> Result<Weaver, Memory>
        ensures blank { IfOk result (λ w. w ≡ replicate n blank_slot) }
    {
        let mut slots = Vec::new(alloc);
        slots.resize(n as usize, Slot::blank())?;
        Ok(Weaver { slots })
    }

    /// How many slots there are.
    pub fn len(&self) -> u32
        ensures count { result ≡ length self.now }
    {
        self.slots.len() as u32
    }

    /// The slot of this number, if there is one.
    pub fn get(&self, slot: u32) -> Option<&Slot>
        ensures found { option_copied result ≡ slice_get self.now slot }
    {
        self.slots.get(slot as usize)
    }

    /// Puts a slot at the end.
    pub fn push(&mut self, slot: Slot) -> Result<(), Memory>
        ensures pushed { OnOk result (self.new ≡ self.old ++ slot ∷ []) }
        ensures kept { OnErr result (self.new ≡ self.old) }
    {
        if self.slots.len() >= u32::MAX as usize {
            return Err(Memory);
        }
        self.slots.reserve(1)?;
        self.slots.push_reserved(slot);
        Ok(())
    }

    /// Writes the slot of this number.
    pub fn write(&mut self, slot: u32, key: &[u8; 16], value: &[u8; 16])
        requires { slot < length self.old }
        ensures written { self.new ≡ slice_set self.old slot (written key.now value.now) }
    {
        self.slots[slot as usize].write(key, value);
    }

    /// Reads the slot of this number at this moment, in milliseconds.
    pub fn read(&mut self, slot: u32, key: &[u8; 16], moment: u64) -> SlotRead
        requires { slot < length self.old }
        ensures answer { result
            ≡ slot_answer (slice_index_or self.old slot blank_slot) key.now moment }
        ensures after { self.new ≡ slice_set self.old slot
            (slot_after (slice_index_or self.old slot blank_slot) key.now moment) }
    {
        self.slots[slot as usize].read(key, moment)
    }

    /// The same slots again.
    pub fn copy(&self, alloc: Global) -> Result<Weaver, Memory>
        ensures same { IfOk result (λ w. w ≡ self.now) }
    {
        Ok(Weaver {
            slots: self.slots.to_vec(alloc)?,
        })
    }
}
