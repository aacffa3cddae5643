//! The slot of a new protector.
ghost use Rattle.std.specs.Prelude.{◌≡◌, ◌≢◌, ◌<◌, ◌++◌, length, IfOk, OnOk};
ghost use Rattle.ls_placing.specs.Placing.{slot_list, slots_of, IsFreeSlot};

use ls_bytes::{Memory, SlotList};
use ls_protector::Named;
use ls_sweep::lowest_free_slot;
use std::alloc::Global;

/// Adds a slot at the end, where there is one.
fn push_slot(slots: &mut SlotList, slot: Option<u32>) -> Result<(), Memory>
    ensures pushed { OnOk result (slots.new ≡ slots.old ++ slot_list slot) }
{
    match slot {
        None => Ok(()),
        Some(slot) => slots.push(slot),
    }
}

/// The slots that these protectors have, in order.
pub fn taken_slots(alloc: Global, named: &[Named]) -> Result<SlotList, Memory>
    ensures same { IfOk result (λ slots. slots ≡ slots_of named.now) }
{
    let mut slots = SlotList::new(alloc);
    for one in named {
        push_slot(&mut slots, one.parts().slot)?;
    }
    Ok(slots)
}

/// The slot of a new protector on a board with so many slots: the lowest one that isn't taken. None
/// exactly on a board without slots.
pub fn free_slot(slots: u32, taken: &SlotList) -> Option<u32>
    requires room { slots ≢ 0 → length taken.now < slots }
    ensures free { IsFreeSlot slots taken.now result }
{
    lowest_free_slot(slots, taken.as_slice())
}
