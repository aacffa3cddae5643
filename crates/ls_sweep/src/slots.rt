//! The slots of a board that aren't named.
ghost use Rattle.std.specs.Prelude.{◌≡◌, ◌++◌, ◌∷◌, [], not, IfOk, OnOk};
ghost use Rattle.ls_naming.specs.Named.{only_if};
ghost use Rattle.ls_arming.specs.Numbers.{contains};
ghost use Rattle.ls_sweep.specs.Sifted.{AreUnusedBelow};

use ls_bytes::{Memory, SlotList};
use std::alloc::Global;

/// Whether the slot is one of these.
fn is_one_of(slots: &[u32], slot: u32) -> bool
    ensures same { result ≡ contains slots.now slot }
{
    slots.iter().any(|s| *s == slot)
}

/// Adds a slot at the end, where it isn't used.
fn push_unused(left: &mut SlotList, is_used: bool, slot: u32) -> Result<(), Memory>
    ensures pushed { OnOk result (left.new ≡ left.old ++ only_if (not is_used) (slot ∷ [])) }
{
    if !is_used {
        left.push(slot)?;
    }
    Ok(())
}

/// The slots below the count that aren't among the used ones, ascending.
pub fn unused_slots(alloc: Global, count: u32, used: &[u32]) -> Result<SlotList, Memory>
    ensures those { IfOk result (AreUnusedBelow count used.now) }
{
    let mut left = SlotList::new(alloc);
    for slot in 0..count {
        push_unused(&mut left, is_one_of(used, slot), slot)?;
    }
    Ok(left)
}
