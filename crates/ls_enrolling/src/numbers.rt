//! The numbers that are chosen for a new protector.
ghost use Rattle.std.specs.Prelude.{◌≡◌, ◌≢◌, ◌≤◌, ◌<◌, ◌+◌, ◌^◌, true, length, IfOk};
ghost use Rattle.ls_placing.specs.Placing.{HasNewPlace, slots_of};
ghost use Rattle.ls_record.specs.Rows.{is_protector_id};
ghost use Rattle.ls_turn.specs.Agreeing.{retired_files};
ghost use Rattle.ls_turn.specs.Serving.{FitsBoard};

use ls_bytes::Memory;
use ls_placing::{free_slot, new_places_are_free, protector_id, taken_ids, taken_slots};
use ls_turn::Session;

/// The id of a new protector, and its slot.
#[derive(Clone, Copy)]
pub(crate) struct Numbers {
    pub(crate) id: u64,
    pub(crate) slot: Option<u32>,
}

/// Chooses them, by what the session knows. The eight bytes for the id stand at a place in the drawn
/// bytes.
pub(crate) fn choose(x: &Session, drawn: &[u8], at: usize) -> Result<Numbers, Memory>
    requires room { x.now.slots ≢ 0 → length (slots_of x.now.named.items) < x.now.slots }
    requires drawn { at + 8 ≤ length drawn.now }
    ensures place { IfOk result (λ n.
        HasNewPlace x.now.named.items (retired_files x.now) n.id n.slot) }
    ensures fits { IfOk result (λ n. FitsBoard x.now.slots n.slot) }
    ensures even { IfOk result (λ n. is_protector_id n.id ≡ true) }
    ensures small { IfOk result (λ n. n.id < 2 ^ 64) }
{
    let ids = taken_ids(x.alloc, &x.named, &x.retired)?;
    let slots = taken_slots(x.alloc, &x.named)?;
    new_places_are_free();
    Ok(Numbers {
        id: protector_id(&drawn[at..], &ids),
        slot: free_slot(x.slots, &slots),
    })
}
