//! Where a new protector goes: a slot and an id that no other has.
#![tactic(auto)]

mod ids;
mod laws;
mod room;
mod slots;

pub use ids::{id_in, protector_id, taken_ids};
pub use laws::{
    a_new_place_is_clear, a_new_place_is_kept, new_places_are_free, there_is_a_free_slot,
};
pub use room::has_no_slot;
pub use slots::{free_slot, taken_slots};
