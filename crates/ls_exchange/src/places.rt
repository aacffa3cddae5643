//! Places for the protectors that a change names and lets go.
ghost use Rattle.std.specs.Prelude.{◌≡◌, ◌≤◌, ◌+◌, length, vec_len, vec_capacity, OnOk};

use crate::work::Exchange;
use ls_bytes::Memory;
use ls_protector::{Named, Retired};

impl Exchange {
    /// Makes places for the new protectors among those that are named, and for those that are let go
    /// among the retired.
    pub fn make_places(
        &self,
        named: &mut Vec<Named>,
        retired: &mut Vec<Retired>,
    ) -> Result<(), Memory>
        ensures named { named.new.items ≡ named.old.items }
        ensures retired { retired.new.items ≡ retired.old.items }
        ensures named_room { OnOk result
            (vec_len named.new + length self.now.drafts ≤ vec_capacity named.new) }
        ensures retired_room { OnOk result
            (vec_len retired.new + length self.now.retire ≤ vec_capacity retired.new) }
    {
        named.reserve(self.drafts.len())?;
        retired.reserve(self.retire.len())?;
        Ok(())
    }
}
