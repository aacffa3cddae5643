//! Whether a slot is free for a new protector.
ghost use Rattle.std.specs.Prelude.{◌≡◌, ◌+◌, ◌-◌, length};
ghost use Rattle.ls_turn.specs.Refusing.{has_no_slot, used_by};

use ls_record::UserRow;
use ls_turn::Session;

/// What is left of so many slots when a row has its own.
fn left_by(free: usize, row: &UserRow) -> usize
    ensures same { result ≡ free - (1 + length row.now.tokens) }
{
    free.saturating_sub(1)
        .saturating_sub(row.tokens.as_slice().len())
}

/// What is left of so many slots when each row has its own.
fn free_slots(slots: u32, rows: &[UserRow]) -> usize
    ensures same { result ≡ slots - used_by rows.now }
{
    let mut free = slots as usize;
    for row in rows {
        free = left_by(free, row);
    }
    free
}

/// Whether there are slots, and none is free.
pub fn has_no_slot(x: &Session) -> bool
    ensures same { result ≡ has_no_slot x.now }
{
    0 < x.slots && free_slots(x.slots, x.settings.record().users.as_slice()) == 0
}
