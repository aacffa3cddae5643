//! How many tokens become active, and how many bytes are drawn for them.
ghost use Rattle.std.specs.Prelude.{◌≡◌, ◌≤◌, ◌-◌, ◌+◌, ◌*◌, length};
ghost use Rattle.ls_turn.specs.Refusing.{used_by};
ghost use Rattle.ls_vault.specs.Drawn.{token_len};
ghost use Rattle.ls_activating.specs.Counting.{count_for};

use ls_record::UserRow;
use ls_turn::Session;

/// What is left of so many slots when a row has its own.
fn left_by(free: usize, row: &UserRow) -> usize
    ensures same { result ≡ free - (1 + length row.now.tokens) }
{
    free.saturating_sub(1)
        .saturating_sub(row.tokens.as_slice().len())
}

/// What is left of so many slots when each row has its own.
fn free_slots(slots: u32, rows: &[UserRow]) -> usize
    ensures same { result ≡ slots - used_by rows.now }
{
    let mut free = slots as usize;
    for row in rows {
        free = left_by(free, row);
    }
    free
}

/// How many pending tokens of the user become active: none where nothing can be kept, all where
/// there are no slots, else as many as there are free slots.
pub(crate) fn count_for(x: &Session, user: u32) -> usize
    ensures same { result ≡ count_for x.now user }
{
    if x.settings.sequence() == u64::MAX {
        return 0;
    }
    let waiting = x.pending_count(user);
    if x.slots == 0 {
        return waiting;
    }
    let free = free_slots(x.slots, x.settings.record().users.as_slice());
    if waiting < free { waiting } else { free }
}

/// How many bytes are drawn for the protector of one token, on a board with so many slots.
pub(crate) fn token_len(slots: u32) -> u32
    ensures same { result ≡ token_len slots }
{
    if slots == 0 { 16440 } else { 16468 }
}

/// How many bytes are drawn for so many tokens.
pub(crate) fn drawn_len(slots: u32, count: usize) -> u32
    requires few { count ≤ 8 }
    ensures same { result ≡ count * token_len slots }
{
    count as u32 * token_len(slots)
}
