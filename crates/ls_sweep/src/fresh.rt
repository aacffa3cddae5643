//! Numbers that aren't taken yet.
ghost use Rattle.std.specs.Prelude.{◌≡◌, ◌<◌, ◌==◌, ◌&&◌, ◌||◌, length, IfSome, IfNone, IsSome};
ghost use Rattle.ls_vault.specs.Fresh.{first_free, fresh};
ghost use Rattle.ls_arming.specs.Numbers.{contains};
ghost use Rattle.ls_sweep.specs.FreshIds.{beside, fresh_even, AreTakenBelow, IsLowestFree};

/// Whether the number is taken.
fn is_taken(taken: &[u64], d: u64) -> bool
    ensures same { result ≡ contains taken.now d }
{
    taken.iter().any(|t| *t == d)
}

/// Whether the number can't be had: it is taken, or it is 0 where that can't be had.
fn is_barred(zero: bool, taken: &[u64], d: u64) -> bool
    ensures same { result ≡ ((zero && 0 == d) || contains taken.now d) }
{
    (zero && 0 == d) || is_taken(taken, d)
}

/// The first number from d on, in steps of 2 and with 0 after 2^64, that isn't taken, after at
/// most so many steps.
fn first_free(zero: bool, steps: usize, d: u64, taken: &[u64]) -> u64
    ensures same { result ≡ first_free steps d (beside zero taken.now) }
{
    let mut free = d;
    for _ in 0..steps {
        if !is_barred(zero, taken, free) {
            return free;
        }
        free = free.wrapping_add(2);
    }
    free
}

/// The id of a new token, or a new secure id, from a drawn number: the number with its lowest bit
/// set, or the first after it in steps of 2 that isn't taken.
pub fn fresh_token_id(drawn: u64, taken: &[u64]) -> u64
    ensures same { result ≡ fresh drawn taken.now }
{
    first_free(false, taken.len(), 2 * (drawn / 2) + 1, taken)
}

/// The id of a new credential's protector, from a drawn number: the number with its lowest bit
/// cleared, or the first after it in steps of 2 that isn't 0 and isn't taken.
pub fn fresh_protector_id(drawn: u64, taken: &[u64]) -> u64
    ensures same { result ≡ fresh_even drawn taken.now }
{
    first_free(true, taken.len() + 1, 2 * (drawn / 2), taken)
}

/// Whether the slot is taken.
fn is_taken_slot(taken: &[u32], slot: u32) -> bool
    ensures same { result ≡ contains taken.now slot }
{
    taken.iter().any(|t| *t == slot)
}

/// The lowest slot below the count that isn't taken, if there is one. There is one where fewer
/// than the count are taken.
pub fn lowest_free_slot(count: u32, taken: &[u32]) -> Option<u32>
    ensures free { IfSome result (IsLowestFree count taken.now) }
    ensures none { IfNone result (AreTakenBelow count taken.now) }
    ensures room { length taken.now < count → IsSome result }
{
    for slot in 0..count {
        if !is_taken_slot(taken, slot) {
            return Some(slot);
        }
    }
    None
}
