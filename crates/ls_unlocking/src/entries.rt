//! Entries of opened users, in order.
ghost use Rattle.std.specs.Prelude.{◌≡◌, ◌≢◌, ◌≤◌, nat_lt, length, slice_get};
ghost use Rattle.std.specs.Prelude.{IsTrue, IsFalse, IfSome, IsSomeAnd, OnOk, OnErr};
ghost use Rattle.std.specs.List.{insert, prefix_len};
ghost use Rattle.ls_unlocking.specs.Entries.{with_entry};

use ls_bytes::Memory;
use ls_turn::Opened;

/// How many entries at the front are of smaller numbers.
fn smaller_front(entries: &[Opened], user: u32) -> usize
    ensures count { result ≡ prefix_len (λ o. nat_lt o.user user) entries.now }
    ensures within { result ≤ length entries.now }
{
    entries.iter().take_while(|o| o.user < user).count()
}

/// Whether the entry at this place is the user's.
fn is_at(entries: &[Opened], at: usize, user: u32) -> bool
    ensures there { IsTrue result → IsSomeAnd (slice_get entries.now at) (λ o. o.user ≡ user) }
    ensures missing { IsFalse result → IfSome (slice_get entries.now at) (λ o. o.user ≢ user) }
{
    at < entries.len() && entries[at].user == user
}

/// Puts an entry in at a place.
fn insert_at(entries: &mut Vec<Opened>, at: usize, one: Opened) -> Result<(), Memory>
    requires { at ≤ length entries.old.items }
    ensures put { OnOk result (entries.new.items ≡ insert entries.old.items at one) }
    ensures kept { OnErr result (entries.new.items ≡ entries.old.items) }
{
    match entries.insert(at, one) {
        Ok(()) => Ok(()),
        Err(_) => Err(Memory),
    }
}

/// Puts an entry in at its place, where its user has none.
pub(crate) fn put_entry(entries: &mut Vec<Opened>, one: Opened) -> Result<(), Memory>
    ensures put { OnOk result (entries.new.items ≡ with_entry entries.old.items one) }
    ensures kept { OnErr result (entries.new.items ≡ entries.old.items) }
{
    let at = smaller_front(entries, one.user);
    if is_at(entries, at, one.user) {
        return Ok(());
    }
    match insert_at(entries, at, one) {
        Ok(()) => Ok(()),
        Err(_) => Err(Memory),
    }
}
