//! What a session knows of a user.
ghost use Rattle.std.specs.Prelude.{◌≡◌, find, filter, length, not, ◌==◌};
ghost use Rattle.std.specs.List.{list_any};
ghost use Rattle.std.specs.Option.{option_copied};
ghost use Rattle.ls_record.specs.Rows.{IsRecord};
ghost use Rattle.ls_turn.specs.Refusing.{row_of, is_open, pending_for, is_waiting};

use crate::session::{Opened, Session};
use ls_record::UserRow;

/// The row of a user among these.
fn find_row(rows: &[UserRow], user: u32) -> Option<&UserRow>
    ensures same { option_copied result ≡ find (λ r. r.user == user) rows.now }
{
    rows.iter().find(|r| r.user == user)
}

/// The entry of a user among these.
pub fn find_entry(opened: &[Opened], user: u32) -> Option<&Opened>
    ensures same { option_copied result ≡ find (λ o. o.user == user) opened.now }
{
    opened.iter().find(|o| o.user == user)
}

/// Whether one of these is the user.
fn has_entry(opened: &[Opened], user: u32) -> bool
    ensures same { result ≡ list_any (λ o. o.user == user) opened.now }
{
    opened.iter().any(|o| o.user == user)
}

/// Takes the entry of a user out.
pub fn take_out(opened: &mut Vec<Opened>, user: u32)
    ensures same { opened.new.items ≡ filter (λ o. not (o.user == user)) opened.old.items }
{
    opened.retain(|o| !(o.user == user));
}

impl Session {
    /// The user's row in the record; None exactly where it has none.
    pub fn row(&self, user: u32) -> Option<&UserRow>
        ensures same { option_copied result ≡ row_of self.now.settings.settled.rec user }
        ensures kept { IsRecord self.now.settings.settled.rec }
    {
        find_row(self.settings.record().users.as_slice(), user)
    }

    /// Whether the user is opened.
    pub fn is_open(&self, user: u32) -> bool
        ensures same { result ≡ is_open self.now user }
    {
        has_entry(&self.opened, user)
    }

    /// How many pending tokens the user has.
    pub fn pending_count(&self, user: u32) -> usize
        ensures same { result ≡ length (pending_for self.now user) }
    {
        self.pending.iter().filter(|p| p.user == user).count()
    }

    /// Whether one of the user's pending tokens has this id.
    pub fn is_waiting(&self, user: u32, id: u64) -> bool
        ensures same { result ≡ is_waiting self.now user id }
    {
        self.pending.iter().any(|p| p.user == user && p.id == id)
    }
}
