//! Why a credential isn't replaced.
ghost use Rattle.std.specs.Prelude.{◌≡◌, ◌+◌, ◌-◌, if◌then◌else◌, length, Some};
ghost use Rattle.ls_credential.specs.Rules.{KindAndText};
ghost use Rattle.ls_script.specs.declared.command.Command.TheVariants as command;
ghost use Rattle.ls_script.specs.declared.reply.Refusal.TheVariants as refusal;
ghost use Rattle.ls_turn.specs.Refusing.{own_refusal, unless_open, unless_kept, has_no_slot, used_by};

use ls_record::UserRow;
use ls_script::Refusal;
use ls_turn::Session;

/// What is left of so many slots when a row has its own.
fn left_by(free: usize, row: &UserRow) -> usize
    ensures same { result ≡ free - (1 + length row.now.tokens) }
{
    free.saturating_sub(1)
        .saturating_sub(row.tokens.as_slice().len())
}

/// What is left of so many slots when each row has its own.
fn free_slots(slots: u32, rows: &[UserRow]) -> usize
    ensures same { result ≡ slots - used_by rows.now }
{
    let mut free = slots as usize;
    for row in rows {
        free = left_by(free, row);
    }
    free
}

/// Whether there are slots, and none is free.
fn has_no_slot(x: &Session) -> bool
    ensures same { result ≡ has_no_slot x.now }
{
    0 < x.slots && free_slots(x.slots, x.settings.record().users.as_slice()) == 0
}

/// Why the credential of a user who has a row isn't replaced.
fn refusal_there(x: &Session, user: u32) -> Option<Refusal>
    ensures same { result ≡ unless_open x.now user
        (if has_no_slot x.now then Some refusal.NoSlot else unless_kept x.now) }
{
    if !x.is_open(user) {
        return Some(Refusal::Locked);
    }
    if has_no_slot(x) {
        return Some(Refusal::NoSlot);
    }
    if x.settings.sequence() == u64::MAX {
        return Some(Refusal::Worn);
    }
    None
}

/// Why the credential of a user isn't replaced, by the record and what the session knows.
pub(crate) fn refusal(x: &Session, user: u32) -> Option<Refusal>
    ensures same { (new : KindAndText) → result ≡ own_refusal x.now (command.Change user new) }
{
    match x.row(user) {
        None => Some(Refusal::NoUser),
        Some(_) => refusal_there(x, user),
    }
}
