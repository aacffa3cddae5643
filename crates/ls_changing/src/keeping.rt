//! What the session knows while a credential is replaced.
ghost use Rattle.std.specs.Prelude.{◌≡◌, ◌≢◌, ◌<◌, ◌≤◌, ℕ, length, map, slice_index_or};
ghost use Rattle.ls_formats.specs.declared.parts.Parts.{Parts};
ghost use Rattle.ls_vault.specs.Revealed.{shown_metrics};
ghost use Rattle.ls_changing.specs.Keeping.{with_metrics, HasId, IsTaken};

use crate::numbers::is_empty;
use ls_credential::{Credential, Metrics};
use ls_protector::Named;
use ls_turn::Opened;

/// Where a protector with this id stands; their number where none has it.
fn place_of(named: &[Named], id: u64) -> usize
    ensures within { result ≤ length named.now }
    ensures found { result < length named.now
        → (d : Parts) → (slice_index_or named.now result d).id ≡ id }
    ensures none { (k : ℕ) → k < result → (d : Parts) → (slice_index_or named.now k d).id ≢ id }
{
    let mut at = 0;
    for one in named {
        if one.parts().id == id {
            return at;
        }
        at += 1;
    }
    at
}

/// Takes the protector with this id out. There is one.
pub(crate) fn take_named(named: &mut Vec<Named>, id: u64) -> Named
    requires there { HasId named.old.items id }
    ensures taken { IsTaken named.old.items result named.new.items }
    ensures id { result.id ≡ id }
{
    let at = place_of(named, id);
    named.remove(at)
}

/// What is shown of a credential: what is counted of it, and nothing where there is none.
fn shown(new: &Credential) -> Option<Metrics>
    ensures same { result ≡ shown_metrics new.now }
{
    if is_empty(new.kind) {
        return None;
    }
    Some(new.metrics())
}

/// The entry with what is shown of another credential, where it is the user's.
fn renew(entry: &mut Opened, user: u32, new: &Credential)
    ensures same { entry.new ≡ with_metrics user (shown_metrics new.now) entry.old }
{
    if entry.user == user {
        entry.metrics = shown(new);
    }
}

/// Keeps what is shown of another credential in the user's entry.
fn keep_each(opened: &mut [Opened], user: u32, new: &Credential)
    ensures same { opened.new ≡ map (with_metrics user (shown_metrics new.now)) opened.old }
{
    for entry in opened.iter_mut() {
        renew(entry, user, new);
    }
}

/// Keeps what is shown of another credential of an opened user.
pub(crate) fn keep_metrics(opened: &mut Vec<Opened>, user: u32, new: &Credential)
    ensures same { opened.new.items
        ≡ map (with_metrics user (shown_metrics new.now)) opened.old.items }
{
    keep_each(opened, user, new);
}
