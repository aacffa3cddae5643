//! What a reply says of a user, and why a command is refused.
ghost use Rattle.std.specs.Prelude.{◌≡◌, ◌≤◌, ◌*◌, length, OnOk};
ghost use Rattle.std.specs.List.{flat_map};
ghost use Rattle.ls_script.specs.ReplyLines.{NamesFile};
ghost use Rattle.ls_script.specs.ReplyText.{opened_words, status_words, opened_text, escrow_text};
ghost use Rattle.ls_script.specs.ReplyText.{refusal_words, refusal_name, refusal_details, Puts};

use crate::reply::{Refusal, Revealed, StatusRow};
use crate::words::{kind_name, put_key, put_metrics, put_number, put_secure, put_small, put_word};
use ls_bytes::{Bytes, Memory};

/// What an opened user gets.
pub(crate) fn put_opened(to: &mut Bytes, r: &Revealed) -> Result<(), Memory>
    ensures { OnOk result (Puts (opened_words r.now) 589 to.old to.new) }
{
    put_small(to, r.user)?;
    put_key(to, &r.derived.keystore)?;
    put_key(to, &r.derived.fbe)?;
    put_key(to, &r.derived.auth)?;
    put_key(to, &r.derived.gk)?;
    put_secure(to, r.secure)?;
    put_metrics(to, &r.metrics)?;
    Ok(())
}

/// What each of the opened users gets.
pub(crate) fn put_all_opened(to: &mut Bytes, rows: &[Revealed]) -> Result<(), Memory>
    ensures { OnOk result
        (Puts (flat_map opened_words rows.now) (589 * length rows.now) to.old to.new) }
{
    for row in rows {
        put_opened(to, row)?;
    }
    Ok(())
}

/// How a user stands.
pub(crate) fn put_status(to: &mut Bytes, row: &StatusRow) -> Result<(), Memory>
    ensures { OnOk result (Puts (status_words row.now) 62 to.old to.new) }
{
    put_word(to, opened_name(row.opened))?;
    put_word(to, kind_name(row.kind))?;
    put_word(to, escrow_name(row.escrow))?;
    put_secure(to, row.secure)?;
    put_small(to, u32::from(row.active))?;
    put_small(to, u32::from(row.pending))?;
    Ok(())
}

fn opened_name(opened: bool) -> &'static [u8]
    ensures name { result.now ≡ opened_text opened }
    ensures size { length result.now ≤ 6 }
{
    if opened { b"open" } else { b"closed" }
}

fn escrow_name(escrow: bool) -> &'static [u8]
    ensures name { result.now ≡ escrow_text escrow }
    ensures size { length result.now ≤ 6 }
{
    if escrow { b"escrow" } else { b"plain" }
}

/// Why a command is refused.
pub(crate) fn put_refusal(to: &mut Bytes, refusal: &Refusal) -> Result<(), Memory>
    ensures words { OnOk result (Puts (refusal_words refusal.now) 89 to.old to.new) }
    ensures names { OnOk result (NamesFile refusal.now) }
{
    put_word(to, name_of(refusal))?;
    put_details(to, refusal)?;
    Ok(())
}

fn name_of(refusal: &Refusal) -> &'static [u8]
    ensures name { result.now ≡ refusal_name refusal.now }
    ensures size { length result.now ≤ 12 }
{
    match refusal {
        Refusal::NoUser => b"no-user",
        Refusal::UserExists => b"user-exists",
        Refusal::UserLimit => b"user-limit",
        Refusal::WrongKind(_) => b"wrong-kind",
        Refusal::Throttled(_) => b"throttled",
        Refusal::Wrong(_) => b"wrong",
        Refusal::NoEscrow => b"no-escrow",
        Refusal::NoToken => b"no-token",
        Refusal::WrongToken => b"wrong-token",
        Refusal::TokenLimit => b"token-limit",
        Refusal::NoSlot => b"no-slot",
        Refusal::Locked => b"locked",
        Refusal::NotPrepared => b"not-prepared",
        Refusal::NotArmed => b"not-armed",
        Refusal::Expired { .. } => b"expired",
        Refusal::Worn => b"worn",
        Refusal::Corrupt { .. } => b"corrupt",
    }
}

/// What a refusal says besides its name.
fn put_details(to: &mut Bytes, refusal: &Refusal) -> Result<(), Memory>
    ensures words { OnOk result (Puts (refusal_details refusal.now) 76 to.old to.new) }
    ensures names { OnOk result (NamesFile refusal.now) }
{
    match refusal {
        Refusal::WrongKind(stored) => {
            put_word(to, kind_name(*stored))?;
            Ok(())
        }
        Refusal::Throttled(ms) | Refusal::Wrong(ms) => {
            put_number(to, *ms)?;
            Ok(())
        }
        Refusal::Expired { armed, boot } => {
            put_small(to, *armed)?;
            put_small(to, *boot)?;
            Ok(())
        }
        Refusal::Corrupt { name, at } => {
            put_word(to, name.as_slice())?;
            put_small(to, *at)?;
            Ok(())
        }
        _ => Ok(()),
    }
}
