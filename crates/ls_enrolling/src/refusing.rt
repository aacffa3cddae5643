//! Why a user isn't added.
ghost use Rattle.std.specs.Prelude.{◌≡◌, Bool};
ghost use Rattle.ls_script.specs.declared.command.Command.TheVariants as command;
ghost use Rattle.ls_turn.specs.Refusing.{own_refusal};

use ls_placing::has_no_slot;
use ls_script::Refusal;
use ls_turn::Session;

/// Why a user isn't added, by the record and what the session knows.
pub(crate) fn refusal(x: &Session, user: u32) -> Option<Refusal>
    ensures same { (escrow : Bool) → result ≡ own_refusal x.now (command.Add user escrow) }
{
    if x.row(user).is_some() {
        return Some(Refusal::UserExists);
    }
    if 16 <= x.settings.record().users.as_slice().len() {
        return Some(Refusal::UserLimit);
    }
    if has_no_slot(x) {
        return Some(Refusal::NoSlot);
    }
    if x.settings.sequence() == u64::MAX {
        return Some(Refusal::Worn);
    }
    None
}
