//! Why nothing is taken away.
ghost use Rattle.std.specs.Prelude.{◌≡◌, if◌then◌else◌, Some};
ghost use Rattle.ls_record.specs.Rows.{has};
ghost use Rattle.ls_script.specs.declared.reply.Refusal.TheVariants as refusal;
ghost use Rattle.ls_turn.specs.Refusing.{unless_kept, token_drop_refusal};

use ls_record::UserRow;
use ls_script::Refusal;
use ls_turn::Session;

/// That nothing can be kept any more, where it is so.
pub(crate) fn unless_kept(x: &Session) -> Option<Refusal>
    ensures same { result ≡ unless_kept x.now }
{
    if x.settings.sequence() == u64::MAX {
        return Some(Refusal::Worn);
    }
    None
}

/// Whether the token is one of the row's.
pub(crate) fn has_token(row: &UserRow, id: u64) -> bool
    ensures same { result ≡ has row.now.tokens id }
{
    row.tokens.as_slice().iter().any(|t| *t == id)
}

/// Why a token of the user of a row isn't dropped.
pub(crate) fn token_refusal(x: &Session, row: &UserRow, id: u64) -> Option<Refusal>
    ensures same { result ≡ token_drop_refusal x.now id row.now }
{
    let active = has_token(row, id);
    if !(x.is_waiting(row.user, id) || active) {
        return Some(Refusal::NoToken);
    }
    if active {
        return unless_kept(x);
    }
    None
}

/// Why the tokens of the user of a row aren't ended.
pub(crate) fn escrow_refusal(x: &Session, row: &UserRow) -> Option<Refusal>
    ensures same { result ≡ (if row.now.escrow then unless_kept x.now else Some refusal.NoEscrow) }
{
    if !row.escrow {
        return Some(Refusal::NoEscrow);
    }
    unless_kept(x)
}
