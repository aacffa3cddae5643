//! The row of a user with another credential.
ghost use Rattle.std.specs.Prelude.{◌≡◌, IfOk};
ghost use Rattle.ls_vault.specs.Kinds.{is_pin};
ghost use Rattle.ls_changing.specs.Replacing.{shown_for, with_credential};

use ls_bytes::{IdList, Memory};
use ls_credential::{Credential, Kind};
use ls_record::UserRow;
use std::alloc::Global;

fn is_pin(kind: Kind) -> bool
    ensures same { result ≡ is_pin kind }
{
    matches!(kind, Kind::Pin)
}

/// The length that the row of a credential shows: that of a PIN of 6 digits or more, where it may be
/// shown, and else 0.
fn shown_for(auto: bool, new: &Credential) -> u8
    ensures same { result ≡ shown_for auto new.now }
{
    let length = new.metrics().length;
    if auto && is_pin(new.kind) && 6 <= length {
        length
    } else {
        0
    }
}

/// A list of the same ids.
fn copy_ids(alloc: Global, ids: &[u64]) -> Result<IdList, Memory>
    ensures same { IfOk result (λ copy. copy ≡ ids.now) }
{
    let mut copy = IdList::new(alloc);
    for id in ids {
        copy.push(*id)?;
    }
    Ok(copy)
}

/// The row with another credential, whose protector has this id, and with this secure id.
pub(crate) fn row_with(
    alloc: Global,
    row: &UserRow,
    new: &Credential,
    id: u64,
    secure: u64,
) -> Result<UserRow, Memory>
    ensures same { IfOk result (λ copy. copy ≡ with_credential new.now id secure row.now) }
{
    let tokens = copy_ids(alloc, row.tokens.as_slice())?;
    Ok(UserRow {
        user: row.user,
        escrow: row.escrow,
        kind: new.kind,
        auto: row.auto,
        pin: shown_for(row.auto, new),
        protector: id,
        secure,
        tokens,
    })
}
