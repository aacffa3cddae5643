//! Copies of rows that differ in a few fields.
ghost use Rattle.std.specs.Prelude.{◌≡◌, IfOk};
ghost use Rattle.ls_edits.specs.Rows.{with_pin};

use ls_bytes::{IdList, Memory};
use ls_record::UserRow;
use std::alloc::Global;

/// A list of the same ids.
fn copy_ids(alloc: Global, ids: &[u64]) -> Result<IdList, Memory>
    ensures same { IfOk result (λ copy. copy ≡ ids.now) }
{
    let mut copy = IdList::new(alloc);
    for id in ids {
        copy.push(*id)?;
    }
    Ok(copy)
}

/// The row with another flag for the length of a PIN, and another length.
pub(crate) fn row_with_pin(
    alloc: Global,
    row: &UserRow,
    auto: bool,
    pin: u8,
) -> Result<UserRow, Memory>
    ensures same { IfOk result (λ copy. copy ≡ with_pin auto pin row.now) }
{
    let tokens = copy_ids(alloc, row.tokens.as_slice())?;
    Ok(UserRow {
        user: row.user,
        escrow: row.escrow,
        kind: row.kind,
        auto,
        pin,
        protector: row.protector,
        secure: row.secure,
        tokens,
    })
}
