//! Copies of rows.
ghost use Rattle.std.specs.Prelude.{◌≡◌, IfOk};

use crate::row::{RowList, UserRow};
use ls_bytes::{IdList, Memory};
use std::alloc::Global;

/// A list of the same ids.
fn copy_ids(alloc: Global, ids: &[u64]) -> Result<IdList, Memory>
    ensures same { IfOk result (λ copy. copy ≡ ids.now) }
{
    let mut copy = IdList::new(alloc);
    for id in ids {
        copy.push(*id)?;
    }
    Ok(copy)
}

/// An equal row.
pub(crate) fn copy_row(alloc: Global, row: &UserRow) -> Result<UserRow, Memory>
    ensures same { IfOk result (λ copy. copy ≡ row.now) }
{
    let tokens = copy_ids(alloc, row.tokens.as_slice())?;
    Ok(UserRow {
        user: row.user,
        escrow: row.escrow,
        kind: row.kind,
        auto: row.auto,
        pin: row.pin,
        protector: row.protector,
        secure: row.secure,
        tokens,
    })
}

/// Equal rows.
pub(crate) fn copy_rows(alloc: Global, rows: &[UserRow]) -> Result<RowList, Memory>
    ensures same { IfOk result (λ copy. copy ≡ rows.now) }
{
    let mut copy = RowList::new(alloc);
    for row in rows {
        copy.push(copy_row(alloc, row)?)?;
    }
    Ok(copy)
}
