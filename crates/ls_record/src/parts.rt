//! Parts of rows, copied.
ghost use Rattle.std.specs.Prelude.{◌≡◌, ◌++◌, ◌∷◌, [], if◌then◌else◌, OnOk};
ghost use Rattle.ls_record.specs.Edits.{below, above};

use crate::copying::copy_row;
use crate::row::{RowList, UserRow};
use ls_bytes::Memory;
use std::alloc::Global;

/// Puts a copy of the row at the end where it is to be kept.
fn push_if(list: &mut RowList, alloc: Global, row: &UserRow, keep: bool) -> Result<(), Memory>
    ensures put { OnOk result (list.new ≡ list.old ++ (if keep then row.now ∷ [] else [])) }
{
    if keep {
        list.push(copy_row(alloc, row)?)?;
    }
    Ok(())
}

/// Puts copies of the rows below a user at the end.
pub(crate) fn push_below(
    list: &mut RowList,
    alloc: Global,
    rows: &[UserRow],
    user: u32,
) -> Result<(), Memory>
    ensures put { OnOk result (list.new ≡ list.old ++ below rows.now user) }
{
    for row in rows {
        push_if(list, alloc, row, row.user < user)?;
    }
    Ok(())
}

/// Puts copies of the rows above a user at the end.
pub(crate) fn push_above(
    list: &mut RowList,
    alloc: Global,
    rows: &[UserRow],
    user: u32,
) -> Result<(), Memory>
    ensures put { OnOk result (list.new ≡ list.old ++ above rows.now user) }
{
    for row in rows {
        push_if(list, alloc, row, user < row.user)?;
    }
    Ok(())
}
