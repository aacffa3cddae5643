//! Copies of rows that leave out what goes.
ghost use Rattle.std.specs.Prelude.{◌≡◌, ◌==◌, not, filter, IfOk};
ghost use Rattle.ls_edits.specs.Rows.{with_tokens_of, without_escrow};

use ls_bytes::{IdList, Memory};
use ls_record::UserRow;
use std::alloc::Global;

/// A list of the ids but this one.
fn other_ids(alloc: Global, ids: &[u64], id: u64) -> Result<IdList, Memory>
    ensures same { IfOk result (λ copy. copy ≡ filter (λ t. not (t == id)) ids.now) }
{
    let mut copy = IdList::new(alloc);
    for one in ids {
        if *one != id {
            copy.push(*one)?;
        }
    }
    Ok(copy)
}

/// The row without a token.
pub(crate) fn without_token(alloc: Global, row: &UserRow, id: u64) -> Result<UserRow, Memory>
    ensures same { IfOk result (λ copy. copy ≡ with_tokens_of (λ t. not (t == id)) row.now) }
{
    let tokens = other_ids(alloc, row.tokens.as_slice(), id)?;
    Ok(UserRow {
        user: row.user,
        escrow: row.escrow,
        kind: row.kind,
        auto: row.auto,
        pin: row.pin,
        protector: row.protector,
        secure: row.secure,
        tokens,
    })
}

/// The row of the user, who can have no tokens any more.
pub(crate) fn without_escrow(alloc: Global, row: &UserRow) -> UserRow
    ensures same { result ≡ without_escrow row.now }
{
    UserRow {
        user: row.user,
        escrow: false,
        kind: row.kind,
        auto: row.auto,
        pin: row.pin,
        protector: row.protector,
        secure: row.secure,
        tokens: IdList::new(alloc),
    }
}
