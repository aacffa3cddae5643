//! Rows and armings as bytes of format 02.
ghost use Rattle.std.specs.Prelude.{◌≡◌, ◌++◌, ◌∷◌, [], OnOk};
ghost use Rattle.std.specs.List.{flat_map};
ghost use Rattle.ls_bytes.specs.Fields.{be32, be64};
ghost use Rattle.ls_record.specs.Spelling.{flag, row_bytes, armed_bytes, arming_bytes};

use crate::row::UserRow;
use ls_arming::Arming;
use ls_bytes::{Bytes, Memory, put_be32, put_be64, put_bytes, put_u8};

/// Puts a number of rows at the end, in one byte. Where it doesn't fit, so many rows have no room.
pub(crate) fn put_count(to: &mut Bytes, n: usize) -> Result<(), Memory>
    ensures put { OnOk result (to.new ≡ to.old ++ n ∷ []) }
{
    if n > 255 {
        return Err(Memory);
    }
    put_u8(to, n as u8)
}

fn put_ids(to: &mut Bytes, ids: &[u64]) -> Result<(), Memory>
    ensures put { OnOk result (to.new ≡ to.old ++ flat_map be64 ids.now) }
{
    for id in ids {
        put_be64(to, *id)?;
    }
    Ok(())
}

fn put_users(to: &mut Bytes, users: &[u32]) -> Result<(), Memory>
    ensures put { OnOk result (to.new ≡ to.old ++ flat_map be32 users.now) }
{
    for user in users {
        put_be32(to, *user)?;
    }
    Ok(())
}

fn flag(b: bool) -> u8
    ensures same { result ≡ flag b }
{
    if b { 1 } else { 0 }
}

/// Puts a row at the end.
pub(crate) fn put_row(to: &mut Bytes, row: &UserRow) -> Result<(), Memory>
    ensures put { OnOk result (to.new ≡ to.old ++ row_bytes 2 row.now) }
{
    put_be32(to, row.user)?;
    put_bytes(
        to,
        &[flag(row.escrow), row.kind.code(), flag(row.auto), row.pin],
    )?;
    put_be64(to, row.protector)?;
    put_be64(to, row.secure)?;
    put_count(to, row.tokens.as_slice().len())?;
    put_ids(to, row.tokens.as_slice())?;
    Ok(())
}

/// Puts rows at the end.
pub(crate) fn put_rows(to: &mut Bytes, rows: &[UserRow]) -> Result<(), Memory>
    ensures put { OnOk result (to.new ≡ to.old ++ flat_map (row_bytes 2) rows.now) }
{
    for row in rows {
        put_row(to, row)?;
    }
    Ok(())
}

/// Puts a boot and the users that it armed at the end.
pub(crate) fn put_armed(to: &mut Bytes, armed: &Arming) -> Result<(), Memory>
    ensures put { OnOk result (to.new ≡ to.old ++ armed_bytes armed.now) }
{
    put_be32(to, armed.boot)?;
    put_count(to, armed.users.as_slice().len())?;
    put_users(to, armed.users.as_slice())?;
    Ok(())
}

/// Puts at the end whether there is an arming, and the arming.
pub(crate) fn put_arming(to: &mut Bytes, arming: &Option<Arming>) -> Result<(), Memory>
    ensures put { OnOk result (to.new ≡ to.old ++ arming_bytes arming.now) }
{
    match arming {
        None => {
            put_u8(to, 0)?;
            Ok(())
        }
        Some(armed) => {
            put_u8(to, 1)?;
            put_armed(to, armed)?;
            Ok(())
        }
    }
}
