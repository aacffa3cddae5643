//! The file in which the users are kept.
ghost use Rattle.std.specs.Prelude.{◌≡◌, ◌≤◌, ◌*◌, ◌^◌, ◌<◌, ◌++◌, ℕ, List, length, IfOk, IfSome, OnOk, Some, None};
ghost use Rattle.std.specs.List.{All, flat_map};
ghost use Rattle.ls_bytes.specs.Fields.{be32};
ghost use Rattle.ls_top.specs.UsersFile.{file_of, padded};
ghost use Rattle.ls_top.specs.Vault.{IsVault};

use crate::vault::{MOST_USERS, Users};
use byteorder::{BigEndian, ByteOrder};
use ls_bytes::{Bytes, Memory, put_be32, put_be64, put_bytes, put_u8};
use std::alloc::Global;

/// How long the file is, in bytes.
const FILE_LEN: usize = 4096;

/// Where the number of users stands.
const COUNT_AT: usize = 14;

/// Where the users begin.
const USERS_AT: usize = 15;

/// The bytes of the file of these users.
pub fn print(alloc: Global, users: &Users) -> Result<Bytes, Memory>
    ensures file { IfOk result (λ bytes. bytes ≡ file_of users.now) }
    ensures long { IfOk result (λ bytes. length bytes ≡ 4096) }
    ensures vault { IsVault users.now }
{
    let items = users.as_slice();
    let mut to = Bytes::of(alloc, &[])?;
    put_u8(&mut to, 0xa5)?;
    put_be64(&mut to, items.len() as u64)?;
    put_be32(&mut to, 2 + 4 * items.len() as u32)?;
    put_u8(&mut to, 0)?;
    put_u8(&mut to, items.len() as u8)?;
    put_users(&mut to, items)?;
    put_zeros(alloc, &mut to)?;
    Ok(to)
}

fn put_users(to: &mut Bytes, users: &[u32]) -> Result<(), Memory>
    ensures put { OnOk result (to.new ≡ to.old ++ flat_map be32 users.now) }
{
    for user in users {
        put_be32(to, *user)?;
    }
    Ok(())
}

/// Zeros up to the length of the file.
fn put_zeros(alloc: Global, to: &mut Bytes) -> Result<(), Memory>
    ensures put { OnOk result (to.new ≡ padded to.old) }
{
    let left = FILE_LEN.saturating_sub(to.as_slice().len());
    put_bytes(to, &vec![in alloc; 0; left]?)
}

/// The users whose file this is, if it is one.
pub fn read(alloc: Global, bytes: &[u8]) -> Result<Option<Users>, Memory>
    ensures read { IfOk result (λ read. IfSome read (λ users.
        IsVault users × (bytes.now ≡ file_of users))) }
    ensures only { (users : List ℕ) → IsVault users → bytes.now ≡ file_of users
        → IfOk result (λ read. read ≡ Some users) }
{
    match users_in(alloc, bytes)? {
        Some(users) => {
            if print(alloc, &users)?.as_slice() == bytes {
                Ok(Some(users))
            } else {
                Ok(None)
            }
        }
        None => Ok(None),
    }
}

/// The users that stand in the file's places for them, if it is long enough and they may be so.
fn users_in(alloc: Global, bytes: &[u8]) -> Result<Option<Users>, Memory>
    ensures only { (users : List ℕ) → IsVault users → bytes.now ≡ file_of users
        → IfOk result (λ read. read ≡ Some users) }
{
    if bytes.len() != FILE_LEN {
        return Ok(None);
    }
    let count = bytes[COUNT_AT] as usize;
    if count > MOST_USERS {
        return Ok(None);
    }
    let numbers = numbers_in(alloc, &bytes[USERS_AT..USERS_AT + 4 * count])?;
    Ok(Users::of(numbers))
}

/// The numbers that stand in fields of four bytes, one after another.
fn numbers_in(alloc: Global, fields: &[u8]) -> Result<Vec<u32>, Memory>
    requires short { length fields.now ≤ 64 }
    ensures numbers { (numbers : List ℕ) → All (λ n. n < 2 ^ 32) numbers
        → fields.now ≡ flat_map be32 numbers → IfOk result (λ v. v.items ≡ numbers) }
{
    let mut numbers = Vec::new(alloc);
    for at in 0..fields.len() / 4 {
        match numbers.push(BigEndian::read_u32(&fields[4 * at..])) {
            Ok(()) => {}
            Err(_) => return Err(Memory),
        }
    }
    Ok(numbers)
}
