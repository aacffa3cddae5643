//! Whether the files of a user itself hold what they have to hold.
ghost use Rattle.std.specs.Prelude.{◌≡◌, ◌≢◌, ◌≤◌, ◌↔◌, length, drop, true, IsTrue, None, Some, IfOk, IfSome, IsSomeAnd};
ghost use Rattle.std.specs.Option.{option_and_then};
ghost use Rattle.ls_formats.specs.declared.part.FilePart.TheVariants.{Handle, Resume};
ghost use Rattle.ls_formats.specs.PartNames.{is_of_user};
ghost use Rattle.ls_gcm.specs.Gcm.{gcm_open};
ghost use Rattle.ls_secret.specs.declared.personal.Personal.TheVariants.{SpGkAuthentication};
ghost use Rattle.ls_secret.specs.Derivation.{subkey_of};
ghost use Rattle.ls_secret.specs.Subkeys.{subkey_bytes};
ghost use Rattle.ls_record.specs.Rows.{IsRow};
ghost use Rattle.ls_naming.specs.Named.{is_armed, has_secure};
ghost use Rattle.ls_board.specs.Gatekeeper.{signed, salt_of, no_fails, record_at};
ghost use Rattle.ls_board.specs.Keys.{key_at};
ghost use Rattle.ls_sealing.specs.Protectors.{where_it_has};
ghost use Rattle.ls_standing.specs.Named.{held_of_user, is_its_part};
ghost use Rattle.ls_sealing.specs.Chain.{opened_resume};
ghost use Rattle.ls_standing.specs.Standing.{HoldsHandle, HoldsResume};

use crate::files::part_file;
use crate::number::same_bytes;
use byteorder::{BigEndian, ByteOrder};
use ls_arming::Arming;
use ls_board::{Counter, World};
use ls_bytes::{Bytes, Memory};
use ls_formats::{FilePart, PartName};
use ls_gatekeeper::Gatekeeper;
use ls_gcm::{OpenFault, open};
use ls_naming::{has_secure, is_armed};
use ls_record::UserRow;
use ls_secret::{Personal, Secret};
use ls_vault::User;
use std::alloc::Global;

// ---- files

/// Whether the user has a file of this part.
fn is_its_part(armed: &Option<Arming>, row: &UserRow, part: FilePart) -> bool
    ensures same { result ≡ is_its_part armed.now row.now part }
{
    match part {
        FilePart::Handle => has_secure(row),
        FilePart::E0 | FilePart::P1 => row.escrow,
        FilePart::Resume => is_armed(armed, row.user),
        FilePart::SpBlob
        | FilePart::Pwd
        | FilePart::Secdis
        | FilePart::Weaver
        | FilePart::Metrics => false,
    }
}

/// What the file of a user's part holds, if the user has that part and it is there.
pub(crate) fn user_file(
    alloc: Global,
    world: &World,
    armed: &Option<Arming>,
    row: &UserRow,
    part: FilePart,
) -> Result<Option<Bytes>, Memory>
    requires row { IsRow row.now }
    requires part { is_of_user part ≡ true }
    ensures same { IfOk result
        (λ file. file ≡ (held_of_user world.now armed.now row.now).files part) }
{
    if !is_its_part(armed, row, part) {
        return Ok(None);
    }
    let name = PartName {
        user: row.user,
        id: 0,
        part,
    };
    part_file(alloc, world, &name)
}

// ---- the handle

/// The salt that stands in a handle.
fn salt_of(handle: &[u8]) -> u64
    requires { 17 ≤ length handle.now }
    ensures same { result ≡ salt_of handle.now }
{
    BigEndian::read_u64(&handle[9..])
}

/// The handle that a device signs for this id, salt and password.
fn signed(alloc: Global, device: &[u8; 32], id: u64, salt: u64, password: &[u8]) -> [u8; 49]
    ensures same { result ≡ signed device.now id salt password.now }
{
    Gatekeeper::new(alloc, *device).sign(id, salt, password)
}

/// Whether it is the handle that the device signs for this id, by the salt in it, and password.
fn is_handle_of(alloc: Global, handle: &[u8], device: &[u8; 32], id: u64, password: &[u8]) -> bool
    ensures decided { IsTrue result
        ↔ (handle.now ≡ signed device.now id (salt_of handle.now) password.now) }
{
    if handle.len() != 49 {
        return false;
    }
    let signed = signed(alloc, device, id, salt_of(handle), password);
    same_bytes(handle, &signed)
}

/// Whether the `handle` file is the Gatekeeper's, for the secure id and the key that derives from
/// the secret.
fn is_user_handle(alloc: Global, handle: &Option<Bytes>, device: &[u8; 32], user: &User) -> bool
    ensures decided { IsTrue result ↔ IsSomeAnd handle.now (λ handle.
        handle ≡ signed device.now user.now.secure (salt_of handle)
        (subkey_bytes (subkey_of user.now.secret SpGkAuthentication))) }
{
    let Some(handle) = handle else {
        return false;
    };
    let key = user.secret.subkey(Personal::SpGkAuthentication);
    is_handle_of(
        alloc,
        handle.as_slice(),
        device,
        user.secure,
        key.as_slice(),
    )
}

/// The Gatekeeper's record of the row's secure id.
fn secure_counter(world: &World, row: &UserRow) -> Option<Counter>
    ensures same { result
        ≡ where_it_has (has_secure row.now) (record_at world.now.gk row.now.secure) }
{
    if !has_secure(row) {
        return None;
    }
    world.gk.find(row.secure)
}

fn has_no_fails(counter: Option<Counter>) -> bool
    ensures decided { IsTrue result ↔ (counter ≡ Some no_fails) }
{
    match counter {
        None => false,
        Some(counter) => counter.fails == 0 && counter.until == 0,
    }
}

/// Whether a user with a secure id has its handle, and the id a record without failures.
pub(crate) fn holds_handle(
    alloc: Global,
    world: &World,
    armed: &Option<Arming>,
    row: &UserRow,
    user: &User,
) -> Result<bool, Memory>
    requires { IsRow row.now }
    ensures decided { IfOk result (λ holds. IsTrue holds ↔ (user.now.secure ≢ 0
        → HoldsHandle (held_of_user world.now armed.now row.now) user.now)) }
{
    if user.secure == 0 {
        return Ok(true);
    }
    let handle = user_file(alloc, world, armed, row, FilePart::Handle)?;
    let counter = secure_counter(world, row);
    Ok(has_no_fails(counter) && is_user_handle(alloc, &handle, &world.gk_key, user))
}

// ---- the secret that is kept for the next boot

/// What a sealed text opens to, if it opens.
fn opened(alloc: Global, key: &[u8; 32], sealed: &[u8]) -> Result<Option<Bytes>, Memory>
    ensures same { IfOk result (λ text. text ≡ gcm_open key.now sealed.now) }
{
    match open(alloc, key, sealed) {
        Ok(text) => Ok(Some(text)),
        Err(OpenFault::Memory) => Err(Memory),
        Err(OpenFault::Short | OpenFault::Tag) => Ok(None),
    }
}

/// What stands behind the first byte.
fn behind_first(file: &[u8]) -> &[u8]
    ensures same { result.now ≡ drop 1 file.now }
{
    match file {
        [] => file,
        [_, rest @ ..] => rest,
    }
}

/// What a `resume` file opens to.
fn opened_resume(
    alloc: Global,
    key: &Option<[u8; 32]>,
    once: &[u8; 32],
    file: &[u8],
) -> Result<Option<Bytes>, Memory>
    ensures same { IfOk result (λ text. text ≡ opened_resume key.now once.now file.now) }
{
    let Some(key) = key else {
        return Ok(None);
    };
    match opened(alloc, key, behind_first(file))? {
        None => Ok(None),
        Some(inner) => opened(alloc, once, inner.as_slice()),
    }
}

/// Whether the `resume` file is there and opens to the secret.
fn resumes(
    alloc: Global,
    key: &Option<[u8; 32]>,
    once: &[u8; 32],
    file: &Option<Bytes>,
    secret: &Secret,
) -> Result<bool, Memory>
    ensures decided { IfOk result (λ resumes. IsTrue resumes ↔ IsSomeAnd file.now (λ file.
        opened_resume key.now once.now file ≡ Some secret.now.sp)) }
{
    let Some(file) = file else {
        return Ok(false);
    };
    match opened_resume(alloc, key, once, file.as_slice())? {
        None => Ok(false),
        Some(text) => Ok(same_bytes(text.as_slice(), secret.sp_text())),
    }
}

/// Whether the `resume` file of an armed user opens to the secret, where the cell holds a key.
pub(crate) fn holds_resume(
    alloc: Global,
    world: &World,
    armed: &Option<Arming>,
    row: &UserRow,
    user: &User,
) -> Result<bool, Memory>
    requires { IsRow row.now }
    ensures decided { IfOk result (λ holds. IsTrue holds
        ↔ HoldsResume (held_of_user world.now armed.now row.now) user.now) }
{
    if !is_armed(armed, row.user) {
        return Ok(true);
    }
    let Some(once) = &world.cell else {
        return Ok(true);
    };
    let file = user_file(alloc, world, armed, row, FilePart::Resume)?;
    let key = world.keys.find(0);
    resumes(alloc, &key, once, &file, &user.secret)
}
