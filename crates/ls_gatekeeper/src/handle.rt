//! Handles of passwords: the version, the id, the salt, and a tag of 32 bytes.
ghost use Rattle.std.specs.Prelude.{◌≡◌, ◌++◌, ◌∷◌, slice_index};
ghost use Rattle.ls_bytes.specs.Fields.{be64};
ghost use Rattle.ls_board.specs.Gatekeeper.{signed, sid_of, salt_of, is_signed};

use byteorder::{BigEndian, ByteOrder};
use ls_hash::hmac256_joined;

/// The version of handles.
pub(crate) const VERSION: u8 = 1;

/// The id and the salt, in eight bytes each.
fn fields(sid: u64, salt: u64) -> [u8; 16]
    ensures { result ≡ be64 sid ++ be64 salt }
{
    let mut fields = [0; 16];
    BigEndian::write_u64(&mut fields[..8], sid);
    BigEndian::write_u64(&mut fields[8..], salt);
    fields
}

/// The version, the fields and the tag in one row.
fn joined(fields: &[u8; 16], tag: &[u8; 32]) -> [u8; 49]
    ensures { result ≡ 1 ∷ fields.now ++ tag.now }
{
    let mut handle = [VERSION; 49];
    handle[1..17].copy_from_slice(fields);
    handle[17..].copy_from_slice(tag);
    handle
}

/// The handle of a password for this id and salt, under the key of the device.
pub(crate) fn signed(device: &[u8; 32], sid: u64, salt: u64, password: &[u8]) -> [u8; 49]
    ensures { result ≡ signed device.now sid salt password.now }
{
    let fields = fields(sid, salt);
    let tag = hmac256_joined(device, &fields, password);
    joined(&fields, &tag)
}

/// The id that stands in a handle.
pub(crate) fn sid_of(handle: &[u8; 49]) -> u64
    ensures { result ≡ sid_of handle.now }
{
    BigEndian::read_u64(&handle[1..])
}

/// The salt that stands in a handle.
fn salt_of(handle: &[u8; 49]) -> u64
    ensures { result ≡ salt_of handle.now }
{
    BigEndian::read_u64(&handle[9..])
}

/// Whether it is the handle of this password, for the id and the salt that stand in it.
pub(crate) fn is_signed(device: &[u8; 32], handle: &[u8; 49], password: &[u8]) -> bool
    ensures { result ≡ is_signed device.now handle.now password.now }
{
    *handle == signed(device, sid_of(handle), salt_of(handle), password)
}
