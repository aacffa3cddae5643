//! Fields of formats, put at the end of a list of bytes. Numbers are big-endian.
ghost use Rattle.std.specs.Prelude.{◌≡◌, ◌++◌, ◌∷◌, [], IfOk, OnOk, OnErr};
ghost use Rattle.ls_bytes.specs.Fields.{be32, be64};

use crate::bytes::Bytes;
use crate::memory::Memory;
use byteorder::{BigEndian, ByteOrder};
use std::alloc::Global;

/// Puts one byte at the end.
pub fn put_u8(to: &mut Bytes, v: u8) -> Result<(), Memory>
    ensures put { OnOk result (to.new ≡ to.old ++ v ∷ []) }
    ensures kept { OnErr result (to.new ≡ to.old) }
{
    put_bytes(to, &[v])
}

/// Puts a number of 32 bits at the end, in four bytes.
pub fn put_be32(to: &mut Bytes, v: u32) -> Result<(), Memory>
    ensures put { OnOk result (to.new ≡ to.old ++ be32 v) }
    ensures kept { OnErr result (to.new ≡ to.old) }
{
    let mut field = [0; 4];
    BigEndian::write_u32(&mut field, v);
    put_bytes(to, &field)
}

/// Puts a number of 64 bits at the end, in eight bytes.
pub fn put_be64(to: &mut Bytes, v: u64) -> Result<(), Memory>
    ensures put { OnOk result (to.new ≡ to.old ++ be64 v) }
    ensures kept { OnErr result (to.new ≡ to.old) }
{
    let mut field = [0; 8];
    BigEndian::write_u64(&mut field, v);
    put_bytes(to, &field)
}

/// Puts bytes at the end.
pub fn put_bytes(to: &mut Bytes, v: &[u8]) -> Result<(), Memory>
    ensures put { OnOk result (to.new ≡ to.old ++ v.now) }
    ensures kept { OnErr result (to.new ≡ to.old) }
{
    to.items.extend_from_slice(v)?;
    Ok(())
}

/// The bytes of the front, and then those of the back.
pub fn joined(alloc: Global, front: &[u8], back: &[u8]) -> Result<Bytes, Memory>
    ensures same { IfOk result (λ bytes. bytes ≡ front.now ++ back.now) }
{
    let mut bytes = Bytes::of(alloc, front)?;
    put_bytes(&mut bytes, back)?;
    Ok(bytes)
}
