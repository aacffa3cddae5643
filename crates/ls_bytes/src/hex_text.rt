//! Bytes as hex text, two digits a byte.
ghost use Rattle.std.specs.Prelude.{◌≡◌, IfOk};
ghost use Rattle.hex.specs.Hex.{encode_lower, encode_upper};

use crate::bytes::Bytes;
use crate::memory::Memory;
use std::alloc::Global;

/// The hex text of these bytes, with the digits `0` to `9` and `A` to `F`.
pub fn hex_upper(alloc: Global, b: &[u8]) -> Result<Bytes, Memory>
    ensures text { IfOk result (λ text. text ≡ encode_upper b.now) }
{
    Ok(Bytes {
        items: hex::encode_upper(alloc, b)?.into_bytes(),
    })
}

/// The hex text of these bytes, with the digits `0` to `9` and `a` to `f`.
pub fn hex_lower(alloc: Global, b: &[u8]) -> Result<Bytes, Memory>
    ensures text { IfOk result (λ text. text ≡ encode_lower b.now) }
{
    Ok(Bytes {
        items: hex::encode(alloc, b)?.into_bytes(),
    })
}
