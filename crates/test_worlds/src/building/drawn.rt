//! What is drawn: the bytes 3, 10, 17 and so on, modulo 256.
ghost use Rattle.std.specs.Prelude.{◌≡◌, ◌≤◌, length, IfOk};
ghost use Rattle.ls_sealing.specs.Draws.{piece};

use crate::fault::RowFault;
use crate::files::sevens;
use std::alloc::Global;

/// So many drawn bytes.
pub fn drawn(alloc: Global, len: usize) -> Result<Vec<u8>, RowFault>
    ensures count { IfOk result (λ v. length v.items ≡ len) }
{
    let bytes = sevens(alloc, 3, 16_476)?;
    if bytes.len() < len {
        return Err(RowFault::Form);
    }
    Ok(bytes[..len].to_vec(alloc)?)
}

/// The salt among drawn bytes.
pub fn salt_of(drawn: &[u8]) -> [u8; 16]
    requires { 72 ≤ length drawn.now }
    ensures { result ≡ piece 56 16 drawn.now }
{
    let mut salt = [0; 16];
    salt.copy_from_slice(&drawn[56..72]);
    salt
}
