//! The handle of a secure id that comes.
ghost use Rattle.std.specs.Prelude.{◌≡◌, true, IfOk, IsTrue, OnOk};
ghost use Rattle.ls_board.specs.Acts.{Sight};
ghost use Rattle.ls_board.specs.Gatekeeper.{signed};
ghost use Rattle.ls_secret.specs.declared.personal.Personal.TheVariants.{SpGkAuthentication as OfHandle};
ghost use Rattle.ls_secret.specs.Derivation.{subkey_of};
ghost use Rattle.ls_secret.specs.Subkeys.{subkey_bytes};
ghost use Rattle.ls_drawing.specs.Passing.{Passes};

use ls_board::{Board, BoardFault};
use ls_protector::sign;
use ls_secret::{Personal, Secret};
use std::alloc::Global;

/// The Gatekeeper's handle of a secret for a secure id that comes; where none comes it isn't asked.
/// Nothing of the world changes.
pub(crate) fn own_handle<B: Board>(
    alloc: Global,
    board: &mut B,
    comes: bool,
    secure: u64,
    salt: u64,
    secret: &Secret,
) -> Result<[u8; 49], BoardFault>
    ensures passes { Passes (B.sight board.old) result (B.sight board.new) }
    ensures same { IsTrue (B.sight board.old).told
        → OnOk result ((B.sight board.new).world ≡ (B.sight board.old).world) }
    ensures signs { IsTrue (B.sight board.old).told → comes ≡ true → IfOk result (λ handle. handle
        ≡ signed (B.sight board.old).world.gk_key secure salt
        (subkey_bytes (subkey_of secret.now OfHandle))) }
{
    if !comes {
        return Ok([0; 49]);
    }
    let subkey = secret.subkey(Personal::SpGkAuthentication);
    match sign(alloc, board, secure, salt, subkey.as_slice()) {
        Ok(handle) => Ok(handle),
        Err(fault) => Err(fault),
    }
}
