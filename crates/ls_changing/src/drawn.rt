//! What is drawn for another credential, and how it is cut.
ghost use Rattle.std.specs.Prelude.{◌≡◌, ◌≤◌, ◌<◌, ◌+◌, ◌^◌, if◌then◌else◌, length, drop};
ghost use Rattle.byteorder.specs.Endian.{big_number};
ghost use Rattle.ls_sealing.specs.Draws.{piece};
ghost use Rattle.ls_vault.specs.Drawn.{credential_len};
ghost use Rattle.ls_changing.specs.Drawing.{own_len};

use byteorder::{BigEndian, ByteOrder};
use ls_credential::Kind;
use ls_naming::has_credential;

/// How many bytes come first: the secure id and the salt of its handle, for a first credential.
pub(crate) fn own_len(first: bool) -> u32
    ensures same { result ≡ own_len first }
{
    if first { 16 } else { 0 }
}

/// How many bytes are for a protector and its id, on a board with so many slots.
fn protector_len(slots: u32, kind: Kind) -> u32
    ensures same { result ≡ credential_len slots kind }
{
    let some = has_credential(kind);
    let own = if some { 92 } else { 64 };
    if slots == 0 {
        own + 16384 + if some { 8 } else { 0 }
    } else {
        own + 16
    }
}

/// How many bytes are drawn.
pub(crate) fn drawn_len(slots: u32, first: bool, kind: Kind) -> u32
    ensures same { result ≡ own_len first + credential_len slots kind }
{
    own_len(first) + protector_len(slots, kind)
}

/// The salt of a handle.
pub(crate) fn handle_salt(drawn: &[u8]) -> u64
    requires drawn { 16 ≤ length drawn.now }
    ensures same { result ≡ big_number 8 (piece 8 8 drawn.now) }
    ensures small { result < 2 ^ 64 }
{
    BigEndian::read_u64(&drawn[8..16])
}

/// What is drawn for the protector, behind its id.
pub(crate) fn protector_bytes(drawn: &[u8], first: bool) -> &[u8]
    requires drawn { own_len first + 8 ≤ length drawn.now }
    ensures same { result.now ≡ drop (own_len first + 8) drawn.now }
{
    &drawn[own_len(first) as usize + 8..]
}
