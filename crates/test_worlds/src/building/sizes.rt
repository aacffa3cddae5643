//! How many bytes are drawn.
ghost use Rattle.std.specs.Prelude.{◌≡◌, ◌≤◌, is_some};
ghost use Rattle.ls_sealing.specs.Draws.{credential_draw_size, token_draw_size};

use ls_credential::Kind;

/// How many bytes are drawn for a credential.
pub fn credential_draw_size(slot: Option<u32>, kind: Kind) -> usize
    ensures same { result ≡ credential_draw_size (is_some slot) kind }
    ensures salted { 72 ≤ result }
{
    match (slot, kind) {
        (Some(_), Kind::Empty) => 72,
        (Some(_), _) => 100,
        (None, Kind::Empty) => 16440,
        (None, _) => 16476,
    }
}

/// How many bytes are drawn for a token.
pub fn token_draw_size(slot: Option<u32>) -> usize
    ensures same { result ≡ token_draw_size (is_some slot) }
{
    if slot.is_some() { 16468 } else { 16440 }
}
