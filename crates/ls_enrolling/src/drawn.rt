//! What is drawn for a new user, and how it is cut.
ghost use Rattle.std.specs.Prelude.{◌≡◌, ◌≤◌, ◌+◌, length};
ghost use Rattle.ls_enrolling.specs.Enrolling.{block_at, draw_len, first_half, second_half, half_iv, protector_bytes};

/// Where that begins which is for the protector.
pub(crate) fn block_at(escrow: bool) -> u32
    ensures same { result ≡ block_at escrow }
{
    if escrow { 76 } else { 64 }
}

/// How many bytes are drawn, on a board with so many slots.
pub(crate) fn drawn_len(slots: u32, escrow: bool) -> u32
    ensures same { result ≡ draw_len slots escrow }
{
    block_at(escrow) + if slots == 0 { 16448 } else { 80 }
}

/// The first half of what the secret is made of.
pub(crate) fn first_half(drawn: &[u8]) -> [u8; 32]
    requires drawn { 64 ≤ length drawn.now }
    ensures same { result ≡ first_half drawn.now }
{
    let mut half = [0; 32];
    half.copy_from_slice(&drawn[..32]);
    half
}

/// The second one.
pub(crate) fn second_half(drawn: &[u8]) -> [u8; 32]
    requires drawn { 64 ≤ length drawn.now }
    ensures same { result ≡ second_half drawn.now }
{
    let mut half = [0; 32];
    half.copy_from_slice(&drawn[32..64]);
    half
}

/// The start with which the first half is sealed.
pub(crate) fn half_iv(drawn: &[u8]) -> [u8; 12]
    requires drawn { 76 ≤ length drawn.now }
    ensures same { result ≡ half_iv drawn.now }
{
    let mut iv = [0; 12];
    iv.copy_from_slice(&drawn[64..76]);
    iv
}

/// What is drawn for the protector, behind its id.
pub(crate) fn protector_bytes(drawn: &[u8], escrow: bool) -> &[u8]
    requires drawn { block_at escrow + 8 ≤ length drawn.now }
    ensures same { result.now ≡ protector_bytes escrow drawn.now }
{
    &drawn[block_at(escrow) as usize + 8..]
}
