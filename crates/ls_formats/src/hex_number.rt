//! Numbers of hex digits.
ghost use Rattle.std.specs.Prelude.{◌≡◌, ℕ, ◌<◌, ◌^◌};
ghost use Rattle.hex.specs.Hex.{encode_lower};
ghost use Rattle.ls_bytes.specs.Fields.{be32, be64};

/// The number that these digits are the hex text of.
pub(crate) fn hex_u32(digits: &[u8]) -> u32
    ensures value { (n : ℕ) → n < 2 ^ 32 → encode_lower (be32 n) ≡ digits.now → result ≡ n }
{
    let mut bytes = [0; 4];
    let _ = hex::decode_to_slice(digits, &mut bytes);
    u32::from_be_bytes(bytes)
}

/// The number that these digits are the hex text of.
pub(crate) fn hex_u64(digits: &[u8]) -> u64
    ensures value { (n : ℕ) → n < 2 ^ 64 → encode_lower (be64 n) ≡ digits.now → result ≡ n }
{
    let mut bytes = [0; 8];
    let _ = hex::decode_to_slice(digits, &mut bytes);
    u64::from_be_bytes(bytes)
}
