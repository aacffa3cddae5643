//! Numbers that are spelled in decimal.
ghost use Rattle.std.specs.Prelude.{◌≡◌, ◌≢◌, ◌<◌, ◌≤◌, ◌⊎◌, ◌^◌, ℕ, IfSome, IsTrue, Some, false, length, slice_index};
ghost use Rattle.std.specs.Fmt.{decimal};

/// The number of 32 bits that the text spells in decimal, with no sign and no leading zero.
pub fn number(text: &[u8]) -> Option<u32>
    ensures spelled { IfSome result (λ n. text.now ≡ decimal n) }
    ensures only { (n : ℕ) → n < 2 ^ 32 → text.now ≡ decimal n → result ≡ Some n }
{
    if has_sign_or_zero(text) {
        return None;
    }
    match str::from_utf8(text) {
        Ok(text) => text.parse::<u32>().ok(),
        Err(_) => None,
    }
}

/// Whether a plus or a leading zero stands first, which `parse` would read over.
fn has_sign_or_zero(text: &[u8]) -> bool
    ensures yes { IsTrue result → (slice_index text.now 0 ≡ 43)
        ⊎ ((slice_index text.now 0 ≡ 48) × (1 < length text.now)) }
    ensures no { result ≡ false → (slice_index text.now 0 ≢ 43)
        × (slice_index text.now 0 ≡ 48 → length text.now ≤ 1) }
{
    match text {
        [b'+', ..] => true,
        [b'0', _, ..] => true,
        _ => false,
    }
}
