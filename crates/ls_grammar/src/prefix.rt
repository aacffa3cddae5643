//! How far a text goes along.
ghost use Rattle.std.specs.Prelude.{◌≡◌, ◌≤◌, length};
ghost use Rattle.std.specs.List.{prefix_len};
ghost use Rattle.ls_grammar.specs.Reads.{shared};
ghost use Rattle.ls_grammar.specs.Reading.{is_hex, is_visible};

/// How long a prefix two texts share.
pub fn shared_len(a: &[u8], b: &[u8]) -> usize
    ensures value { result ≡ shared a.now b.now }
    ensures mark { result ≤ length a.now }
    ensures text { result ≤ length b.now }
{
    let mut n = 0;
    while n < a.len() && n < b.len() && a[n] == b[n] {
        n += 1;
    }
    n
}

pub(crate) fn hex_len(text: &[u8]) -> usize
    ensures value { result ≡ prefix_len is_hex text.now }
    ensures bound { result ≤ length text.now }
{
    for (i, b) in text.iter().enumerate() {
        if !is_hex_digit(*b) {
            return i;
        }
    }
    text.len()
}

pub(crate) fn visible_len(text: &[u8]) -> usize
    ensures value { result ≡ prefix_len is_visible text.now }
    ensures bound { result ≤ length text.now }
{
    for (i, b) in text.iter().enumerate() {
        if !is_visible_byte(*b) {
            return i;
        }
    }
    text.len()
}

fn is_hex_digit(b: u8) -> bool
    ensures { result ≡ is_hex b }
{
    b.is_ascii_digit() || (b'a' <= b && b <= b'f')
}

fn is_visible_byte(b: u8) -> bool
    ensures { result ≡ is_visible b }
{
    0x21 <= b && b <= 0x7e
}
