//! Bytes in hex, two lower-case digits a byte.
ghost use Rattle.std.specs.Prelude.{◌≡◌, ◌*◌, ◌^◌, ◌≤◌, ◌<◌, ◌%◌, length, IfErr, IfOk};
ghost use Rattle.std.specs.List.{prefix_len};
ghost use Rattle.std.specs.Int.{w64, to_be_bytes};
ghost use Rattle.ls_grammar.specs.Words.{hex};
ghost use Rattle.ls_grammar.specs.Reading.{read_hex, unhex, is_hex};
ghost use Rattle.ls_grammar.specs.Agreement.{Agrees};

use crate::prefix::hex_len;
use ls_bytes::{Bytes, Memory};
use std::alloc::Global;

/// The digits of bytes in hex, two a byte.
#[derive(Clone, Copy, Debug)]
pub struct Digits<'a> {
    pub text: &'a [u8],
    pub ghost hex: { prefix_len is_hex text.now ≡ length text.now },
    pub ghost even: { length text.now % 2 ≡ 0 },
}

impl Digits<'_> {
    /// The bytes.
    pub fn bytes(self, alloc: Global) -> Result<Bytes, Memory>
        ensures { IfOk result (λ bytes. bytes ≡ unhex self.entry.text.now) }
    {
        match hex::decode(alloc, self.text) {
            Ok(bytes) => Ok(Bytes::from(bytes)),
            Err(_) => Err(Memory),
        }
    }
}

/// The number of eight bytes in hex.
pub(crate) fn number_of(digits: Digits<'_>) -> u64
    requires { length digits.text.now ≡ 16 }
    ensures { to_be_bytes w64 result ≡ unhex digits.entry.text.now }
{
    let mut bytes = [0; 8];
    let _ = hex::decode_to_slice(digits.text, &mut bytes);
    u64::from_be_bytes(bytes)
}

/// The word, if it is from `low` to `high` bytes in hex, or how much of it begins that.
#[tactic(auto, unfolding(crate::specs::Reading::read_hex))]
pub(crate) fn hex_in(word: &[u8], low: usize, high: usize) -> Result<Digits<'_>, usize>
    requires low { 2 * low < 2 ^ 64 }
    requires high { 2 * high < 2 ^ 64 }
    ensures value { Agrees (λ d. hex (unhex d.text.now)) result (read_hex low high word.now) }
    ensures size { IfOk result
        (λ d. (2 * low ≤ length d.text.now) × (length d.text.now ≤ 2 * high)) }
    ensures err { IfErr result (λ n. n ≤ length word.now) }
{
    let digits = hex_len(word);
    if digits == word.len()
        && word.len() % 2 == 0
        && 2 * low <= word.len()
        && word.len() <= 2 * high
    {
        Ok(Digits { text: word })
    } else {
        Err(digits.min(2 * high))
    }
}
