//! The words of a line, read from left to right.
ghost use Rattle.std.specs.Prelude.{◌≡◌, length, ◌+◌, ◌*◌, ◌^◌, ◌≤◌, ◌<◌, ◌==◌};
ghost use Rattle.std.specs.Prelude.{Ok, Err, IfErr, IfOk, MatchResult, if◌then◌else◌, []};
ghost use Rattle.std.specs.List.{position_or_len};
ghost use Rattle.std.specs.Int.{w64, to_be_bytes};
ghost use Rattle.ls_grammar.specs.Words.{fixed, number, hex, credential};
ghost use Rattle.ls_grammar.specs.Words.{either, a_number, some_hex, a_credential};
ghost use Rattle.ls_grammar.specs.Reading.{before_space, from_space, read_words, read_either};
ghost use Rattle.ls_grammar.specs.Reading.{unhex, HasWord};
ghost use Rattle.ls_grammar.specs.Agreement.{Agrees};

use crate::digits::{Digits, hex_in, number_of};
use crate::number::number_in;
use crate::prefix::shared_len;
use crate::untested::{UntestedCredential, credential_in};

/// Where a line leaves the grammar.
#[derive(Clone, Copy, Debug)]
pub struct Mismatch {
    pub at: usize,
}

/// The most bytes of a line.
pub const LONGEST_LINE: usize = 4096;

/// The fewest bytes of a credential and the space before it.
pub const SHORTEST_CREDENTIAL: usize = 5;

/// What is left of a line behind a word: nothing, or a space and more.
#[derive(Clone, Copy, Debug)]
pub struct Rest<'a> {
    pub at: usize,
    pub text: &'a [u8],
    pub ghost fits: { at + length text.now < 2 ^ 64 },
}

impl<'a> Rest<'a> {
    ghost use Rattle.ls_grammar.specs.Steps.{AgreesAt, TakesWord};

    /// The next word, a number.
    pub fn number(self) -> Result<(u32, Rest<'a>), Mismatch>
        ensures { TakesWord number a_number 0 self.entry result }
    {
        let (word, rest) = self.word()?;
        match number_in(word) {
            Ok(n) => Ok((n, rest)),
            Err(n) => Err(self.mismatch_after(n)),
        }
    }

    /// The next word, one of two: whether it is the first of them.
    pub fn either(self, this: &[u8], that: &[u8]) -> Result<(bool, Rest<'a>), Mismatch>
        ensures { TakesWord (λ is_this. fixed (if is_this then this.now else that.now))
            (either this.now that.now) 0 self.entry result }
    {
        let (word, rest) = self.word()?;
        match either_in(word, this, that) {
            Ok(is_this) => Ok((is_this, rest)),
            Err(n) => Err(self.mismatch_after(n)),
        }
    }

    /// The next word, from `low` to `high` bytes in hex: its digits.
    pub fn hex(self, low: usize, high: usize) -> Result<(Digits<'a>, Rest<'a>), Mismatch>
        requires low { 2 * low < 2 ^ 64 }
        requires high { 2 * high < 2 ^ 64 }
        ensures { TakesWord (λ d. hex (unhex d.text.now)) (some_hex low high) 0 self.entry result }
    {
        let (word, rest) = self.word()?;
        match hex_in(word, low, high) {
            Ok(digits) => Ok((digits, rest)),
            Err(n) => Err(self.mismatch_after(n)),
        }
    }

    /// The next word, an id of 16 digits.
    pub fn id(self) -> Result<(u64, Rest<'a>), Mismatch>
        ensures word { TakesWord (λ id. hex (to_be_bytes w64 id)) (some_hex 8 8) 0
            self.entry result }
        ensures small { IfOk result (λ x. x.0 < 2 ^ 64) }
    {
        let (word, rest) = self.word()?;
        match hex_in(word, 8, 8) {
            Ok(digits) => Ok((number_of(digits), rest)),
            Err(n) => Err(self.mismatch_after(n)),
        }
    }

    /// The next word, a credential, behind which the line needs so many bytes more.
    pub fn credential(self, more: usize) -> Result<(UntestedCredential<'a>, Rest<'a>), Mismatch>
        ensures { TakesWord (λ c. credential c.kind c.text.now) a_credential more
            self.entry result }
    {
        let (word, rest) = self.word()?;
        let room = LONGEST_LINE
            .saturating_sub(self.at + 1)
            .saturating_sub(more);
        match credential_in(word, room) {
            Ok(given) => Ok((given, rest)),
            Err(n) => Err(self.mismatch_after(n)),
        }
    }

    // The text of the next word, behind its space, and what is left.
    fn word(self) -> Result<(&'a [u8], Rest<'a>), Mismatch>
        ensures value { MatchResult result
            (λ x. HasWord self.entry.at self.entry.text.now x.0.now x.1.at x.1.text.now)
            (λ mismatch. (self.entry.text.now ≡ []) × (mismatch.at ≡ self.entry.at)) }
        ensures fits { IfOk result (λ x. self.entry.at + 1 + length x.0.now < 2 ^ 64) }
    {
        let [_, text @ ..] = self.text else {
            return Err(Mismatch { at: self.at });
        };
        let (word, rest) = first_word(text);
        let at = self.at + 1 + word.len();
        Ok((word, Rest { at, text: rest }))
    }

    // The line stops so many bytes into the next word.
    fn mismatch_after(self, n: usize) -> Mismatch
        requires { self.at + 1 + n < 2 ^ 64 }
        ensures { result.at ≡ self.entry.at + 1 + n }
    {
        Mismatch {
            at: self.at + 1 + n,
        }
    }

    /// Nothing is left.
    pub fn end(self) -> Result<(), Mismatch>
        ensures { AgreesAt (λ _. []) result (read_words [] self.entry.at self.entry.text.now) }
    {
        if self.text.is_empty() {
            Ok(())
        } else {
            Err(Mismatch { at: self.at })
        }
    }
}

#[tactic(auto, unfolding(crate::specs::Reading::read_either))]
fn either_in(word: &[u8], this: &[u8], that: &[u8]) -> Result<bool, usize>
    ensures value { Agrees (λ is_this. fixed (if is_this then this.now else that.now))
        result (read_either this.now that.now word.now) }
    ensures err { IfErr result (λ n. n ≤ length word.now) }
{
    if word == this {
        return Ok(true);
    }
    if word == that {
        return Ok(false);
    }
    Err(shared_len(this, word).max(shared_len(that, word)))
}

/// The first word of a line, and what is left.
pub fn first(text: &[u8]) -> (&[u8], Rest<'_>)
    ensures word { result.0.now ≡ before_space text.now }
    ensures at { result.1.at ≡ length (before_space text.now) }
    ensures rest { result.1.text.now ≡ from_space text.now }
{
    let (word, rest) = first_word(text);
    let at = word.len();
    (word, Rest { at, text: rest })
}

/// The text up to its first space, and the rest.
fn first_word(text: &[u8]) -> (&[u8], &[u8])
    ensures word { result.0.now ≡ before_space text.now }
    ensures rest { result.1.now ≡ from_space text.now }
    ensures len { length result.0.now + length result.1.now ≡ length text.now }
{
    text.split_at(space_at(text))
}

fn space_at(text: &[u8]) -> usize
    ensures value { result ≡ position_or_len (λ b. b == 32) text.now }
    ensures bound { result ≤ length text.now }
{
    for (i, b) in text.iter().enumerate() {
        if *b == b' ' {
            return i;
        }
    }
    text.len()
}
