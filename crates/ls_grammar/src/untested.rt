//! A credential as a line gives it, whose rules nobody has asked yet.
ghost use Rattle.std.specs.Prelude.{◌≡◌, ◌≤◌, length, IfErr, MatchOption, IfOk, MatchResult};
ghost use Rattle.std.specs.Prelude.{Some, None, drop, true, false};
ghost use Rattle.ls_credential.specs.Rules.{fault_of};
ghost use Rattle.ls_grammar.specs.Words.{credential};
ghost use Rattle.ls_grammar.specs.Reading.{read_credential, along, is_marked};
ghost use Rattle.ls_grammar.specs.Agreement.{Agrees};

use crate::prefix::{shared_len, visible_len};
use ls_bytes::Memory;
use ls_credential::{Credential, CredentialFault, Kind};
use std::alloc::Global;

/// A credential as a line gives it, whose rules nobody has asked yet.
#[derive(Clone, Copy, Debug)]
pub struct UntestedCredential<'a> {
    pub kind: Kind,
    pub text: &'a [u8],
}

impl UntestedCredential<'_> {
    /// Whether it keeps its rules, or the first that it breaks. Takes no memory.
    pub fn test(&self) -> Result<(), CredentialFault>
        ensures { MatchResult result
            (λ _. fault_of self.now.kind self.now.text.now ≡ None)
            (λ e. fault_of self.now.kind self.now.text.now ≡ Some e) }
    {
        match Credential::fault(self.kind, self.text) {
            None => Ok(()),
            Some(fault) => Err(fault),
        }
    }

    /// The credential, once it was tested.
    pub fn parse(&self, alloc: Global) -> Result<Credential, Memory>
        requires { fault_of self.now.kind self.now.text.now ≡ None }
        ensures { IfOk result (λ c. c ≡ record { kind = self.now.kind; text = self.now.text.now }) }
    {
        match Credential::parse(alloc, self.kind, self.text) {
            Ok(credential) => Ok(credential),
            Err(_) => Err(Memory),
        }
    }
}

/// The credential that is the word, if it has at most `room` bytes, or how much of the word
/// begins one.
#[tactic(auto, unfolding(crate::specs::Reading::read_credential))]
pub(crate) fn credential_in(word: &[u8], room: usize) -> Result<UntestedCredential<'_>, usize>
    ensures value { Agrees (λ c. credential c.kind c.text.now)
        result (read_credential room word.now) }
    ensures err { IfErr result (λ n. n ≤ length word.now) }
{
    if word == b"none".as_slice() {
        return Ok(UntestedCredential {
            kind: Kind::Empty,
            text: &[],
        });
    }
    if let Some(text) = behind_mark(b"pattern:", room, word) {
        let kind = Kind::Pattern;
        return Ok(UntestedCredential { kind, text });
    }
    if let Some(text) = behind_mark(b"pin:", room, word) {
        let kind = Kind::Pin;
        return Ok(UntestedCredential { kind, text });
    }
    if let Some(text) = behind_mark(b"password:", room, word) {
        let kind = Kind::Password;
        return Ok(UntestedCredential { kind, text });
    }
    let none = shared_len(b"none", word);
    let pattern = along_mark(b"pattern:", room, word);
    let pin = along_mark(b"pin:", room, word);
    let password = along_mark(b"password:", room, word);
    Err(none.max(pattern.max(pin.max(password))))
}

/// What follows the mark, where the word is the mark and visible bytes, at most `room` in all.
fn behind_mark<'a>(mark: &[u8], room: usize, word: &'a [u8]) -> Option<&'a [u8]>
    ensures { MatchOption result
        (is_marked mark.now room word.now ≡ false)
        (λ text. (is_marked mark.now room word.now ≡ true)
        × (text.now ≡ drop (length mark.now) word.now)) }
{
    if mark.len() <= word.len() && along_mark(mark, room, word) == word.len() {
        let (_, text) = word.split_at(mark.len());
        Some(text)
    } else {
        None
    }
}

/// How far the text goes along with the mark and visible bytes, at most `room`.
fn along_mark(mark: &[u8], room: usize, text: &[u8]) -> usize
    ensures value { result ≡ along mark.now room text.now }
    ensures bound { result ≤ length text.now }
{
    if room < mark.len() {
        return 0;
    }
    let shared = shared_len(mark, text);
    if shared < mark.len() {
        return shared;
    }
    (mark.len() + visible_len(&text[mark.len()..])).min(room)
}
