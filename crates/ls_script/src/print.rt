//! The texts of replies.
ghost use Rattle.std.specs.Prelude.{◌≡◌, ◌≤◌, ◌+◌, ◌*◌, ◌∷◌, [], length, map, IfOk, OnOk, Some};
ghost use Rattle.std.specs.Prelude.{codes};
ghost use Rattle.ls_grammar.specs.Words.{fixed, number};
ghost use Rattle.ls_script.specs.ReplyLines.{IsOneLine, NamesFiles};
ghost use Rattle.ls_script.specs.ReplyText.{reply_text, reply_line, fault_text, fault_words};
ghost use Rattle.ls_script.specs.ReplyText.{pin_word, token_text, user_count, Puts, PutsSome};

use crate::details::{put_all_opened, put_opened, put_refusal, put_status};
use crate::reply::{Reply, TokenState};
use crate::words::{put_id, put_small, put_word};
use ls_bytes::{Bytes, Memory, UserList, put_bytes, put_u8};
use ls_credential::CredentialFault;
use ls_grammar::LineFault;
use std::alloc::Global;

/// The text of a reply, which ends with a newline. Room for it is taken once.
#[tactic(auto, using(crate::proofs::ReplyLineLemmas::reply_one_line))]
pub fn print_reply(alloc: Global, r: &Reply) -> Result<Bytes, Memory>
    ensures text { IfOk result (λ text. text ≡ reply_text r.now) }
    ensures line { IfOk result IsOneLine }

    // A reply on as many users as there may be can be said at once.
    ensures size { IfOk result (λ text. user_count r.now ≤ 16 → length text ≤ 16384) }
{
    let mut text = Bytes::from(Vec::with_capacity(alloc, room_for(r))?);
    put_bytes(&mut text, verb_of(r))?;
    put_reply(&mut text, r)?;
    put_u8(&mut text, b'\n')?;
    Ok(text)
}

/// The text of the reply to a text that is no line. Want of memory has none, and is answered.
pub fn print_fault(alloc: Global, fault: LineFault) -> Result<Bytes, Memory>
    ensures text { IfOk result (λ text. fault_text fault ≡ Some text) }
    ensures line { IfOk result IsOneLine }
    ensures size { IfOk result (λ text. length text ≤ 16384) }
{
    printed_fault(alloc, fault)
}

fn printed_fault(alloc: Global, fault: LineFault) -> Result<Bytes, Memory>
    ensures text { IfOk result (λ text. fault_text fault ≡ Some text) }
    ensures size { IfOk result (λ text. length text ≤ 16384) }
{
    let mut text = Bytes::from(Vec::with_capacity(alloc, 32)?);
    put_bytes(&mut text, b"no")?;
    put_fault(&mut text, fault)?;
    put_u8(&mut text, b'\n')?;
    Ok(text)
}

/// How many bytes are set aside for a reply.
fn room_for(r: &Reply) -> usize {
    let users = match r {
        Reply::Resumed(rows) => rows.len(),
        Reply::Users(users) => users.len(),
        _ => 1,
    };
    64 + 600 * users as usize
}

/// The first word of a reply.
fn verb_of(r: &Reply) -> &'static [u8]
    ensures verb { result.now ≡ (reply_line r.now).verb }
    ensures size { length result.now ≡ 2 }
{
    match r {
        Reply::No(_) => b"no",
        _ => b"ok",
    }
}

/// The words behind it.
fn put_reply(to: &mut Bytes, r: &Reply) -> Result<(), Memory>
    ensures words { OnOk result
        (Puts (reply_line r.now).words (600 + 600 * user_count r.now) to.old to.new) }
    ensures names { OnOk result (NamesFiles r.now) }
{
    match r {
        Reply::Fine => Ok(()),
        Reply::Opened(revealed) => put_opened(to, revealed),
        Reply::Resumed(rows) => put_all_opened(to, rows.as_slice()),
        Reply::Status(row) => put_status(to, row),
        Reply::Users(users) => put_users(to, users),
        Reply::TokenId(id) => put_id(to, *id),
        Reply::TokenState(state) => put_word(to, token_name(*state)),
        Reply::PinLength(length) => put_pin_length(to, *length),
        Reply::No(refusal) => put_refusal(to, refusal),
    }
}

/// How many users there are, and each of them.
fn put_users(to: &mut Bytes, users: &UserList) -> Result<(), Memory>
    ensures { OnOk result
        (Puts (number (length users.now) ∷ map number users.now)
        (11 + 11 * length users.now) to.old to.new) }
{
    put_small(to, users.len())?;
    put_numbers(to, users.as_slice())?;
    Ok(())
}

fn put_numbers(to: &mut Bytes, numbers: &[u32]) -> Result<(), Memory>
    ensures { OnOk result (Puts (map number numbers.now) (11 * length numbers.now) to.old to.new) }
{
    for n in numbers {
        put_small(to, *n)?;
    }
    Ok(())
}

fn token_name(state: TokenState) -> &'static [u8]
    ensures name { result.now ≡ token_text state }
    ensures size { length result.now ≤ 7 }
{
    match state {
        TokenState::Pending => b"pending",
        TokenState::Active => b"active",
        TokenState::Absent => b"none",
    }
}

/// The length of a PIN, where it is shown.
fn put_pin_length(to: &mut Bytes, length: u8) -> Result<(), Memory>
    ensures { OnOk result (Puts (pin_word length ∷ []) 11 to.old to.new) }
{
    if length == 0 {
        put_word(to, b"none")?;
        Ok(())
    } else {
        put_small(to, u32::from(length))?;
        Ok(())
    }
}

/// Why a text is no line.
fn put_fault(to: &mut Bytes, fault: LineFault) -> Result<(), Memory>
    ensures { OnOk result (PutsSome (fault_words fault) 25 to.old to.new) }
{
    match fault {
        LineFault::Syntax { column } => put_syntax(to, column),
        LineFault::BadCredential(CredentialFault::Length) => put_bad_credential(to, b"length"),
        LineFault::BadCredential(CredentialFault::Alphabet) => put_bad_credential(to, b"alphabet"),
        LineFault::BadCredential(CredentialFault::Repeat) => put_bad_credential(to, b"repeat"),
        LineFault::BadCredential(CredentialFault::Memory) | LineFault::Memory => Err(Memory),
    }
}

fn put_syntax(to: &mut Bytes, column: u32) -> Result<(), Memory>
    ensures { OnOk result (Puts (fixed (codes "syntax") ∷ number column ∷ []) 25 to.old to.new) }
{
    put_word(to, b"syntax")?;
    put_small(to, column)?;
    Ok(())
}

fn put_bad_credential(to: &mut Bytes, rule: &[u8]) -> Result<(), Memory>
    requires { length rule.now ≤ 8 }
    ensures { OnOk result
        (Puts (fixed (codes "bad-credential") ∷ fixed rule.now ∷ []) 25 to.old to.new) }
{
    put_word(to, b"bad-credential")?;
    put_word(to, rule)?;
    Ok(())
}
