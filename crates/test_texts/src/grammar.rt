//! The words of a line, read from left to right: each row has a line, of which the second word is
//! read.

use crate::credentials::{name_of, rule_of};
use crate::fault::RowFault;
use crate::words::{made, printed_digits, with_word};
use ls_grammar::{Rest, first};
use std::alloc::Global;

/// What stands behind the first word.
fn behind(text: &[u8]) -> Rest<'_> {
    let (_, rest) = first(text);
    rest
}

/// The number and the place behind it, or the place where it leaves the grammar.
pub fn number(alloc: Global, args: &[Vec<u8>]) -> Result<String, RowFault> {
    match args {
        [text] => match behind(text).number() {
            Ok((number, rest)) => {
                let at = rest.at;
                made(format!(in alloc; "{number} {at}"))
            }
            Err(mismatch) => {
                let at = mismatch.at;
                made(format!(in alloc; "mismatch {at}"))
            }
        },
        _ => Err(RowFault::Form),
    }
}

/// The kind of the credential that ends the line, and `fine` or the rule that it breaks.
pub fn credential(alloc: Global, args: &[Vec<u8>]) -> Result<String, RowFault> {
    match args {
        [text] => {
            let Ok((credential, rest)) = behind(text).credential(0) else {
                return Err(RowFault::Form);
            };
            let kind = name_of(credential.kind);
            let end = end_of(rest);
            let rule = match credential.test() {
                Ok(()) => "fine",
                Err(fault) => rule_of(fault)?,
            };
            made(format!(in alloc; "{kind} {rule} {end}"))
        }
        _ => Err(RowFault::Form),
    }
}

/// The bytes of 2 to 128 hex digits that end the line.
pub fn digits(alloc: Global, args: &[Vec<u8>]) -> Result<String, RowFault> {
    match args {
        [text] => {
            let Ok((digits, rest)) = behind(text).hex(1, 64) else {
                return Err(RowFault::Form);
            };
            let end = end_of(rest);
            with_word(printed_digits(alloc, digits.bytes(alloc)), end)
        }
        _ => Err(RowFault::Form),
    }
}

fn end_of(rest: Rest<'_>) -> &'static str {
    match rest.end() {
        Ok(()) => "end",
        Err(_) => "more",
    }
}
