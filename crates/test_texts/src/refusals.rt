//! The texts of refusals, without the end of their line.

use crate::credentials::kind_of;
use crate::fault::RowFault;
use crate::fields::name_of;
use crate::replies::{printed, reply_text};
use crate::words::{half_of, number_of, word_of};
use ls_credential::CredentialFault;
use ls_script::{LineFault, Refusal, Reply, print_fault};
use std::alloc::Global;

/// What a text that is no line is answered: for its column, or the rule that it breaks.
pub fn no_line(alloc: Global, args: &[Vec<u8>]) -> Result<String, RowFault> {
    match args {
        [rule] => fault_text(alloc, LineFault::BadCredential(broken(rule)?)),
        [name, column] => fault_text(alloc, with_a_column(name, column)?),
        _ => Err(RowFault::Form),
    }
}

fn with_a_column(name: &[u8], column: &[u8]) -> Result<LineFault, RowFault> {
    match word_of(name)? {
        "column" => Ok(LineFault::Syntax {
            column: half_of(column)?,
        }),
        _ => Err(RowFault::Form),
    }
}

fn fault_text(alloc: Global, fault: LineFault) -> Result<String, RowFault> {
    reply_text(alloc, print_fault(alloc, fault))
}

fn broken(rule: &[u8]) -> Result<CredentialFault, RowFault> {
    match word_of(rule)? {
        "length" => Ok(CredentialFault::Length),
        "alphabet" => Ok(CredentialFault::Alphabet),
        "repeat" => Ok(CredentialFault::Repeat),
        _ => Err(RowFault::Form),
    }
}

pub fn refused(alloc: Global, args: &[Vec<u8>]) -> Result<String, RowFault> {
    match args {
        [name] => refusal_text(alloc, of_a_word(name)),
        [name, detail] => refusal_text(alloc, with_a_detail(name, detail)),
        [name, one, other] => refusal_text(alloc, with_two(alloc, name, one, other)),
        _ => Err(RowFault::Form),
    }
}

fn refusal_text(alloc: Global, refusal: Result<Refusal, RowFault>) -> Result<String, RowFault> {
    match refusal {
        Ok(refusal) => printed(alloc, Ok(Reply::No(refusal))),
        Err(fault) => Err(fault),
    }
}

fn of_a_word(name: &[u8]) -> Result<Refusal, RowFault> {
    match word_of(name)? {
        "no-user" => Ok(Refusal::NoUser),
        "user-exists" => Ok(Refusal::UserExists),
        "user-limit" => Ok(Refusal::UserLimit),
        "no-escrow" => Ok(Refusal::NoEscrow),
        "no-token" => Ok(Refusal::NoToken),
        "wrong-token" => Ok(Refusal::WrongToken),
        "token-limit" => Ok(Refusal::TokenLimit),
        "no-slot" => Ok(Refusal::NoSlot),
        "locked" => Ok(Refusal::Locked),
        "not-prepared" => Ok(Refusal::NotPrepared),
        "not-armed" => Ok(Refusal::NotArmed),
        "worn" => Ok(Refusal::Worn),
        _ => Err(RowFault::Form),
    }
}

fn with_a_detail(name: &[u8], detail: &[u8]) -> Result<Refusal, RowFault> {
    match word_of(name)? {
        "wrong-kind" => Ok(Refusal::WrongKind(kind_of(detail)?)),
        "throttled" => Ok(Refusal::Throttled(number_of(detail)?)),
        "wrong" => Ok(Refusal::Wrong(number_of(detail)?)),
        _ => Err(RowFault::Form),
    }
}

fn with_two(alloc: Global, name: &[u8], one: &[u8], other: &[u8]) -> Result<Refusal, RowFault> {
    match word_of(name)? {
        "expired" => Ok(Refusal::Expired {
            armed: half_of(one)?,
            boot: half_of(other)?,
        }),
        "corrupt" => Ok(Refusal::Corrupt {
            at: half_of(other)?,
            name: name_of(alloc, one)?,
        }),
        _ => Err(RowFault::Form),
    }
}
