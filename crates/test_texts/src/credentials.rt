//! Credentials: the rules of each kind, what is counted of a text, and the numbers of kinds.

use crate::fault::RowFault;
use crate::words::{byte_of, made, number_text, said, word_of};
use ls_credential::{Credential, CredentialFault, Kind, Metrics};
use std::alloc::Global;

/// `fine`, or the first rule that the text breaks.
pub fn tested(alloc: Global, args: &[Vec<u8>]) -> Result<String, RowFault> {
    match args {
        [kind, text] => {
            let kind = kind_of(kind)?;
            match Credential::parse(alloc, kind, text) {
                Ok(_) => said(alloc, "fine"),
                Err(fault) => rule_text(alloc, fault),
            }
        }
        _ => Err(RowFault::Form),
    }
}

/// The kind of no credential.
pub fn none(alloc: Global, args: &[Vec<u8>]) -> Result<String, RowFault> {
    match args {
        [] => match Credential::none(alloc) {
            Ok(credential) => said(alloc, name_of(credential.kind)),
            Err(_) => Err(RowFault::Memory),
        },
        _ => Err(RowFault::Form),
    }
}

pub fn counted(alloc: Global, args: &[Vec<u8>]) -> Result<String, RowFault> {
    match args {
        [kind, text] => {
            let kind = kind_of(kind)?;
            match metrics_of(alloc, kind, text) {
                Ok(metrics) => counts_of(alloc, &metrics),
                Err(fault) => Err(fault),
            }
        }
        _ => Err(RowFault::Form),
    }
}

/// What is counted of the credential that is this text.
pub fn metrics_of(alloc: Global, kind: Kind, text: &[u8]) -> Result<Metrics, RowFault> {
    match Credential::parse(alloc, kind, text) {
        Ok(credential) => Ok(credential.metrics()),
        Err(CredentialFault::Memory) => Err(RowFault::Memory),
        Err(_) => Err(RowFault::Form),
    }
}

/// The kind and the nine counts, in their order in a file.
pub fn counts_of(alloc: Global, metrics: &Metrics) -> Result<String, RowFault> {
    let kind = name_of(metrics.kind);
    made(format!(in alloc;
        "{kind} {} {} {} {} {} {} {} {} {}",
        metrics.length,
        metrics.letters,
        metrics.upper,
        metrics.lower,
        metrics.numeric,
        metrics.symbols,
        metrics.non_letter,
        metrics.non_numeric,
        metrics.run
    ))
}

pub fn code(alloc: Global, args: &[Vec<u8>]) -> Result<String, RowFault> {
    match args {
        [kind] => number_text(alloc, u64::from(kind_of(kind)?.code())),
        _ => Err(RowFault::Form),
    }
}

/// The kind with this number, or `-`.
pub fn kind(alloc: Global, args: &[Vec<u8>]) -> Result<String, RowFault> {
    match args {
        [code] => match Kind::of_code(byte_of(code)?) {
            Some(kind) => said(alloc, name_of(kind)),
            None => said(alloc, "-"),
        },
        _ => Err(RowFault::Form),
    }
}

/// The kind with this name.
pub fn kind_of(name: &[u8]) -> Result<Kind, RowFault> {
    match word_of(name)? {
        "none" => Ok(Kind::Empty),
        "pattern" => Ok(Kind::Pattern),
        "pin" => Ok(Kind::Pin),
        "password" => Ok(Kind::Password),
        _ => Err(RowFault::Form),
    }
}

/// The name of a kind.
pub fn name_of(kind: Kind) -> &'static str {
    match kind {
        Kind::Empty => "none",
        Kind::Pattern => "pattern",
        Kind::Pin => "pin",
        Kind::Password => "password",
    }
}

/// The text of the rule that is broken.
pub fn rule_text(alloc: Global, fault: CredentialFault) -> Result<String, RowFault> {
    match rule_of(fault) {
        Ok(rule) => said(alloc, rule),
        Err(fault) => Err(fault),
    }
}

/// The rule that is broken.
pub fn rule_of(fault: CredentialFault) -> Result<&'static str, RowFault> {
    match fault {
        CredentialFault::Length => Ok("length"),
        CredentialFault::Alphabet => Ok("alphabet"),
        CredentialFault::Repeat => Ok("repeat"),
        CredentialFault::Memory => Err(RowFault::Memory),
    }
}
