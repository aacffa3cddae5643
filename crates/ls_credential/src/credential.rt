//! A credential, and how a text becomes one.
ghost use Rattle.std.specs.Prelude.{◌≡◌};
ghost use Rattle.std.specs.List.{list_all};
ghost use Rattle.ls_credential.specs.Rules.{has_good_length, is_in_alphabet, has_repeat, fault_of};

use crate::fault::CredentialFault;
use crate::kind::Kind;
use ls_bytes::{Bytes, Memory};
use std::alloc::Global;
use std::marker::Model;

/// A text that keeps the rules of its kind.
#[derive(Drop)]
pub struct Credential {
    pub kind: Kind,
    pub text: Bytes,
}

impl Model for Credential {
    ghost use Rattle.std.specs.Prelude.{◌≡◌, None};
    ghost use Rattle.ls_credential.specs.Rules.{KindAndText, fault_of};

    ghost Value = { KindAndText };

    ghost view = { λ c. record { kind = c.kind; text = c.text } };

    ghost invariant = { λ c. fault_of c.kind c.text ≡ None };
}

impl Credential {
    ghost use Rattle.std.specs.Prelude.{◌≡◌, ◌⊎◌, IfOk, OnOk, IfErr, Some, None, Err, []};
    ghost use Rattle.ls_credential.specs.Rules.{fault_of};
    ghost use Rattle.ls_credential.specs.declared.fault.CredentialFault.TheVariants as fault;
    ghost use Rattle.ls_credential.specs.declared.fault.CredentialFault.{CredentialFault};
    ghost use Rattle.ls_credential.specs.declared.kind.Kind.TheVariants.{Empty};

    /// No credential: the kind without a text.
    pub fn none(alloc: Global) -> Result<Credential, Memory>
        ensures none { IfOk result (λ c. c ≡ record { kind = Empty; text = [] }) }
    {
        let text = Bytes::of(alloc, b"")?;
        Ok(Credential {
            kind: Kind::Empty,
            text,
        })
    }

    /// The first of the kind's rules that the text breaks. Takes no memory.
    pub fn fault(kind: Kind, text: &[u8]) -> Option<CredentialFault>
        ensures same { result ≡ fault_of kind text.now }
    {
        if !has_good_length(kind, text) {
            Some(CredentialFault::Length)
        } else if !has_good_bytes(kind, text) {
            Some(CredentialFault::Alphabet)
        } else if kind == Kind::Pattern && repeats(text) {
            Some(CredentialFault::Repeat)
        } else {
            None
        }
    }

    /// The credential of this kind and text.
    pub fn parse(alloc: Global, kind: Kind, text: &[u8]) -> Result<Credential, CredentialFault>
        ensures parsed { IfOk result (λ c. c ≡ record { kind = kind; text = text.now }) }
        ensures kept { OnOk result (fault_of kind text.now ≡ None) }
        ensures faulty { (e : CredentialFault) → fault_of kind text.now ≡ Some e → result ≡ Err e }
        ensures fault { IfErr result (λ e. (e ≡ fault.Memory) ⊎ (fault_of kind text.now ≡ Some e)) }
    {
        if let Some(fault) = Credential::fault(kind, text) {
            return Err(fault);
        }
        let text = Bytes::of(alloc, text)?;
        Ok(Credential { kind, text })
    }
}

fn has_good_length(kind: Kind, text: &[u8]) -> bool
    ensures same { result ≡ has_good_length kind text.now }
{
    let (least, most) = match kind {
        Kind::Empty => (0, 0),
        Kind::Pattern => (4, 9),
        Kind::Pin | Kind::Password => (4, 16),
    };
    least <= text.len() && text.len() <= most
}

fn has_good_bytes(kind: Kind, text: &[u8]) -> bool
    ensures same { result ≡ list_all (is_in_alphabet kind) text.now }
{
    text.iter().all(|b| may_hold(kind, *b))
}

/// Whether a text of the kind may have the byte.
fn may_hold(kind: Kind, b: u8) -> bool
    ensures same { result ≡ is_in_alphabet kind b }
{
    match kind {
        Kind::Empty => false,
        Kind::Pattern => b'1' <= b && b <= b'9',
        Kind::Pin => b'0' <= b && b <= b'9',
        Kind::Password => 0x21 <= b && b <= 0x7e,
    }
}

fn repeats(text: &[u8]) -> bool
    ensures same { result ≡ has_repeat text.now }
{
    match text {
        [] => false,
        [first, rest @ ..] => rest.contains(first) || repeats(rest),
    }
}
