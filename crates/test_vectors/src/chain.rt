//! The chain from a text to what a protector seals, and how much is planned to build one.
ghost use Rattle.std.specs.Prelude.{◌≡◌, is_some, true};

use crate::answer::{Answer, RowFault};
use crate::secrets::of_halves;
use crate::words::{array_of, byte_of, half_of, number_of};
use ls_board::Plan;
use ls_bytes::Memory;
use ls_credential::{Credential, CredentialFault, Kind};
use ls_sealing::{
    Place, credential_plan, discardable_share, gatekeeper_password, layered, stretched,
    stretched_default, token_plan, value_share, weaver_key,
};
use ls_secret::Secret;
use std::alloc::{AllocError, Global};

/// The key by which a PIN with this salt reads its slot.
pub fn key(alloc: Global, to: &mut Answer, args: &[Vec<u8>]) {
    match args {
        [pin, salt] => match credential_of(alloc, Kind::Pin, pin) {
            Ok(pin) => key_of(alloc, to, &pin, salt),
            Err(fault) => to.fails(fault),
        },
        _ => to.is_no_row(),
    }
}

fn key_of(alloc: Global, to: &mut Answer, pin: &Credential, salt: &[u8]) {
    let salt = array_of(to, salt);
    match stretched(alloc, pin, &salt) {
        Ok(text) => to.digits(&weaver_key(&text)),
        Err(_) => to.lacks_memory(),
    }
}

/// The credential of this kind and text.
pub fn credential_of(alloc: Global, kind: Kind, text: &[u8]) -> Result<Credential, RowFault> {
    match Credential::parse(alloc, kind, text) {
        Ok(credential) => Ok(credential),
        Err(CredentialFault::Memory) => Err(RowFault::Memory),
        Err(_) => Err(RowFault::Form),
    }
}

/// The same key where there is no credential.
pub fn default_key(to: &mut Answer) {
    to.digits(&weaver_key(&stretched_default()));
}

pub fn password(to: &mut Answer, args: &[Vec<u8>]) {
    match args {
        [text] => to.digits(&gatekeeper_password(text)),
        _ => to.is_no_row(),
    }
}

pub fn value(to: &mut Answer, args: &[Vec<u8>]) {
    match args {
        [value] => to.digits(&value_share(value)),
        _ => to.is_no_row(),
    }
}

pub fn discardable(to: &mut Answer, args: &[Vec<u8>]) {
    match args {
        [bytes] => to.digits(&discardable_share(bytes)),
        _ => to.is_no_row(),
    }
}

/// The secret of two halves in two layers, where there is no credential: key, value of the slot,
/// inner and outer iv, halves.
pub fn sealed(alloc: Global, to: &mut Answer, args: &[Vec<u8>]) {
    match args {
        [keys @ .., p0, p1] => match of_halves(alloc, to, p0, p1) {
            Ok(secret) => sealed_secret(alloc, to, keys, &secret),
            Err(_) => to.lacks_memory(),
        },
        _ => to.is_no_row(),
    }
}

fn sealed_secret(alloc: Global, to: &mut Answer, keys: &[Vec<u8>], secret: &Secret) {
    match keys {
        [key, value, inner, outer] => match protector_of(alloc, value) {
            Ok(protector) => {
                let key = array_of(to, key);
                let (inner, outer) = (array_of(to, inner), array_of(to, outer));
                to.bytes(layered(alloc, &key, &protector, &inner, &outer, secret.sp_text()));
            }
            Err(_) => to.lacks_memory(),
        },
        _ => to.is_no_row(),
    }
}

/// The stretched default text, and what the value of a slot adds to it.
fn protector_of(alloc: Global, value: &[u8]) -> Result<Vec<u8>, AllocError> {
    let mut protector = Vec::from_slice(alloc, &stretched_default())?;
    protector.extend_from_slice(&value_share(value))?;
    Ok(protector)
}

/// The weight of a plan for a secret of two halves without a credential: user, id, slot, halves,
/// drawn bytes.
pub fn credential_weight(alloc: Global, to: &mut Answer, args: &[Vec<u8>]) {
    match args {
        [user, id, slot, p0, p1, drawn] => {
            let place = Place {
                user: half_of(to, user),
                id: number_of(to, id),
                slot: Some(half_of(to, slot)),
            };
            match of_halves(alloc, to, p0, p1) {
                Ok(secret) => default_weight(alloc, to, &place, &secret, drawn),
                Err(_) => to.lacks_memory(),
            }
        }
        _ => to.is_no_row(),
    }
}

fn default_weight(alloc: Global, to: &mut Answer, place: &Place, secret: &Secret, drawn: &[u8])
    requires slot { is_some place.now.slot ≡ true }
{
    if place.id == 0 || drawn.len() != 72 {
        return to.is_no_row();
    }
    match Credential::none(alloc) {
        Ok(none) => {
            let text = stretched_default();
            weight(
                to,
                credential_plan(alloc, place, &none, secret, drawn, &text, &None),
            );
        }
        Err(_) => to.lacks_memory(),
    }
}

/// The weight of a plan for a token without a slot: user, id, token, version, first half, drawn
/// bytes.
pub fn token_weight(alloc: Global, to: &mut Answer, args: &[Vec<u8>]) {
    match args {
        [user, id, token, version, p0, drawn] if drawn.len() == 16440 => {
            let place = Place {
                user: half_of(to, user),
                id: number_of(to, id),
                slot: None,
            };
            let version = byte_of(to, version);
            let p0 = array_of(to, p0);
            if place.id == 0 || version < 2 || version > 3 {
                return to.is_no_row();
            }
            weight(to, token_plan(alloc, &place, token, version, &p0, drawn));
        }
        _ => to.is_no_row(),
    }
}

/// How many actions a plan has, and how many bytes they hold.
pub fn weight(to: &mut Answer, plan: Result<Plan, Memory>) {
    match plan {
        Ok(plan) => {
            let (actions, bytes) = plan.weight();
            to.number(u64::from(actions));
            to.number(bytes);
        }
        Err(_) => to.lacks_memory(),
    }
}
