//! Hashes, and keys that are made by hashing.
ghost use Rattle.std.specs.Prelude.{◌≤◌, IfSome};

use crate::answer::Answer;
use crate::words::half_of;
use ls_hash::{hmac256, hmac256_joined, pbkdf2_once, phash, phash2, sp800};
use ls_scrypt::{Cost, stretch, xor_into};
use sha2::{Digest, Sha256};
use std::alloc::Global;

pub fn sha256(to: &mut Answer, args: &[Vec<u8>]) {
    match args {
        [message] => to.digits(&Sha256::digest(message)),
        _ => to.is_no_row(),
    }
}

pub fn hmac(to: &mut Answer, args: &[Vec<u8>]) {
    match args {
        [key, message] => to.digits(&hmac256(key, message)),
        _ => to.is_no_row(),
    }
}

pub fn joined_hmac(to: &mut Answer, args: &[Vec<u8>]) {
    match args {
        [key, front, back] => to.digits(&hmac256_joined(key, front, back)),
        _ => to.is_no_row(),
    }
}

pub fn derived(to: &mut Answer, args: &[Vec<u8>]) {
    match args {
        [key, label, context] if context.len() < 1 << 28 => {
            to.digits(&sp800(key, label, context));
        }
        _ => to.is_no_row(),
    }
}

pub fn personalised(to: &mut Answer, args: &[Vec<u8>]) {
    match args {
        [personal, m] if personal.len() <= 128 => to.digits(&phash(personal, m)),
        _ => to.is_no_row(),
    }
}

pub fn personalised_pair(to: &mut Answer, args: &[Vec<u8>]) {
    match args {
        [personal, m1, m2] if personal.len() <= 128 => to.digits(&phash2(personal, m1, m2)),
        _ => to.is_no_row(),
    }
}

pub fn pbkdf2(alloc: Global, to: &mut Answer, args: &[Vec<u8>]) {
    match args {
        [password, salt, len] => {
            let len = half_of(to, len);
            if 1 <= len && len <= 16_384 {
                to.bytes(pbkdf2_once(alloc, password, salt, len));
            } else {
                to.is_no_row();
            }
        }
        _ => to.is_no_row(),
    }
}

pub fn stretched(alloc: Global, to: &mut Answer, args: &[Vec<u8>]) {
    match args {
        [password, salt, powers] => match cost_of(powers) {
            Some(cost) => match stretch(alloc, password, salt, cost) {
                Ok(key) => to.digits(&key),
                Err(_) => to.lacks_memory(),
            },
            None => to.is_no_row(),
        },
        _ => to.is_no_row(),
    }
}

/// The cost of these three powers.
fn cost_of(powers: &[u8]) -> Option<Cost>
    ensures log_n { IfSome result (λ cost. (1 ≤ cost.log_n) × (cost.log_n ≤ 14)) }
    ensures log_r { IfSome result (λ cost. cost.log_r ≤ 4) }
    ensures log_p { IfSome result (λ cost. cost.log_p ≤ 3) }
{
    match powers {
        [log_n, log_r, log_p] if 1 <= *log_n && *log_n <= 14 && *log_r <= 4 && *log_p <= 3 => {
            Some(Cost {
                log_n: *log_n,
                log_r: *log_r,
                log_p: *log_p,
            })
        }
        _ => None,
    }
}

pub fn xored(to: &mut Answer, args: &[Vec<u8>]) {
    match args {
        [one, other] if one.len() == other.len() => match one.clone() {
            Ok(mut xor) => {
                xor_into(&mut xor, other);
                to.digits(&xor);
            }
            Err(_) => to.lacks_memory(),
        },
        _ => to.is_no_row(),
    }
}
