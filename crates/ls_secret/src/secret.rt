//! A secret: a version and a synthetic password.
ghost use Rattle.std.specs.Prelude.{◌≡◌, ◌⊎◌, IfOk, IfErr, IsTrue, Some};
ghost use Rattle.std.specs.List.{list_all};
ghost use Rattle.hex.specs.Hex.{encode_upper};
ghost use Rattle.ls_secret.specs.Secrets.{is_sp_text, is_upper_digit};

use crate::derived::Derived;
use crate::fault::SecretFault;
use crate::personal::Personal;
use crate::subkey::Subkey;
use ls_bytes::{Bytes, Memory, hex_upper};
use ls_hash::{phash, phash2, sp800};
use std::alloc::Global;
use std::marker::Model;

/// The version of new secrets.
const NEW_VERSION: u8 = 3;

// The context of every derived key of version 3.
const CONTEXT: &[u8] = b"android-synthetic-password-personalization-context";

/// The secret of a user: a version, 2 or 3, and the synthetic password, a text of 128 upper-case
/// hex digits. It never changes while the user exists.
#[derive(Drop)]
pub struct Secret {
    version: u8,
    sp: Bytes,
}

impl Model for Secret {
    ghost use Rattle.ls_secret.specs.Secrets.{SecretValue, IsSecret};

    ghost Value = { SecretValue };

    ghost view = { λ s. record { version = s.version; sp = s.sp } };

    ghost invariant = { λ s. IsSecret record { version = s.version; sp = s.sp } };
}

// An upper-case hex digit.
fn is_upper_digit(b: u8) -> bool
    ensures { result ≡ is_upper_digit b }
{
    (b'0' <= b && b <= b'9') || (b'A' <= b && b <= b'F')
}

// Upper-case hex digits alone.
fn has_upper_digits(text: &[u8]) -> bool
    ensures { result ≡ list_all is_upper_digit text.now }
{
    text.iter().all(|b| is_upper_digit(*b))
}

// A text of 128 upper-case hex digits.
fn is_sp_text(text: &[u8]) -> bool
    ensures { result ≡ is_sp_text text.now }
{
    text.len() == 128 && has_upper_digits(text)
}

// The text of a hash.
fn sp_text_of(alloc: Global, hash: &[u8; 64]) -> Result<Bytes, Memory>
    ensures text { IfOk result (λ text. text ≡ encode_upper hash.now) }
    ensures shape { IfOk result (λ text. IsTrue (is_sp_text text)) }
{
    hex_upper(alloc, hash)
}

impl Secret {
    ghost use Rattle.ls_secret.specs.Derivation.{subkey_of, derived_of};
    ghost use Rattle.ls_secret.specs.Secrets.{IsSecret, is_version, new_secret, secret_fault, synthetic_password};
    ghost use Rattle.ls_secret.specs.declared.fault.SecretFault.{SecretFault};

    /// The new secret of two halves.
    pub fn create(alloc: Global, p0: &[u8; 32], p1: &[u8; 32]) -> Result<Secret, Memory>
        ensures made { IfOk result (λ secret. secret ≡ new_secret p0.now p1.now) }
        ensures is_secret { IfOk result IsSecret }
    {
        Secret::of_halves(alloc, NEW_VERSION, p0, p1)
    }

    /// The secret of version 2 or 3 that is made of two halves, of whatever sizes.
    pub fn of_halves(alloc: Global, version: u8, p0: &[u8], p1: &[u8]) -> Result<Secret, Memory>
        requires version { IsTrue (is_version version) }
        ensures made { IfOk result (λ secret.
            secret ≡ record { version = version; sp = synthetic_password p0.now p1.now }) }
        ensures is_secret { IfOk result IsSecret }
    {
        Ok(Secret {
            version,
            sp: sp_text_of(alloc, &phash2(b"sp-split", p0, p1))?,
        })
    }

    /// The secret of this version with this synthetic password. The version is tested first.
    pub fn of(alloc: Global, version: u8, sp: &[u8]) -> Result<Secret, SecretFault>
        ensures made { IfOk result (λ secret. secret ≡ record { version = version; sp = sp.now }) }
        ensures is_secret { IfOk result IsSecret }
        ensures faulty { (e : SecretFault) → secret_fault version sp.now ≡ Some e → result ≡ Err e }
        ensures fault { IfErr result
            (λ e. (e ≡ SecretFault.Memory) ⊎ (secret_fault version sp.now ≡ Some e)) }
    {
        if version != 2 && version != 3 {
            return Err(SecretFault::Version);
        }
        if !is_sp_text(sp) {
            return Err(SecretFault::Shape);
        }
        Ok(Secret {
            version,
            sp: Bytes::of(alloc, sp)?,
        })
    }

    /// The secret of version 3 with this synthetic password.
    pub fn from_sp(alloc: Global, sp: &[u8]) -> Result<Secret, SecretFault>
        ensures made { IfOk result (λ secret. secret ≡ record { version = 3; sp = sp.now }) }
        ensures is_secret { IfOk result IsSecret }
        ensures faulty { (e : SecretFault) → secret_fault 3 sp.now ≡ Some e → result ≡ Err e }
        ensures fault { IfErr result
            (λ e. (e ≡ SecretFault.Memory) ⊎ (secret_fault 3 sp.now ≡ Some e)) }
    {
        Secret::of(alloc, NEW_VERSION, sp)
    }

    /// The synthetic password, to look at.
    pub fn sp_text(&self) -> &[u8]
        ensures same { result.now ≡ self.now.sp }
        ensures is_secret { IsSecret self.now }
    {
        self.sp.as_slice()
    }

    /// The version, 2 or 3.
    pub fn version(&self) -> u8
        ensures same { result ≡ self.now.version }
        ensures is_secret { IsSecret self.now }
    {
        self.version
    }

    /// The key for a use: 32 bytes by SP 800-108 from a secret of version 3, and the 64 bytes of a
    /// hash from one of version 2.
    pub fn subkey(&self, personal: Personal) -> Subkey
        ensures same { result ≡ subkey_of self.now personal }
    {
        let text = personal.text();
        let sp = self.sp.as_slice();
        if self.version == 2 {
            Subkey::Long(phash(text, sp))
        } else {
            Subkey::Short(sp800(sp, text, CONTEXT))
        }
    }

    /// The four keys of an opened user. They are a function of the secret alone.
    pub fn derived(&self) -> Derived
        ensures same { result ≡ derived_of self.now }
    {
        Derived {
            keystore: self.subkey(Personal::KeystorePassword),
            fbe: self.subkey(Personal::FbeKey),
            auth: self.subkey(Personal::AuthsecretHal),
            gk: self.subkey(Personal::SpGkAuthentication),
        }
    }
}
