//! The first half of what a synthetic password is made of, sealed under it.
ghost use Rattle.std.specs.Prelude.{◌≡◌, ◌↔◌, ◌≢◌, List, ℕ, IfOk, length, Some, None};
ghost use Rattle.ls_gcm.specs.Gcm.{HasWrongTag};
ghost use Rattle.ls_blob.specs.Personal.{personal_key, sealed_under, opened_under};
ghost use Rattle.ls_secret.specs.Escrow.{e0_personal, e0_key, e0_of, opened_e0};

use crate::secret::Secret;
use ls_blob::{open_under, seal_under};
use ls_bytes::{Bytes, Memory};
use ls_gcm::OpenFault;
use std::alloc::Global;

// The personalisation of the seal.
const E0: &[u8] = b"e0-encryption";

// The 32 bytes of a half.
fn array_of(half: &Bytes) -> [u8; 32]
    requires { length half.now ≡ 32 }
    ensures { result ≡ half.now }
{
    let mut array = [0u8; 32];
    array.copy_from_slice(half.as_slice());
    array
}

// The first half that was sealed under a synthetic password.
fn half_of(alloc: Global, sp: &[u8], e0: &[u8]) -> Result<[u8; 32], OpenFault>
    requires { length e0.now ≡ 60 }
    ensures opened { IfOk result (λ p0. opened_under sp.now e0_personal e0.now ≡ Some p0) }
    ensures tag { (result ≡ Err OpenFault.Tag) ↔ HasWrongTag (personal_key sp.now e0_personal) e0.now }
    ensures refused { (opened_under sp.now e0_personal e0.now ≡ None) ↔ (result ≡ Err OpenFault.Tag) }
    ensures not_short { result ≢ Err OpenFault.Short }
    ensures back { (p0 iv : List ℕ) → length iv ≡ 12 → e0.now ≡ sealed_under sp.now e0_personal iv p0
        → opened_under sp.now e0_personal e0.now ≡ Some p0 }
{
    match open_under(alloc, sp, E0, e0) {
        Ok(half) => Ok(array_of(&half)),
        Err(fault) => Err(fault),
    }
}

impl Secret {
    /// The first half, sealed under the synthetic password: 60 bytes, from a half of 32.
    pub fn e0(&self, alloc: Global, p0: &[u8; 32], iv: &[u8; 12]) -> Result<Bytes, Memory>
        ensures sealed { IfOk result (λ e0. e0 ≡ e0_of self.now p0.now iv.now) }
        ensures size { IfOk result (λ e0. length e0 ≡ 60) }
    {
        seal_under(alloc, self.sp_text(), E0, iv, p0)
    }

    /// The first half that was sealed. A sealed half has 60 bytes, so the fault is never `Short`.
    pub fn open_e0(&self, alloc: Global, e0: &[u8]) -> Result<[u8; 32], OpenFault>
        requires { length e0.now ≡ 60 }
        ensures opened { IfOk result (λ p0. opened_e0 self.now e0.now ≡ Some p0) }
        ensures tag { (result ≡ Err OpenFault.Tag) ↔ HasWrongTag (e0_key self.now) e0.now }
        ensures refused { (opened_e0 self.now e0.now ≡ None) ↔ (result ≡ Err OpenFault.Tag) }
        ensures not_short { result ≢ Err OpenFault.Short }

        // What `e0` sealed is opened.
        ensures back { (p0 iv : List ℕ) → length iv ≡ 12 → e0.now ≡ e0_of self.now p0 iv
            → opened_e0 self.now e0.now ≡ Some p0 }
    {
        half_of(alloc, self.sp_text(), e0)
    }
}
