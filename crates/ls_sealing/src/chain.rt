//! How the secret of a protector derives from what is offered and from what devices hold.
ghost use Rattle.std.specs.Prelude.{◌≡◌, ◌≤◌, ◌+◌, ◌^◌, if◌then◌else◌, length, IfOk};
ghost use Rattle.ls_naming.specs.Named.{has_credential};
ghost use Rattle.ls_sealing.specs.Chain.{stretched_default, stretched_at, weaver_key};
ghost use Rattle.ls_sealing.specs.Chain.{gatekeeper_password, value_share, discardable_share};
ghost use Rattle.ls_sealing.specs.Chain.{layered};

use ls_blob::seal_under;
use ls_bytes::{Bytes, Memory};
use ls_credential::{Credential, Kind};
use ls_formats::PwdData;
use ls_gcm::seal;
use ls_hash::phash;
use ls_scrypt::{Cost, stretch};
use std::alloc::Global;

/// The cost of each new protector: N is 2048, r is 8 and p is 2.
pub const USUAL_COST: Cost = Cost {
    log_n: 11,
    log_r: 3,
    log_p: 1,
};

/// Whether a kind has a text.
pub(crate) fn has_credential(kind: Kind) -> bool
    ensures same { result ≡ has_credential kind }
{
    match kind {
        Kind::Empty => false,
        Kind::Pattern | Kind::Pin | Kind::Password => true,
    }
}

/// What stands for a stretched text where there is no credential: the text `default-password` and
/// 16 zeros.
#[tactic(auto, unfolding(crate::specs::Chain::stretched_default))]
pub fn stretched_default() -> [u8; 32]
    ensures same { result ≡ stretched_default }
{
    *b"default-password\0\0\0\0\0\0\0\0\0\0\0\0\0\0\0\0"
}

/// The stretched text of a credential, with this salt and at the usual cost.
#[tactic(auto, unfolding(crate::specs::Chain::stretched_at))]
pub fn stretched(
    alloc: Global,
    credential: &Credential,
    salt: &[u8; 16],
) -> Result<[u8; 32], Memory>
    ensures same { IfOk result (λ text. text ≡
        (if has_credential credential.now.kind
        then stretched_at 11 3 1 salt.now credential.now.text else stretched_default)) }
{
    if has_credential(credential.kind) {
        stretch(alloc, credential.text.as_slice(), salt, USUAL_COST)
    } else {
        Ok(stretched_default())
    }
}

/// A text, stretched with the salt and at the cost that a `pwd` file says.
pub fn stretched_by(alloc: Global, pwd: &PwdData, text: &[u8]) -> Result<[u8; 32], Memory>
    ensures same { IfOk result (λ stretched. stretched
        ≡ stretched_at pwd.now.log_n pwd.now.log_r pwd.now.log_p pwd.now.salt text.now) }
{
    let cost = Cost {
        log_n: pwd.log_n,
        log_r: pwd.log_r,
        log_p: pwd.log_p,
    };
    stretch(alloc, text, &pwd.salt, cost)
}

/// The key by which a stretched text reads its Weaver slot.
#[tactic(auto, unfolding(crate::specs::Chain::weaver_key))]
pub fn weaver_key(stretched: &[u8]) -> [u8; 16]
    ensures same { result ≡ weaver_key stretched.now }
{
    let hash = phash(b"weaver-key", stretched);
    let mut key = [0; 16];
    key.copy_from_slice(&hash[..16]);
    key
}

/// The password by which a stretched text is known to the Gatekeeper.
#[tactic(auto, unfolding(crate::specs::Chain::gatekeeper_password))]
pub fn gatekeeper_password(stretched: &[u8]) -> [u8; 64]
    ensures same { result ≡ gatekeeper_password stretched.now }
{
    phash(b"user-gk-authentication", stretched)
}

/// What the value of a Weaver slot gives to the secret of a protector.
#[tactic(auto, unfolding(crate::specs::Chain::value_share))]
pub fn value_share(value: &[u8]) -> [u8; 64]
    ensures same { result ≡ value_share value.now }
{
    phash(b"weaver-pwd", value)
}

/// What discardable bytes give to the secret of a protector.
#[tactic(auto, unfolding(crate::specs::Chain::discardable_share))]
pub fn discardable_share(bytes: &[u8]) -> [u8; 64]
    ensures same { result ≡ discardable_share bytes.now }
{
    phash(b"secdiscardable-transform", bytes)
}

/// Seals a text of at most 2^16 bytes in two layers: the inner one under the secret of the
/// protector, the outer one under its key in the key store.
pub fn layered(
    alloc: Global,
    key: &[u8; 32],
    secret: &[u8],
    inner_iv: &[u8; 12],
    outer_iv: &[u8; 12],
    text: &[u8],
) -> Result<Bytes, Memory>
    requires { length text.now ≤ 2 ^ 16 }
    ensures sealed { IfOk result
        (λ sealed. sealed ≡ layered key.now secret.now inner_iv.now outer_iv.now text.now) }
    ensures size { IfOk result (λ sealed. length sealed ≡ length text.now + 56) }
{
    let inner = seal_under(alloc, secret, b"application-id", inner_iv, text)?;
    seal(alloc, key, outer_iv, inner.as_slice())
}
