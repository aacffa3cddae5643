//! SHA-512 for one purpose: the text of the purpose is the first block of what is hashed.
ghost use Rattle.std.specs.Prelude.{◌≡◌, ◌≤◌, ◌++◌, length};
ghost use Rattle.sha2.specs.Hashers.{Holds512};
ghost use Rattle.ls_hash.specs.Padding.{padded};
ghost use Rattle.ls_hash.specs.Personal.{personalised_hash};

use crate::padding::padded;
use sha2::{Digest, Sha512};

/// The personalised hash of a message. The personalisation has at most 128 bytes.
#[tactic(auto, unfolding(crate::specs::Personal::personalised_hash))]
pub fn phash(personal: &[u8], m: &[u8]) -> [u8; 64]
    requires { length personal.now ≤ 128 }
    ensures digest { result ≡ personalised_hash personal.now m.now }
{
    let mut hasher = personalised(personal);
    hasher.update(m);
    hasher.finalize()
}

/// The personalised hash of two messages, joined. The personalisation has at most 128 bytes.
#[tactic(auto, unfolding(crate::specs::Personal::personalised_hash))]
pub fn phash2(personal: &[u8], m1: &[u8], m2: &[u8]) -> [u8; 64]
    requires { length personal.now ≤ 128 }
    ensures digest { result ≡ personalised_hash personal.now (m1.now ++ m2.now) }
{
    let mut hasher = personalised(personal);
    hasher.update(m1);
    hasher.update(m2);
    hasher.finalize()
}

/// A hasher that has taken in the personalisation.
fn personalised(personal: &[u8]) -> Sha512
    requires { length personal.now ≤ 128 }
    ensures { Holds512 result (padded 128 personal.now) }
{
    Sha512::new_with_prefix(&padded::<128>(personal))
}
