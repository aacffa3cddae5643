//! A key that another key gives: SP 800-108, section 4.1, counter mode.
ghost use Rattle.std.specs.Prelude.{◌≡◌, ◌<◌, ◌^◌, length};
ghost use Rattle.ls_hash.specs.Derivation.{kdf_counter};

use crate::mac::Mac;

/// The 32 bytes that a key gives under a label and a context (SP 800-108, section 4.1), in one
/// block of HMAC-SHA256. The context has fewer than 2^28 bytes; its length in bits is hashed too.
#[tactic(auto, unfolding(crate::specs::Derivation::kdf_counter))]
pub fn sp800(key: &[u8], label: &[u8], context: &[u8]) -> [u8; 32]
    requires { length context.now < 2 ^ 28 }
    ensures key { result ≡ kdf_counter key.now label.now context.now }
{
    let context_bits = 8 * context.len() as u32;
    let mut mac = Mac::new(key);
    mac.update(&1u32.to_be_bytes());
    mac.update(label);
    mac.update(&[0]);
    mac.update(context);
    mac.update(&context_bits.to_be_bytes());
    mac.update(&256u32.to_be_bytes());
    mac.finalize()
}
