//! Noise, with zeros behind its end.
ghost use Rattle.std.specs.Prelude.{◌≡◌, drop, IfOk};
ghost use Rattle.ls_tape.specs.Tape.{drawn};

use ls_bytes::{Bytes, Memory};
use std::alloc::Global;

/// So many bytes of the noise.
#[tactic(auto, using(crate::proofs::NoiseLemmas::zeros_behind))]
pub fn drawn(alloc: Global, noise: &[u8], len: usize) -> Result<Bytes, Memory>
    ensures drawn { IfOk result (λ bytes. bytes ≡ drawn noise.now len) }
{
    let mut bytes = noise[..len.min(noise.len())].to_vec(alloc)?;
    bytes.resize(len, 0)?;
    Ok(Bytes::from(bytes))
}

/// The noise that is left after so many bytes were drawn.
pub fn later_noise(noise: &[u8], len: usize) -> &[u8]
    ensures left { result.now ≡ drop len noise.now }
{
    &noise[len.min(noise.len())..]
}
