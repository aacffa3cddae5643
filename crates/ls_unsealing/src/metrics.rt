//! Whether what is counted of a credential is sealed.
ghost use Rattle.std.specs.Prelude.{◌≡◌, ◌↔◌, IsTrue, IfOk};
ghost use Rattle.ls_formats.specs.Contents.{metrics_bytes};
ghost use Rattle.ls_sealing.specs.Seals.{ShowsMetrics};
ghost use Rattle.ls_unsealing.specs.Parts.{held_by};

use crate::parts::HeldParts;
use crate::text::is_text;
use ls_blob::opened_under;
use ls_bytes::Memory;
use ls_credential::{Credential, Kind, Metrics};
use ls_secret::{Personal, Secret};
use std::alloc::Global;

/// The ten bytes of the counts, also for no credential.
fn metrics_bytes(m: &Metrics) -> [u8; 10]
    ensures same { result ≡ metrics_bytes m.now }
{
    [
        m.kind.code(),
        m.length,
        m.letters,
        m.upper,
        m.lower,
        m.numeric,
        m.symbols,
        m.non_letter,
        m.non_numeric,
        m.run,
    ]
}

/// Whether the `metrics` file opens, under the secret, to what is counted of the credential. No
/// credential has no such file.
pub fn shows_metrics(
    alloc: Global,
    held: &HeldParts,
    credential: &Credential,
    secret: &Secret,
) -> Result<bool, Memory>
    ensures decided { IfOk result (λ shows. IsTrue shows
        ↔ ShowsMetrics (held_by held.now) credential.now secret.now) }
{
    let Some(file) = &held.files.metrics else {
        return Ok(credential.kind == Kind::Empty);
    };
    let key = secret.subkey(Personal::PasswordMetrics);
    let text = opened_under(alloc, key.as_slice(), b"", file.as_slice())?;
    Ok(is_text(&text, &metrics_bytes(&credential.metrics())))
}
