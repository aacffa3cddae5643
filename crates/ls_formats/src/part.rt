//! The parts of a protector and of a user, each of which is a file.
ghost use Rattle.std.specs.Prelude.{◌≡◌};
ghost use Rattle.ls_formats.specs.PartNames.{part_text};

/// What a file holds. The first five are parts of a protector, the others of a user.
#[derive(Clone, Copy, Debug, PartialEq, Eq)]
pub enum FilePart {
    /// The sealed secret, or what gives it.
    SpBlob,
    /// The kind of a credential, the cost of its stretching, its salt, and without Weaver a
    /// Gatekeeper handle.
    Pwd,
    /// 16,384 random bytes, which with Weaver are sealed.
    Secdis,
    /// The number of a Weaver slot.
    Weaver,
    /// What is counted of the credential, sealed.
    Metrics,
    /// The Gatekeeper handle of the user's secret.
    Handle,
    /// The first half of what the secret is made of, sealed under the secret.
    E0,
    /// The second half of it.
    P1,
    /// The secret, sealed for the next boot.
    Resume,
}

/// The last word of the name of a file of this part.
pub(crate) fn part_text(part: FilePart) -> &'static [u8]
    ensures text { result.now ≡ part_text part }
{
    match part {
        FilePart::SpBlob => b"spblob",
        FilePart::Pwd => b"pwd",
        FilePart::Secdis => b"secdis",
        FilePart::Weaver => b"weaver",
        FilePart::Metrics => b"metrics",
        FilePart::Handle => b"handle",
        FilePart::E0 => b"e0",
        FilePart::P1 => b"p1",
        FilePart::Resume => b"resume",
    }
}
