//! Why the key store opens nothing.

/// Why the key store opens nothing. A missing key is told before a wrong tag.
#[derive(Clone, Copy, Debug, PartialEq, Eq)]
pub enum KeyFault {
    /// The alias has no key.
    NoKey,
    /// The text wasn't sealed with the key of the alias, or has fewer than 28 bytes.
    Tag,
    /// There was no memory for the opened text.
    Memory,
}
