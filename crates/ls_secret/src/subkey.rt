//! A key that is derived from a secret. Its length shows the version of the secret.
ghost use Rattle.std.specs.Prelude.{◌≡◌, length};

/// A key that was derived from a secret.
#[derive(Clone, Copy, Debug, PartialEq, Eq)]
pub enum Subkey {
    /// 32 bytes, from a secret of version 3.
    Short([u8; 32]),
    /// 64 bytes, from a secret of version 2.
    Long([u8; 64]),
}

impl Subkey {
    ghost use Rattle.ls_secret.specs.Subkeys.{subkey_bytes, subkey_size};

    /// The 32 or 64 bytes of the key, to look at.
    pub fn as_slice(&self) -> &[u8]
        ensures same { result.now ≡ subkey_bytes self.now }
        ensures size { length result.now ≡ subkey_size self.now }
    {
        match self {
            Subkey::Short(bytes) => bytes,
            Subkey::Long(bytes) => bytes,
        }
    }
}
