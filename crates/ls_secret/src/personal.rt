//! The texts by which the keys of one secret differ.
ghost use Rattle.std.specs.Prelude.{◌≡◌, ◌≤◌, length};

/// What a key is derived for. Each has a text of its own, which goes into the derivation.
#[derive(Clone, Copy, Debug, PartialEq, Eq)]
pub enum Personal {
    /// `keystore-password`
    KeystorePassword,
    /// `sp-gk-authentication`
    SpGkAuthentication,
    /// `fbe-key`
    FbeKey,
    /// `authsecret-hal`
    AuthsecretHal,
    /// `pw-hash`
    PwHash,
    /// `password-metrics`
    PasswordMetrics,
}

impl Personal {
    ghost use Rattle.ls_secret.specs.Personals.{personal_text};

    // The text.
    pub(crate) fn text(self) -> &'static [u8]
        ensures same { result.now ≡ personal_text self }
        ensures size { length result.now ≤ 128 }
    {
        match self {
            Personal::KeystorePassword => b"keystore-password",
            Personal::SpGkAuthentication => b"sp-gk-authentication",
            Personal::FbeKey => b"fbe-key",
            Personal::AuthsecretHal => b"authsecret-hal",
            Personal::PwHash => b"pw-hash",
            Personal::PasswordMetrics => b"password-metrics",
        }
    }
}
