//! The two settings files.
ghost use Rattle.std.specs.Prelude.{◌≡◌};

/// One of the two settings files.
#[derive(Clone, Copy, Debug, PartialEq, Eq)]
pub enum Side {
    /// `settings.0`
    First,
    /// `settings.1`
    Second,
}

impl Side {
    ghost use Rattle.ls_bytes.specs.Names.{IsName};
    ghost use Rattle.ls_formats.specs.PartNames.{settings_text};

    /// The name of the file.
    pub fn file_name(self) -> &'static [u8]
        ensures text { result.now ≡ settings_text self }
        ensures is_name { IsName result.now }
    {
        match self {
            Side::First => b"settings.0",
            Side::Second => b"settings.1",
        }
    }
}
