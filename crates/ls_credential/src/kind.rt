//! The kinds of a credential, and the numbers that they are stored as.

/// The kind of a credential.
#[derive(Clone, Copy, Debug, PartialEq, Eq)]
pub enum Kind {
    /// No credential: its text is empty.
    Empty,
    /// 4 to 9 distinct cells of a square of nine, `1` to `9`.
    Pattern,
    /// 4 to 16 digits.
    Pin,
    /// 4 to 16 bytes of 0x21 to 0x7e.
    Password,
}

impl Kind {
    ghost use Rattle.std.specs.Prelude.{◌≡◌, ◌↔◌, Some};
    ghost use Rattle.ls_credential.specs.declared.kind.Kind.{Kind as Kinds};
    ghost use Rattle.ls_credential.specs.Codes.{code_of, kind_of};

    /// The number that the kind is stored as: 0, 1, 3 or 4.
    pub fn code(self) -> u8
        ensures same { result ≡ code_of self }
    {
        match self {
            Kind::Empty => 0,
            Kind::Pattern => 1,
            Kind::Pin => 3,
            Kind::Password => 4,
        }
    }

    /// The kind that is stored as this number.
    pub fn of_code(code: u8) -> Option<Kind>
        ensures same { result ≡ kind_of code }
        ensures exact { (k : Kinds) → (result ≡ Some k) ↔ (code_of k ≡ code) }
    {
        match code {
            0 => Some(Kind::Empty),
            1 => Some(Kind::Pattern),
            3 => Some(Kind::Pin),
            4 => Some(Kind::Password),
            _ => None,
        }
    }
}
