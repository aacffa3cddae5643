//! Kinds of credentials as bytes.
ghost use Rattle.std.specs.Prelude.{◌≡◌, unwrap_or};
ghost use Rattle.ls_credential.specs.Codes.{kind_of};
ghost use Rattle.ls_credential.specs.declared.kind.Kind.TheVariants.{Empty};

use ls_credential::Kind;

/// The kind that is stored as this byte; none where there is no such kind.
pub(crate) fn stored_kind(b: u8) -> Kind
    ensures same { result ≡ unwrap_or (kind_of b) Empty }
{
    Kind::of_code(b).unwrap_or(Kind::Empty)
}
