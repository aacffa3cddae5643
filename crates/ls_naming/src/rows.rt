//! What a row of a record says of its user.
ghost use Rattle.std.specs.Prelude.{◌≡◌, if◌then◌else◌, false};
ghost use Rattle.ls_formats.specs.PartNames.{is_of_user};
ghost use Rattle.ls_formats.specs.declared.part.FilePart.TheVariants.{Weaver, Secdis};
ghost use Rattle.ls_record.specs.Rows.{has};
ghost use Rattle.ls_naming.specs.Named.{is_armed, has_credential, has_secure};

use ls_arming::Arming;
use ls_credential::Kind;
use ls_formats::FilePart;
use ls_record::UserRow;

fn has_user(users: &[u32], user: u32) -> bool
    ensures same { result ≡ has users.now user }
{
    users.iter().any(|u| *u == user)
}

/// Whether there is an arming, and the user is one of its users.
pub fn is_armed(armed: &Option<Arming>, user: u32) -> bool
    ensures same { result ≡ is_armed armed.now user }
{
    match armed {
        None => false,
        Some(armed) => has_user(armed.users.as_slice(), user),
    }
}

/// Whether the user has a secure id: 0 stands for none.
pub fn has_secure(row: &UserRow) -> bool
    ensures same { result ≡ has_secure row.now }
{
    row.secure != 0
}

/// Whether a user of this kind has a credential.
pub fn has_credential(kind: Kind) -> bool
    ensures same { result ≡ has_credential kind }
{
    match kind {
        Kind::Empty => false,
        Kind::Pattern | Kind::Pin | Kind::Password => true,
    }
}

/// The part that keeps what stands behind a credential: a slot with Weaver, and a random file
/// without it.
pub(crate) fn kept_part(weaver: bool) -> FilePart
    ensures same { result ≡ (if weaver then Weaver else Secdis) }
    ensures of_protector { is_of_user result ≡ false }
{
    if weaver {
        FilePart::Weaver
    } else {
        FilePart::Secdis
    }
}
