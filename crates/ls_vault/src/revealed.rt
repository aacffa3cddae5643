//! What is told of a user.
ghost use Rattle.std.specs.Prelude.{◌≡◌, ◌≤◌, length, IfOk};
ghost use Rattle.ls_vault.specs.Kinds.{is_empty, is_pin};
ghost use Rattle.ls_vault.specs.Revealed.{shown_metrics, revealed, all_revealed, shown_length};

use crate::user::User;
use crate::users::user_of;
use ls_bytes::{Memory, Rows};
use ls_credential::{Credential, Kind, Metrics};
use ls_script::{Revealed, RevealedList};
use std::alloc::Global;

/// Whether the kind is that of no credential.
pub(crate) fn is_empty(kind: Kind) -> bool
    ensures same { result ≡ is_empty kind }
{
    match kind {
        Kind::Empty => true,
        Kind::Pattern | Kind::Pin | Kind::Password => false,
    }
}

fn is_pin(kind: Kind) -> bool
    ensures same { result ≡ is_pin kind }
{
    match kind {
        Kind::Pin => true,
        Kind::Empty | Kind::Pattern | Kind::Password => false,
    }
}

/// What is counted of a credential, None where there is none.
fn shown_metrics(credential: &Credential) -> Option<Metrics>
    ensures same { result ≡ shown_metrics credential.now }
{
    if is_empty(credential.kind) {
        None
    } else {
        Some(credential.metrics())
    }
}

/// What an unlock reveals of a user with these metrics.
fn revealed_with(user: &User, metrics: Option<Metrics>) -> Revealed
    requires metrics { metrics ≡ shown_metrics user.now.credential }
    ensures same { result ≡ revealed user.now }
{
    Revealed {
        user: user.number,
        derived: user.secret.derived(),
        secure: user.secure,
        metrics,
    }
}

/// What an unlock reveals of a user.
pub(crate) fn revealed(user: &User) -> Revealed
    ensures same { result ≡ revealed user.now }
{
    revealed_with(user, shown_metrics(&user.credential))
}

/// The same of each of these users.
pub(crate) fn all_revealed(
    alloc: Global,
    users: &[User],
    numbers: &[u32],
) -> Result<RevealedList, Memory>
    ensures same { IfOk result (λ rows. rows ≡ all_revealed users.now numbers.now) }
{
    let mut rows = Rows::new(alloc);
    for n in numbers {
        if let Some(user) = user_of(users, *n) {
            let metrics = shown_metrics(&user.credential);
            rows.push(revealed_with(user, metrics))?;
        }
    }
    Ok(rows)
}

/// The length of the PIN that the lock screen knows, 0 for none.
pub(crate) fn shown_length(user: &User) -> u8
    ensures same { result ≡ shown_length user.now }
{
    let metrics = user.credential.metrics();
    let length = metrics.length;
    if user.auto && is_pin(user.credential.kind) && length >= 6 {
        length
    } else {
        0
    }
}
