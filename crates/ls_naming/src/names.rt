//! Whether a record names a file, a key or a Gatekeeper record.
ghost use Rattle.std.specs.Prelude.{◌≡◌, ◌==◌, ◌&&◌, is_some, MatchBool};
ghost use Rattle.std.specs.List.{list_any};
ghost use Rattle.ls_record.specs.Rows.{has};
ghost use Rattle.ls_naming.specs.Named.{NamesFile, NamesKey, NamesEnrolled};
ghost use Rattle.ls_naming.specs.Membership.{part_number, same_part, is_user_part, is_credential_part};
ghost use Rattle.ls_naming.specs.Membership.{is_token_part, has_file, row_names, has_key, has_enrolled};
ghost use Rattle.ls_naming.specs.Membership.{file_is_named, key_is_named, enrolled_is_named};

use crate::rows::{has_credential, has_secure, is_armed, kept_part};
use ls_arming::Arming;
use ls_credential::Kind;
use ls_formats::{FilePart, PartName};
use ls_record::{Record, UserRow};

fn has(ids: &[u64], id: u64) -> bool
    ensures same { result ≡ has ids.now id }
{
    ids.iter().any(|i| *i == id)
}

// ---- parts

fn part_number(part: FilePart) -> u8
    ensures same { result ≡ part_number part }
{
    match part {
        FilePart::SpBlob => 0,
        FilePart::Pwd => 1,
        FilePart::Secdis => 2,
        FilePart::Weaver => 3,
        FilePart::Metrics => 4,
        FilePart::Handle => 5,
        FilePart::E0 => 6,
        FilePart::P1 => 7,
        FilePart::Resume => 8,
    }
}

fn same_part(a: FilePart, b: FilePart) -> bool
    ensures same { result ≡ same_part a b }
{
    part_number(a) == part_number(b)
}

fn is_user_part(armed: &Option<Arming>, row: &UserRow, part: FilePart) -> bool
    ensures same { result ≡ is_user_part armed.now row.now part }
{
    (has_secure(row) && same_part(FilePart::Handle, part))
        || ((row.escrow && (same_part(FilePart::E0, part) || same_part(FilePart::P1, part)))
            || (is_armed(armed, row.user) && same_part(FilePart::Resume, part)))
}

fn is_credential_part(weaver: bool, kind: Kind, part: FilePart) -> bool
    ensures same { result ≡ is_credential_part weaver kind part }
{
    let some = has_credential(kind);
    same_part(FilePart::SpBlob, part)
        || ((some && same_part(FilePart::Pwd, part))
            || (same_part(kept_part(weaver), part) || (some && same_part(FilePart::Metrics, part))))
}

fn is_token_part(weaver: bool, part: FilePart) -> bool
    ensures same { result ≡ is_token_part weaver part }
{
    same_part(FilePart::SpBlob, part)
        || (same_part(FilePart::Secdis, part) || (weaver && same_part(FilePart::Weaver, part)))
}

// ---- rows

/// Whether the row of a file's user names the part with this id.
fn has_file(weaver: bool, armed: &Option<Arming>, row: &UserRow, id: u64, part: FilePart) -> bool
    ensures same { result ≡ has_file weaver armed.now row.now id part }
{
    (0 == id && is_user_part(armed, row, part))
        || ((row.protector == id && is_credential_part(weaver, row.kind, part))
            || (has(row.tokens.as_slice(), id) && is_token_part(weaver, part)))
}

fn row_names(weaver: bool, armed: &Option<Arming>, row: &UserRow, name: &PartName) -> bool
    ensures same { result ≡ row_names weaver armed.now row.now name.now }
{
    row.user == name.user && has_file(weaver, armed, row, name.id, name.part)
}

fn has_key(row: &UserRow, alias: u64) -> bool
    ensures same { result ≡ has_key row.now alias }
{
    row.protector == alias || has(row.tokens.as_slice(), alias)
}

fn has_enrolled(weaver: bool, row: &UserRow, id: u64) -> bool
    ensures same { result ≡ has_enrolled weaver row.now id }
{
    (has_secure(row) && row.secure == id)
        || ((!weaver && has_credential(row.kind)) && row.protector == id)
}

// ---- records

fn file_is_named(holder: &Record, weaver: bool, name: &PartName) -> bool
    ensures same { result ≡ file_is_named weaver holder.now name.now }
{
    let armed = &holder.armed;
    holder
        .users
        .as_slice()
        .iter()
        .any(|row| row_names(weaver, armed, row, name))
}

fn some_row_has_key(rows: &[UserRow], alias: u64) -> bool
    ensures same { result ≡ list_any (λ row. has_key row alias) rows.now }
{
    rows.iter().any(|row| has_key(row, alias))
}

/// Whether it is the alias of the key of an arming, and there is one.
fn is_key_of_arming(armed: &Option<Arming>, alias: u64) -> bool
    ensures same { result ≡ (is_some armed.now && (0 == alias)) }
{
    armed.is_some() && 0 == alias
}

fn key_is_named(holder: &Record, alias: u64) -> bool
    ensures same { result ≡ key_is_named holder.now alias }
{
    some_row_has_key(holder.users.as_slice(), alias) || is_key_of_arming(&holder.armed, alias)
}

fn enrolled_is_named(holder: &Record, weaver: bool, id: u64) -> bool
    ensures same { result ≡ enrolled_is_named weaver holder.now id }
{
    holder
        .users
        .as_slice()
        .iter()
        .any(|row| has_enrolled(weaver, row, id))
}

/// Whether the record names a file, on a board with Weaver or on one without it.
pub fn names_file(holder: &Record, weaver: bool, name: &PartName) -> bool
    ensures named { MatchBool result (NamesFile weaver holder.now name.now)
        (¬ NamesFile weaver holder.now name.now) }
{
    file_is_named(holder, weaver, name)
}

/// Whether the record names the key of an alias.
pub fn names_key(holder: &Record, alias: u64) -> bool
    ensures named { MatchBool result (NamesKey holder.now alias) (¬ NamesKey holder.now alias) }
{
    key_is_named(holder, alias)
}

/// Whether the record names a Gatekeeper record, on a board with Weaver or on one without it.
pub fn names_enrolled(holder: &Record, weaver: bool, id: u64) -> bool
    ensures named { MatchBool result (NamesEnrolled weaver holder.now id)
        (¬ NamesEnrolled weaver holder.now id) }
{
    enrolled_is_named(holder, weaver, id)
}
