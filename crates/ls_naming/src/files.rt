//! The names of the files that a row names.
ghost use Rattle.std.specs.Prelude.{◌≡◌, ◌==◌, ◌++◌, ◌∷◌, [], false, IfOk, OnOk};
ghost use Rattle.std.specs.List.{flat_map, AllByRecursion};
ghost use Rattle.ls_formats.specs.PartNames.{is_of_user};
ghost use Rattle.ls_record.specs.Rows.{IsRow};
ghost use Rattle.ls_naming.specs.Named.{only_if, user_parts, credential_parts, token_parts, parts_of, row_files};

use crate::rows::{has_credential, has_secure, is_armed, kept_part};
use ls_arming::Arming;
use ls_bytes::{Memory, Rows};
use ls_formats::{FilePart, PartName};
use ls_record::UserRow;
use std::alloc::Global;

/// Names of files, in order.
pub type PartNames = Rows<PartName>;

/// Adds a name at the end, where the test holds.
fn add_if(
    names: &mut PartNames,
    test: bool,
    user: u32,
    id: u64,
    part: FilePart,
) -> Result<(), Memory>
    requires { (id == 0) ≡ is_of_user part }
    ensures added { OnOk result (names.new ≡ names.old
        ++ only_if test (record { user = user; id = id; part = part } ∷ [])) }
{
    if test {
        names.push(PartName { user, id, part })?;
    }
    Ok(())
}

/// Adds the files of a user itself.
fn add_user_files(
    names: &mut PartNames,
    armed: &Option<Arming>,
    row: &UserRow,
) -> Result<(), Memory>
    ensures added { OnOk result (names.new
        ≡ names.old ++ parts_of row.now.user 0 (user_parts armed.now row.now)) }
{
    let user = row.user;
    add_if(names, has_secure(row), user, 0, FilePart::Handle)?;
    add_if(names, row.escrow, user, 0, FilePart::E0)?;
    add_if(names, row.escrow, user, 0, FilePart::P1)?;
    add_if(names, is_armed(armed, user), user, 0, FilePart::Resume)
}

/// Adds the files of a credential's protector.
fn add_credential_files(names: &mut PartNames, weaver: bool, row: &UserRow) -> Result<(), Memory>
    requires { (row.now.protector == 0) ≡ false }
    ensures added { OnOk result (names.new ≡ names.old
        ++ parts_of row.now.user row.now.protector (credential_parts weaver row.now.kind)) }
{
    let user = row.user;
    let id = row.protector;
    let some = has_credential(row.kind);
    add_if(names, true, user, id, FilePart::SpBlob)?;
    add_if(names, some, user, id, FilePart::Pwd)?;
    add_if(names, true, user, id, kept_part(weaver))?;
    add_if(names, some, user, id, FilePart::Metrics)
}

/// Adds the files of a token's protector.
fn add_token_files(names: &mut PartNames, weaver: bool, user: u32, id: u64) -> Result<(), Memory>
    requires { (id == 0) ≡ false }
    ensures added { OnOk result (names.new
        ≡ names.old ++ parts_of user id (token_parts weaver)) }
{
    add_if(names, true, user, id, FilePart::SpBlob)?;
    add_if(names, true, user, id, FilePart::Secdis)?;
    add_if(names, weaver, user, id, FilePart::Weaver)
}

/// Adds the files of these tokens.
fn add_all_token_files(
    names: &mut PartNames,
    weaver: bool,
    user: u32,
    ids: &[u64],
) -> Result<(), Memory>
    requires { AllByRecursion (λ id. (id == 0) ≡ false) ids.now }
    ensures added { OnOk result (names.new ≡ names.old
        ++ flat_map (λ id. parts_of user id (token_parts weaver)) ids.now) }
{
    match ids {
        [] => Ok(()),
        [id, rest @ ..] => {
            add_token_files(names, weaver, user, *id)?;
            add_all_token_files(names, weaver, user, rest)
        }
    }
}

/// The names of the files that a row names, on a board with Weaver or on one without it: those of
/// the user, of the credential, and of the tokens in order.
pub fn row_files(
    alloc: Global,
    weaver: bool,
    armed: &Option<Arming>,
    row: &UserRow,
) -> Result<PartNames, Memory>
    requires { IsRow row.now }
    ensures same { IfOk result (λ names. names ≡ row_files weaver armed.now row.now) }
{
    let mut names = PartNames::new(alloc);
    add_user_files(&mut names, armed, row)?;
    add_credential_files(&mut names, weaver, row)?;
    add_all_token_files(&mut names, weaver, row.user, row.tokens.as_slice())?;
    Ok(names)
}
