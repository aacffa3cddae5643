//! Whether a world keeps no file that its record doesn't name, and no other than the start.
ghost use Rattle.std.specs.Prelude.{◌≡◌, ◌↔◌, ℕ, List, None, IsTrue, MatchBool};
ghost use Rattle.std.specs.List.{Contains};
ghost use Rattle.ls_board.specs.Effect.{file_at};
ghost use Rattle.ls_checker.specs.BareRows.{HasKeyAt, IsLeftover, MayStay, IsLeft};
ghost use Rattle.ls_formats.specs.FileNames.{IsFileName};
ghost use Rattle.ls_formats.specs.PartNames.{PartOf, IsPartOf, part_name_text};
ghost use Rattle.ls_naming.specs.Named.{NamesFile};
ghost use Rattle.ls_sealing.specs.Protectors.{has_weaver};
ghost use Rattle.ls_standing.specs.Bare.{IsStrange};

use crate::number::same_bytes;
use crate::quiet::has_weaver;
use ls_board::{FileTable, World};
use ls_bytes::Name;
use ls_formats::FileName;
use ls_naming::names_file;
use ls_record::Record;

// ---- the files of users and protectors

fn is_name(a: &Name, name: &[u8]) -> bool
    ensures same { IsTrue result ↔ (a.now ≡ name.now) }
{
    same_bytes(a.as_slice(), name)
}

/// Whether the name is one of these.
fn is_one_of(names: &[Name], name: &[u8]) -> bool
    ensures found { MatchBool result (Contains names.now name.now)
        (¬ Contains names.now name.now) }
{
    names.iter().any(|other| is_name(other, name))
}

/// Whether a file of this name may be there: the record names it, or it is retired.
fn may_stay(world: &World, holder: &Record, retired: &[Name], name: &FileName, text: &[u8]) -> bool
    requires { IsFileName name.now }
    ensures decided { IsTrue result
        ↔ MayStay world.now holder.now retired.now text.now name.now }
{
    match name {
        FileName::Settings(_) => true,
        FileName::Protector(name) => {
            names_file(holder, has_weaver(world), name) || is_one_of(retired, text)
        }
    }
}

/// Whether it isn't the name of a file that has to be gone.
fn is_no_leftover(world: &World, holder: &Record, retired: &[Name], text: &[u8]) -> bool
    ensures decided { IsTrue result
        ↔ (¬ IsLeftover world.now holder.now retired.now text.now) }
{
    match FileName::parse(text) {
        Ok(name) => may_stay(world, holder, retired, &name, text),
        Err(_) => true,
    }
}

/// Whether the row at this place, if there is one, may be there.
fn keeps_row(world: &World, holder: &Record, retired: &[Name], at: u32) -> bool
    ensures decided { IsTrue result ↔ HasKeyAt
        (λ n. ¬ IsLeftover world.now holder.now retired.now n) world.now.files at }
{
    match world.files.get(at) {
        None => true,
        Some(row) => is_no_leftover(world, holder, retired, row.name.as_slice()),
    }
}

/// Whether each file of a user or a protector is one that the record names, or is retired.
pub(crate) fn keeps_known_files(world: &World, holder: &Record, retired: &[Name]) -> bool
    ensures decided { IsTrue result ↔ ((name : PartOf) → IsPartOf name
        → (¬ NamesFile (has_weaver world.now) holder.now name) → (¬ Contains retired.now (part_name_text name))
        → file_at world.now (part_name_text name) ≡ None) }
{
    for at in 0..world.files.len() {
        if !keeps_row(world, holder, retired, at) {
            return false;
        }
    }
    true
}

// ---- the files of others

/// Whether it is the name of no file of the service.
fn is_strange(name: &[u8]) -> bool
    ensures decided { IsTrue result ↔ IsStrange name.now }
{
    FileName::parse(name).is_err()
}

/// Whether a file is in both worlds with the same bytes, or in none.
fn is_same_file(start: &World, world: &World, name: &[u8]) -> bool
    ensures decided { IsTrue result ↔ (file_at world.now name.now ≡ file_at start.now name.now) }
{
    match (world.files.content(name), start.files.content(name)) {
        (None, None) => true,
        (Some(now), Some(then)) => same_bytes(now, then),
        (None, Some(_)) | (Some(_), None) => false,
    }
}

/// Whether the file of this name is as at the start, if it is none of the service.
fn is_left(start: &World, world: &World, name: &[u8]) -> bool
    ensures decided { IsTrue result ↔ IsLeft start.now world.now name.now }
{
    !is_strange(name) || is_same_file(start, world, name)
}

/// The same of the file at this place of a table, if there is one.
fn leaves_row(start: &World, world: &World, files: &FileTable, at: u32) -> bool
    ensures decided { IsTrue result
        ↔ HasKeyAt (λ n. IsLeft start.now world.now n) files.now at }
{
    match files.get(at) {
        None => true,
        Some(row) => is_left(start, world, row.name.as_slice()),
    }
}

/// The same of all files of a table.
fn leaves_table(start: &World, world: &World, files: &FileTable) -> bool
    ensures decided { IsTrue result
        ↔ ((at : ℕ) → HasKeyAt (λ n. IsLeft start.now world.now n) files.now at) }
{
    for at in 0..files.len() {
        if !leaves_row(start, world, files, at) {
            return false;
        }
    }
    true
}

/// Whether each file that is none of the service is as at the start.
pub(crate) fn leaves_strange_files(start: &World, world: &World) -> bool
    ensures decided { IsTrue result
        ↔ ((n : List ℕ) → IsStrange n → file_at world.now n ≡ file_at start.now n) }
{
    leaves_table(start, world, &world.files) && leaves_table(start, world, &start.files)
}
