//! The files that a board lists and that its record doesn't name.
ghost use Rattle.std.specs.Prelude.{◌≡◌, ◌↔◌, ◌++◌, ◌∷◌, [], IsTrue, MatchBool, IfOk, OnOk};
ghost use Rattle.std.specs.List.{Contains};
ghost use Rattle.ls_naming.specs.Named.{only_if};
ghost use Rattle.ls_sweep.specs.Files.{IsUnnamedFile, IsPartNamed, part_in};
ghost use Rattle.ls_sweep.specs.Sifted.{AreThose};

use ls_bytes::{Memory, Name, NameList};
use ls_formats::{FileName, PartName};
use ls_naming::names_file;
use ls_record::Record;
use std::alloc::Global;

fn is_name(a: &Name, name: &Name) -> bool
    ensures same { IsTrue result ↔ (a.now ≡ name.now) }
{
    a.as_slice() == name.as_slice()
}

/// Whether the name is one of these.
fn is_one_of(names: &[Name], name: &Name) -> bool
    ensures found { MatchBool result (Contains names.now name.now)
        (¬ Contains names.now name.now) }
{
    names.iter().any(|other| is_name(other, name))
}

/// The file of a user or a protector, if it is one.
fn part_in(name: FileName) -> Option<PartName>
    ensures same { result ≡ part_in name }
{
    match name {
        FileName::Settings(_) => None,
        FileName::Protector(part) => Some(part),
    }
}

/// The file of a user or a protector that a name names, if it names one.
fn part_of(name: &Name) -> Option<PartName>
    ensures named { IsPartNamed name.now result }
{
    match FileName::parse(name.as_slice()) {
        Ok(file) => part_in(file),
        Err(_) => None,
    }
}

/// Whether it is the name of a file of a user or a protector that the record doesn't name and that
/// isn't retired.
fn is_unnamed_file(holder: &Record, weaver: bool, retired: &[Name], name: &Name) -> bool
    ensures decided { MatchBool result
        (IsUnnamedFile weaver holder.now retired.now name.now)
        (¬ IsUnnamedFile weaver holder.now retired.now name.now) }
{
    match part_of(name) {
        None => false,
        Some(part) => !names_file(holder, weaver, &part) && !is_one_of(retired, name),
    }
}

/// Adds a copy of a name at the end, where it is to be there.
fn push_name(alloc: Global, left: &mut NameList, is_left: bool, name: &Name) -> Result<(), Memory>
    ensures pushed { OnOk result (left.new ≡ left.old ++ only_if is_left (name.now ∷ [])) }
{
    if !is_left {
        return Ok(());
    }
    match Name::of(alloc, name.as_slice()) {
        Ok(copy) => left.push(copy),
        Err(_) => Err(Memory),
    }
}

/// Those of these names that are names of files of users or protectors, that the record doesn't
/// name, on a board with Weaver or on one without it, and that aren't retired. Settings files and
/// names that are none of the service's are never among them.
pub fn unnamed_files(
    alloc: Global,
    holder: &Record,
    weaver: bool,
    retired: &[Name],
    names: &[Name],
) -> Result<NameList, Memory>
    ensures those { IfOk result
        (AreThose (IsUnnamedFile weaver holder.now retired.now) names.now) }
{
    let mut left = NameList::new(alloc);
    for name in names {
        let is_left = is_unnamed_file(holder, weaver, retired, name);
        push_name(alloc, &mut left, is_left, name)?;
    }
    Ok(left)
}
