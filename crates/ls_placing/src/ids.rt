//! The id of a new protector of a credential.
ghost use Rattle.std.specs.Prelude.{◌≡◌, ◌≢◌, ◌≤◌, ◌++◌, true, ℕ, length, IfOk, OnOk};
ghost use Rattle.std.specs.List.{Contains};
ghost use Rattle.std.specs.Option.{option_map};
ghost use Rattle.ls_record.specs.Rows.{is_protector_id};
ghost use Rattle.ls_sweep.specs.Files.{part_in};
ghost use Rattle.ls_sweep.specs.FreshIds.{fresh_even};
ghost use Rattle.ls_turn.specs.Agreeing.{files_of};
ghost use Rattle.ls_vault.specs.Fresh.{drawn_number};
ghost use Rattle.ls_placing.specs.Placing.{AreTakenIds, SaysOne, id_list, ids_of};

use byteorder::{BigEndian, ByteOrder};
use ls_bytes::{IdList, Memory, Name};
use ls_formats::FileName;
use ls_protector::{Named, Retired};
use ls_sweep::fresh_protector_id;
use std::alloc::Global;

/// The id of a new protector of a credential, by the number in the first eight drawn bytes: the
/// number with its lowest bit cleared, or the first after it in steps of 2 that isn't 0 and isn't
/// taken.
pub fn protector_id(drawn: &[u8], taken: &IdList) -> u64
    requires drawn { 8 ≤ length drawn.now }
    ensures same { result ≡ fresh_even (drawn_number drawn.now) taken.now }
    ensures rule { is_protector_id result ≡ true }
    ensures free { (id : ℕ) → Contains taken.now id → id ≢ result }
{
    // There are fewer than 2^32, so one is found that isn't taken.
    let _few = taken.len();
    fresh_protector_id(BigEndian::read_u64(drawn), taken.as_slice())
}

/// The id of a protector, or 0 of a user, whose file it is; None of a settings file.
fn id_of(file: FileName) -> Option<u64>
    ensures same { result ≡ option_map (λ part. part.id) (part_in file) }
{
    match file {
        FileName::Settings(_) => None,
        FileName::Protector(part) => Some(part.id),
    }
}

/// The id that a name of a file says, if it says one.
pub fn id_in(name: &Name) -> Option<u64>
    ensures says { SaysOne name.now result }
{
    match FileName::parse(name.as_slice()) {
        Ok(file) => id_of(file),
        Err(_) => None,
    }
}

/// Adds an id at the end, where there is one.
fn push_id(ids: &mut IdList, id: Option<u64>) -> Result<(), Memory>
    ensures pushed { OnOk result (ids.new ≡ ids.old ++ id_list id) }
{
    match id {
        None => Ok(()),
        Some(id) => ids.push(id),
    }
}

/// Adds the ids that names of files say.
fn add_said(ids: &mut IdList, names: &[Name]) -> Result<(), Memory>
    ensures added { OnOk result (AreTakenIds names.now ids.old ids.new) }
{
    for name in names {
        push_id(ids, id_in(name))?;
    }
    Ok(())
}

/// The ids of protectors, in order.
fn ids_of(alloc: Global, named: &[Named]) -> Result<IdList, Memory>
    ensures same { IfOk result (λ ids. ids ≡ ids_of named.now) }
{
    let mut ids = IdList::new(alloc);
    for one in named {
        ids.push(one.parts().id)?;
    }
    Ok(ids)
}

/// The ids that a new protector of a credential can't have: those of the named ones, and those in
/// the names of the files that retired ones have left.
pub fn taken_ids(alloc: Global, named: &[Named], retired: &[Retired]) -> Result<IdList, Memory>
    ensures taken { IfOk result (AreTakenIds (files_of retired.now) (ids_of named.now)) }
{
    let mut taken = ids_of(alloc, named)?;
    for one in retired {
        add_said(&mut taken, one.parts().names.as_slice())?;
    }
    Ok(taken)
}
