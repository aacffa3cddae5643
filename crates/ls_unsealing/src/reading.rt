//! What a world holds of a protector.
ghost use Rattle.std.specs.Prelude.{◌≡◌, ◌<◌, false, slice_get, IfOk};
ghost use Rattle.std.specs.Option.{option_and_then};
ghost use Rattle.ls_formats.specs.PartNames.{is_of_user, part_name_text};
ghost use Rattle.ls_board.specs.Gatekeeper.{record_at};
ghost use Rattle.ls_sealing.specs.Protectors.{has_weaver, has_part, is_enrolled, file_name};
ghost use Rattle.ls_sealing.specs.Protectors.{where_it_has, held_file, slot_number};
ghost use Rattle.ls_unsealing.specs.Purposes.{purpose_of, protector_of, has_text};

use crate::parts::{HeldParts, PartFiles};
use crate::protector::{Protector, Purpose};
use ls_board::{Counter, World};
use ls_bytes::{Bytes, Memory};
use ls_credential::Kind;
use ls_formats::{FileName, FilePart, PartName, SlotFile};
use ls_weaver::Slot;
use std::alloc::Global;

/// Whether a board with Weaver or without has a file of this part for the purpose.
fn has_part(weaver: bool, purpose: Purpose, part: FilePart) -> bool
    ensures same { result ≡ has_part weaver (purpose_of purpose) part }
{
    match part {
        FilePart::SpBlob => true,
        FilePart::Pwd | FilePart::Metrics => has_credential(purpose),
        FilePart::Secdis => !weaver || purpose == Purpose::Token,
        FilePart::Weaver => weaver,
        FilePart::Handle | FilePart::E0 | FilePart::P1 | FilePart::Resume => false,
    }
}

/// Whether it is for a credential that isn't none.
fn has_credential(purpose: Purpose) -> bool
    ensures same { result ≡ has_text (purpose_of purpose) }
{
    match purpose {
        Purpose::Credential(kind) => kind != Kind::Empty,
        Purpose::Token => false,
    }
}

/// The name of a protector's file.
fn part_name(alloc: Global, user: u32, id: u64, part: FilePart) -> Result<Bytes, Memory>
    requires id { 0 < id }
    requires part { is_of_user part ≡ false }
    ensures named { IfOk result
        (λ name. name ≡ part_name_text (record { user = user; id = id; part = part })) }
{
    FileName::Protector(PartName { user, id, part }).print(alloc)
}

/// The file of a part, where the protector has that part.
fn held_file(
    alloc: Global,
    world: &World,
    protector: &Protector,
    part: FilePart,
) -> Result<Option<Bytes>, Memory>
    requires id { 0 < protector.now.id }
    requires part { is_of_user part ≡ false }
    ensures same { IfOk result
        (λ file. file ≡ held_file world.now (protector_of protector.now) part) }
{
    if !has_part(world.slots.len() > 0, protector.purpose, part) {
        return Ok(None);
    }
    let name = part_name(alloc, protector.user, protector.id, part)?;
    match world.files.content(name.as_slice()) {
        None => Ok(None),
        Some(bytes) => Ok(Some(Bytes::of(alloc, bytes)?)),
    }
}

/// The slot that a `weaver` file names, where it is one and the board has that slot.
fn slot_of(world: &World, file: &Option<Bytes>) -> Option<Slot>
    ensures same { result
        ≡ option_and_then (slice_get world.now.slots) (option_and_then slot_number file.now) }
{
    let Some(file) = file else {
        return None;
    };
    match SlotFile::parse(file.as_slice()) {
        Ok(file) => world.slots.get(file.slot).copied(),
        Err(_) => None,
    }
}

/// The Gatekeeper's record of a protector's id, where it is to have one.
fn counter_of(world: &World, protector: &Protector) -> Option<Counter>
    ensures same { result ≡ where_it_has
        (is_enrolled (has_weaver world.now) (purpose_of protector.now.purpose))
        (record_at world.now.gk protector.now.id) }
{
    if world.slots.len() > 0 || !has_credential(protector.purpose) {
        return None;
    }
    world.gk.find(protector.id)
}

impl HeldParts {
    ghost use Rattle.ls_sealing.specs.Protectors.{held};
    ghost use Rattle.ls_unsealing.specs.Parts.{held_by};

    /// What a world holds of a protector, whose id isn't 0.
    pub fn of(alloc: Global, world: &World, protector: &Protector) -> Result<HeldParts, Memory>
        requires { 0 < protector.now.id }
        ensures held { IfOk result
            (λ parts. held_by parts ≡ held world.now (protector_of protector.now)) }
    {
        let files = PartFiles {
            spblob: held_file(alloc, world, protector, FilePart::SpBlob)?,
            pwd: held_file(alloc, world, protector, FilePart::Pwd)?,
            secdis: held_file(alloc, world, protector, FilePart::Secdis)?,
            weaver: held_file(alloc, world, protector, FilePart::Weaver)?,
            metrics: held_file(alloc, world, protector, FilePart::Metrics)?,
        };
        Ok(HeldParts {
            weaver: world.slots.len() > 0,
            slot: slot_of(world, &files.weaver),
            files,
            counter: counter_of(world, protector),
            device: world.gk_key,
            key: world.keys.find(protector.id),
        })
    }
}
