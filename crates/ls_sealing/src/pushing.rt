//! The actions that write a protector, pushed one after another.
ghost use Rattle.std.specs.Prelude.{◌≡◌, ◌≤◌, ◌<◌, ◌+◌, ◌++◌, ◌∷◌, [], false, length, IfOk, OnOk};
ghost use Rattle.ls_blob.specs.Kinds.{content_size};
ghost use Rattle.ls_formats.specs.PartNames.{part_name_text, is_of_user};
ghost use Rattle.ls_board.specs.declared.action.Action.TheVariants.{GkEnroll};
ghost use Rattle.ls_naming.specs.Named.{only_if};
ghost use Rattle.ls_sealing.specs.Building.{blob_bytes, slot_writes};
ghost use Rattle.ls_sealing.specs.Pushing.{part_put, device_writes, share_put};

use ls_blob::{BlobKind, SpBlob};
use ls_board::{Action, Plan};
use ls_bytes::{Bytes, Memory, Name};
use ls_formats::{FileName, FilePart, PartName, SlotFile};
use std::alloc::Global;

/// Where a new protector is built.
#[derive(Clone, Copy, Debug, PartialEq, Eq)]
pub struct Place {
    pub user: u32,
    /// Its id, which isn't 0.
    pub id: u64,
    /// Its slot, where the board has Weaver.
    pub slot: Option<u32>,
}

/// The name of a protector's file.
fn part_name(alloc: Global, user: u32, id: u64, part: FilePart) -> Result<Name, Memory>
    requires id { 0 < id }
    requires part { is_of_user part ≡ false }
    ensures named { IfOk result
        (λ name. name ≡ part_name_text (record { user = user; id = id; part = part })) }
{
    let text = FileName::Protector(PartName { user, id, part }).print(alloc)?;
    // The text is a name: only memory can be wanting.
    match Name::of(alloc, text.as_slice()) {
        Ok(name) => Ok(name),
        Err(_) => Err(Memory),
    }
}

/// Puts the file of a part.
pub(crate) fn push_part(
    alloc: Global,
    plan: &mut Plan,
    place: &Place,
    part: FilePart,
    bytes: Bytes,
) -> Result<(), Memory>
    requires id { 0 < place.now.id }
    requires part { is_of_user part ≡ false }
    ensures pushed { OnOk result
        (plan.new ≡ plan.old ++ part_put place.now.user place.now.id part bytes ∷ []) }
{
    let name = part_name(alloc, place.user, place.id, part)?;
    plan.push(Action::Put { name, bytes })
}

/// Writes the key, the Gatekeeper's record and the slot.
pub(crate) fn push_devices(
    plan: &mut Plan,
    place: &Place,
    enrolled: bool,
    key: [u8; 32],
    slot_key: [u8; 16],
    value: [u8; 16],
) -> Result<(), Memory>
    ensures pushed { OnOk result (plan.new ≡
        plan.old ++ device_writes place.now.id enrolled place.now.slot key slot_key value) }
{
    let id = place.id;
    plan.push(Action::KeyPut { alias: id, key })?;
    push_record(plan, id, enrolled)?;
    push_slot(plan, place.slot, slot_key, value)
}

/// Enrols the id with the Gatekeeper, where it is to have a record.
fn push_record(plan: &mut Plan, id: u64, enrolled: bool) -> Result<(), Memory>
    ensures pushed { OnOk result
        (plan.new ≡ plan.old ++ only_if enrolled (GkEnroll id ∷ [])) }
{
    if !enrolled {
        return Ok(());
    }
    plan.push(Action::GkEnroll { sid: id })
}

/// Writes the slot, where there is one.
fn push_slot(
    plan: &mut Plan,
    slot: Option<u32>,
    key: [u8; 16],
    value: [u8; 16],
) -> Result<(), Memory>
    ensures pushed { OnOk result (plan.new ≡ plan.old ++ slot_writes slot key value) }
{
    match slot {
        None => Ok(()),
        Some(slot) => plan.push(Action::WeaverWrite { slot, key, value }),
    }
}

/// Puts the file that names the slot, or without Weaver the discardable bytes.
pub(crate) fn push_share(
    alloc: Global,
    plan: &mut Plan,
    place: &Place,
    discardable: &[u8],
) -> Result<(), Memory>
    requires id { 0 < place.now.id }
    ensures pushed { OnOk result (plan.new ≡ plan.old
        ++ share_put place.now.user place.now.id place.now.slot discardable.now ∷ []) }
{
    match place.slot {
        None => {
            let bytes = Bytes::of(alloc, discardable)?;
            push_part(alloc, plan, place, FilePart::Secdis, bytes)
        }
        Some(slot) => {
            let bytes = SlotFile { slot }.print(alloc)?;
            push_part(alloc, plan, place, FilePart::Weaver, bytes)
        }
    }
}

/// The file of a blob.
pub(crate) fn blob_file(
    alloc: Global,
    version: u8,
    kind: BlobKind,
    content: Bytes,
) -> Result<Bytes, Memory>
    requires known { (2 ≤ version) × (version ≤ 3) }
    requires sized { length content ≡ content_size kind }
    ensures spelled { IfOk result (λ bytes. bytes ≡ blob_bytes version kind content) }
{
    SpBlob {
        version,
        kind,
        content,
    }
    .print(alloc)
}
