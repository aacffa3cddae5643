//! What a protector consists of, by where it is and what it is for.
ghost use Rattle.std.specs.Prelude.{◌≡◌, ◌<◌, ◌++◌, ◌∷◌, [], if◌then◌else◌, false, is_some, IfOk, OnOk};
ghost use Rattle.ls_formats.specs.PartNames.{is_of_user, part_name_text};
ghost use Rattle.ls_formats.specs.declared.part.FilePart.TheVariants.{Weaver, Secdis};
ghost use Rattle.ls_naming.specs.Named.{only_if};
ghost use Rattle.ls_sealing.specs.Protectors.{credential, token, file_name, is_enrolled};
ghost use Rattle.ls_protector.specs.Parts.{protector_at, names_for, parts_of};

use ls_bytes::{Memory, Name, NameList};
use ls_credential::Kind;
use ls_formats::{FileName, FilePart, PartName, Parts};
use ls_naming::has_credential;
use ls_sealing::Place;
use std::alloc::Global;

/// The name of a protector's file.
fn name_of(alloc: Global, user: u32, id: u64, part: FilePart) -> Result<Name, Memory>
    requires id { 0 < id }
    requires part { is_of_user part ≡ false }
    ensures named { IfOk result
        (λ name. name ≡ part_name_text (record { user = user; id = id; part = part })) }
{
    let text = FileName::Protector(PartName { user, id, part }).print(alloc)?;
    // The text is a name: only memory can be wanting.
    match Name::of(alloc, text.as_slice()) {
        Ok(name) => Ok(name),
        Err(_) => Err(Memory),
    }
}

/// Adds the name of a protector's file, where it has it.
fn push_name(
    alloc: Global,
    names: &mut NameList,
    place: &Place,
    has: bool,
    part: FilePart,
) -> Result<(), Memory>
    requires id { 0 < place.now.id }
    requires part { is_of_user part ≡ false }
    ensures pushed { OnOk result (names.new ≡
        names.old ++ only_if has (file_name (protector_at place.now token) part ∷ [])) }
{
    if !has {
        return Ok(());
    }
    let name = name_of(alloc, place.user, place.id, part)?;
    names.push(name)
}

/// The part that keeps what stands behind a credential: a slot with Weaver, and a random file
/// without it.
fn kept_part(weaver: bool) -> FilePart
    ensures same { result ≡ (if weaver then Weaver else Secdis) }
    ensures of_protector { is_of_user result ≡ false }
{
    if weaver {
        FilePart::Weaver
    } else {
        FilePart::Secdis
    }
}

/// Adds the names of the files of a credential's protector.
fn push_credential(
    alloc: Global,
    names: &mut NameList,
    place: &Place,
    kind: Kind,
) -> Result<(), Memory>
    requires id { 0 < place.now.id }
    ensures pushed { OnOk result (names.new ≡ names.old
        ++ names_for (is_some place.now.slot) (protector_at place.now (credential kind))) }
{
    let some = has_credential(kind);
    let kept = kept_part(place.slot.is_some());
    push_name(alloc, names, place, true, FilePart::SpBlob)?;
    push_name(alloc, names, place, some, FilePart::Pwd)?;
    push_name(alloc, names, place, true, kept)?;
    push_name(alloc, names, place, some, FilePart::Metrics)
}

/// Adds the names of the files of a token's protector.
fn push_token(alloc: Global, names: &mut NameList, place: &Place) -> Result<(), Memory>
    requires id { 0 < place.now.id }
    ensures pushed { OnOk result (names.new ≡ names.old
        ++ names_for (is_some place.now.slot) (protector_at place.now token)) }
{
    let weaver = place.slot.is_some();
    push_name(alloc, names, place, true, FilePart::SpBlob)?;
    push_name(alloc, names, place, true, FilePart::Secdis)?;
    push_name(alloc, names, place, weaver, FilePart::Weaver)
}

/// Whether the Gatekeeper has a record of its id: without Weaver, where there is a credential.
pub(crate) fn is_enrolled(slot: Option<u32>, kind: Kind) -> bool
    ensures same { result ≡ is_enrolled (is_some slot) (credential kind) }
{
    slot.is_none() && has_credential(kind)
}

/// What the protector of a credential of this kind consists of.
pub fn parts_for_credential(alloc: Global, place: &Place, kind: Kind) -> Result<Parts, Memory>
    requires id { 0 < place.now.id }
    ensures same { IfOk result (λ parts. parts ≡ parts_of (is_some place.now.slot)
        (protector_at place.now (credential kind)) place.now.slot) }
{
    let gk = is_enrolled(place.slot, kind);
    let mut names = NameList::new(alloc);
    push_credential(alloc, &mut names, place, kind)?;
    Ok(Parts {
        user: place.user,
        id: place.id,
        slot: place.slot,
        gk,
        names,
    })
}

/// What the protector of a token consists of.
pub fn parts_for_token(alloc: Global, place: &Place) -> Result<Parts, Memory>
    requires id { 0 < place.now.id }
    ensures same { IfOk result (λ parts. parts ≡
        parts_of (is_some place.now.slot) (protector_at place.now token) place.now.slot) }
{
    let mut names = NameList::new(alloc);
    push_token(alloc, &mut names, place)?;
    Ok(Parts {
        user: place.user,
        id: place.id,
        slot: place.slot,
        gk: false,
        names,
    })
}
