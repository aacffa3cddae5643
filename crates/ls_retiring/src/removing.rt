//! The plan that removes the files of a protector.
ghost use Rattle.std.specs.Prelude.{◌≡◌, ◌<◌, ◌++◌, if◌then◌else◌, false, is_some, Some, None, IfOk, OnOk};
ghost use Rattle.ls_formats.specs.PartNames.{is_of_user};
ghost use Rattle.ls_formats.specs.declared.part.FilePart.TheVariants.{Weaver, Secdis};
ghost use Rattle.ls_naming.specs.Named.{credential_parts, token_parts};
ghost use Rattle.ls_sealing.specs.Building.{removes};
ghost use Rattle.ls_retiring.specs.Retiring.{protector_of, removing_of};

use crate::built::Built;
use crate::files::push_remove;
use ls_board::Plan;
use ls_bytes::Memory;
use ls_credential::Kind;
use ls_formats::{FilePart, PartName};
use ls_naming::has_credential;
use ls_sealing::Place;
use std::alloc::Global;

/// The name of a part of a protector.
fn part_name(place: Place, part: FilePart) -> PartName
    requires id { 0 < place.id }
    requires part { is_of_user part ≡ false }
    ensures named { result ≡ record { user = place.user; id = place.id; part = part } }
{
    PartName {
        user: place.user,
        id: place.id,
        part,
    }
}

/// The part that keeps what stands behind a credential: a slot with Weaver, and a random file
/// without it.
fn kept_part(weaver: bool) -> FilePart
    ensures same { result ≡ (if weaver then Weaver else Secdis) }
    ensures of_protector { is_of_user result ≡ false }
{
    if weaver {
        FilePart::Weaver
    } else {
        FilePart::Secdis
    }
}

/// Removes the files of a credential's protector.
fn push_credential(alloc: Global, plan: &mut Plan, place: &Place, kind: Kind) -> Result<(), Memory>
    requires id { 0 < place.now.id }
    ensures pushed { OnOk result (plan.new ≡ plan.old
        ++ removes (protector_of (record { place = place.now; kind = Some kind }))
        (credential_parts (is_some place.now.slot) kind)) }
{
    let some = has_credential(kind);
    let kept = kept_part(place.slot.is_some());
    push_remove(alloc, plan, true, &part_name(*place, FilePart::SpBlob))?;
    push_remove(alloc, plan, some, &part_name(*place, FilePart::Pwd))?;
    push_remove(alloc, plan, true, &part_name(*place, kept))?;
    push_remove(alloc, plan, some, &part_name(*place, FilePart::Metrics))
}

/// Removes the files of a token's protector.
fn push_token(alloc: Global, plan: &mut Plan, place: &Place) -> Result<(), Memory>
    requires id { 0 < place.now.id }
    ensures pushed { OnOk result (plan.new ≡ plan.old
        ++ removes (protector_of (record { place = place.now; kind = None }))
        (token_parts (is_some place.now.slot))) }
{
    let weaver = place.slot.is_some();
    push_remove(alloc, plan, true, &part_name(*place, FilePart::SpBlob))?;
    push_remove(alloc, plan, true, &part_name(*place, FilePart::Secdis))?;
    push_remove(alloc, plan, weaver, &part_name(*place, FilePart::Weaver))
}

/// The plan that removes the files of a protector, in their order, and nothing else.
pub fn remove_plan(alloc: Global, built: &Built) -> Result<Plan, Memory>
    requires id { 0 < built.now.place.id }
    ensures removes { IfOk result (λ plan. plan ≡ removing_of built.now) }
{
    let mut plan = Plan::new(alloc);
    match built.kind {
        None => push_token(alloc, &mut plan, &built.place)?,
        Some(kind) => push_credential(alloc, &mut plan, &built.place, kind)?,
    }
    Ok(plan)
}
