//! The actions of commits and of loading.
ghost use Rattle.std.specs.Prelude.{◌≡◌, ◌≤◌, ◌<◌, ◌+◌, ◌^◌, ◌++◌, ◌∷◌, [], length, IfOk, OnOk};
ghost use Rattle.ls_formats.specs.PartNames.{settings_text};
ghost use Rattle.ls_board.specs.Planned.{IsPlanned};
ghost use Rattle.ls_settings.specs.Commits.{synced, whole_bytes, entry_pokes, whole_pokes};

use ls_board::{Action, Plan};
use ls_bytes::{Bytes, Memory, Name, put_be32, put_be64, put_bytes, put_u8};
use ls_formats::Side;
use std::alloc::Global;

/// The byte of an open gate.
pub(crate) const OPEN: u8 = 0xa5;

/// The length of a settings file.
pub(crate) const FILE_LENGTH: u32 = 4096;

/// The name of a settings file.
pub(crate) fn settings_name(alloc: Global, side: Side) -> Result<Name, Memory>
    ensures name { IfOk result (λ name. name ≡ settings_text side) }
{
    match Name::of(alloc, side.file_name()) {
        Ok(name) => Ok(name),
        Err(_) => Err(Memory),
    }
}

/// Writes these bytes over others.
fn poke(alloc: Global, side: Side, at: u32, bytes: &[u8]) -> Result<Action, Memory>
    ensures pokes { IfOk result (λ a. a ≡ Action.Poke (settings_text side) at bytes.now) }
{
    Ok(Action::Poke {
        name: settings_name(alloc, side)?,
        at,
        bytes: Bytes::of(alloc, bytes)?,
    })
}

/// Adds an action that is on the disk before the next begins.
pub(crate) fn push_synced(plan: &mut Plan, action: Action) -> Result<(), Memory>
    requires planned { IsPlanned action }
    ensures pushed { OnOk result (plan.new ≡ plan.old ++ action ∷ Action.Sync ∷ []) }
{
    plan.push(action)?;
    plan.push(Action::Sync)
}

/// Adds the writing of some bytes behind a gate, and then of the gate.
fn push_opened(
    alloc: Global,
    plan: &mut Plan,
    side: Side,
    at: u32,
    bytes: &[u8],
) -> Result<(), Memory>
    requires small { at + 1 < 2 ^ 32 }
    ensures pushed { OnOk result (plan.new ≡ plan.old
        ++ Action.Poke (settings_text side) (at + 1) bytes.now ∷ Action.Sync
        ∷ Action.Poke (settings_text side) at (OPEN ∷ []) ∷ Action.Sync ∷ []) }
{
    push_synced(plan, poke(alloc, side, at + 1, bytes)?)?;
    push_synced(plan, poke(alloc, side, at, &[OPEN])?)
}

/// The actions of a commit by an entry.
pub(crate) fn entry_plan(alloc: Global, side: Side, at: u32, change: &[u8]) -> Result<Plan, Memory>
    requires fits { at + 6 + length change.now ≤ 4096 }
    ensures plan { IfOk result (λ p. p ≡ synced (entry_pokes side at change.now)) }
{
    let mut entry = Bytes::of(alloc, &[])?;
    put_be32(&mut entry, change.len() as u32)?;
    put_bytes(&mut entry, change)?;
    put_u8(&mut entry, 0)?;
    let mut plan = Plan::new(alloc);
    push_opened(alloc, &mut plan, side, at, entry.as_slice())?;
    Ok(plan)
}

/// What is written behind the gate of a file in whole.
fn whole_file(alloc: Global, sequence: u64, body: &[u8]) -> Result<Bytes, Memory>
    requires fits { 14 + length body.now ≤ 4096 }
    ensures bytes { IfOk result (λ bytes. bytes ≡ whole_bytes sequence body.now) }
{
    let mut bytes = Bytes::of(alloc, &[])?;
    put_be64(&mut bytes, sequence)?;
    put_be32(&mut bytes, (1 << 31) + body.len() as u32)?;
    put_bytes(&mut bytes, body)?;
    put_u8(&mut bytes, 0)?;
    Ok(bytes)
}

/// The actions of a commit in whole.
pub(crate) fn whole_plan(
    alloc: Global,
    side: Side,
    is_open: bool,
    sequence: u64,
    body: &[u8],
) -> Result<Plan, Memory>
    requires fits { 14 + length body.now ≤ 4096 }
    ensures plan { IfOk result (λ p. p ≡ synced (whole_pokes side is_open sequence body.now)) }
{
    let bytes = whole_file(alloc, sequence, body)?;
    let mut plan = Plan::new(alloc);
    if is_open {
        push_synced(&mut plan, poke(alloc, side, 0, &[0])?)?;
    }
    push_opened(alloc, &mut plan, side, 0, bytes.as_slice())?;
    Ok(plan)
}
