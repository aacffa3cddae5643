//! The drafts of the protectors of several tokens.
ghost use Rattle.std.specs.Prelude.{◌≡◌, ◌≢◌, ◌≤◌, ◌<◌, ◌*◌, ◌+◌, ◌++◌, true, length, OnOk, vec_len, vec_capacity};
ghost use Rattle.std.specs.List.{Contains};
ghost use Rattle.ls_placing.specs.Placing.{slot_list};
ghost use Rattle.ls_record.specs.Rows.{is_odd};
ghost use Rattle.ls_turn.specs.declared.session.Pending.{Pending as PendingOf};
ghost use Rattle.ls_vault.specs.Drawn.{token_len};
ghost use Rattle.ls_activating.specs.Planning.{AddsOne, AddsDrafts};

use crate::counting::token_len;
use ls_bytes::{Memory, SlotList};
use ls_placing::free_slot;
use ls_protector::Draft;
use ls_token::draft_token;
use ls_turn::Pending;
use std::alloc::Global;

/// Adds a slot at the end, where there is one.
fn push_slot(taken: &mut SlotList, slot: Option<u32>) -> Result<(), Memory>
    ensures pushed { OnOk result (taken.new ≡ taken.old ++ slot_list slot) }
{
    match slot {
        None => Ok(()),
        Some(slot) => taken.push(slot),
    }
}

/// Adds the draft of one protector at the end, for which there is a place, at the lowest free slot.
/// That one is taken then.
fn push_draft(
    alloc: Global,
    drafts: &mut Vec<Draft>,
    taken: &mut SlotList,
    slots: u32,
    user: u32,
    version: u8,
    p0: &[u8; 32],
    one: &Pending,
    drawn: &[u8],
) -> Result<(), Memory>
    requires place { vec_len drafts.old < vec_capacity drafts.old }
    requires free { slots ≢ 0 → length taken.old < slots }
    requires version { (2 ≤ version) × (version ≤ 3) }
    requires odd { is_odd one.now.id ≡ true }
    requires drawn { length drawn.now ≡ token_len slots }
    ensures adds { OnOk result (AddsOne slots user version p0.now taken.old one.now drawn.now taken.new
        drafts.old.items drafts.new.items) }
    ensures len { OnOk result (vec_len drafts.new ≡ vec_len drafts.old + 1) }
    ensures capacity { vec_capacity drafts.new ≡ vec_capacity drafts.old }
{
    let slot = free_slot(slots, taken);
    let token = one.token.as_slice();
    let draft = match draft_token(alloc, user, one.id, slot, p0, version, token, drawn) {
        Ok(draft) => draft,
        Err(memory) => return Err(memory),
    };
    drafts.push_reserved(draft);
    push_slot(taken, slot)
}

/// Adds the drafts of the protectors of these tokens at the end, for which there are places, each at
/// the lowest slot that is free then.
pub(crate) fn push_drafts(
    alloc: Global,
    drafts: &mut Vec<Draft>,
    taken: &mut SlotList,
    slots: u32,
    user: u32,
    version: u8,
    p0: &[u8; 32],
    tokens: &[Pending],
    drawn: &[u8],
) -> Result<(), Memory>
    requires places { vec_len drafts.old + length tokens.now ≤ vec_capacity drafts.old }
    requires free { slots ≢ 0 → length taken.old + length tokens.now ≤ slots }
    requires version { (2 ≤ version) × (version ≤ 3) }
    requires odd { (p : PendingOf) → Contains tokens.now p → is_odd p.id ≡ true }
    requires drawn { length drawn.now ≡ length tokens.now * token_len slots }
    ensures adds { OnOk result (AddsDrafts slots user version p0.now taken.old tokens.now
        drafts.old.items drafts.new.items) }
{
    match tokens {
        [] => Ok(()),
        [one, rest @ ..] => {
            let (its, behind) = drawn.split_at(token_len(slots) as usize);
            match push_draft(alloc, drafts, taken, slots, user, version, p0, one, its) {
                Ok(()) => {}
                Err(memory) => return Err(memory),
            }
            push_drafts(alloc, drafts, taken, slots, user, version, p0, rest, behind)
        }
    }
}
