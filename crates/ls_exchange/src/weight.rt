//! The room that a change by protectors uses up.
ghost use Rattle.std.specs.Prelude.{◌≡◌, ◌+◌, ◌<◌, ◌^◌, length, sum_by, is_some, if◌then◌else◌, IsSome, IfSome};
ghost use Rattle.ls_board.specs.Effect.{weight_of};
ghost use Rattle.ls_change.specs.Work.{actions_of};
ghost use Rattle.ls_protector.specs.Parts.{erasing_of};
ghost use Rattle.ls_exchange.specs.Exchanges.{plain, staging_of, retiring_of};

use crate::work::Exchange;
use ls_formats::Parts;
use ls_protector::{Draft, Named};

/// The actions that stage and settle each, and their bytes.
fn draft_weight(drafts: &[Draft]) -> Option<(u32, u64)>
    ensures actions { IfSome result (λ room.
        room.0 ≡ length (staging_of drafts.now) + length drafts.now) }
    ensures bytes { IfSome result (λ room. room.1 ≡ sum_by weight_of (staging_of drafts.now)) }
    ensures fits { length (staging_of drafts.now) + length drafts.now < 2 ^ 32
        → sum_by weight_of (staging_of drafts.now) < 2 ^ 64 → IsSome result }
{
    match drafts {
        [] => Some((0, 0)),
        [draft, rest @ ..] => {
            let (actions, bytes) = draft.plan().weight();
            let (more, more_bytes) = draft_weight(rest)?;
            let actions = actions.checked_add(1)?.checked_add(more)?;
            let bytes = bytes.checked_add(more_bytes)?;
            Some((actions, bytes))
        }
    }
}

/// The actions that erase these parts: of the slot and of the Gatekeeper's record where there is
/// one, and of the key.
fn erasing_weight(parts: &Parts) -> u32
    ensures actions { result ≡ length (erasing_of parts.now) }
    ensures bytes { sum_by weight_of (erasing_of parts.now) ≡ 0 }
{
    match (parts.slot.is_some(), parts.gk) {
        (true, true) => 3,
        (false, false) => 1,
        _ => 2,
    }
}

/// The actions that erase each.
fn retire_weight(retire: &[Named]) -> Option<u32>
    ensures actions { IfSome result (λ actions. actions ≡ length (retiring_of retire.now)) }
    ensures bytes { sum_by weight_of (retiring_of retire.now) ≡ 0 }
    ensures fits { length (retiring_of retire.now) < 2 ^ 32 → IsSome result }
{
    match retire {
        [] => Some(0),
        [named, rest @ ..] => {
            let actions = erasing_weight(named.parts());
            let more = retire_weight(rest)?;
            actions.checked_add(more)
        }
    }
}

/// The sum of all: of the drafts, what else is built, the commit, what is erased, which has no
/// bytes, and what else is taken away.
fn total(
    drafts: (u32, u64),
    others: (u32, u64),
    commit: (u32, u64),
    retire: u32,
    after: (u32, u64),
) -> Option<(u32, u64)>
    ensures actions { IfSome result (λ room.
        room.0 ≡ drafts.0 + others.0 + commit.0 + retire + after.0) }
    ensures bytes { IfSome result (λ room.
        room.1 ≡ drafts.1 + others.1 + commit.1 + after.1) }
    ensures fits { drafts.0 + others.0 + commit.0 + retire + after.0 < 2 ^ 32
        → drafts.1 + others.1 + commit.1 + after.1 < 2 ^ 64 → IsSome result }
{
    let actions = drafts
        .0
        .checked_add(others.0)?
        .checked_add(commit.0)?
        .checked_add(retire)?
        .checked_add(after.0)?;
    let bytes = drafts
        .1
        .checked_add(others.1)?
        .checked_add(commit.1)?
        .checked_add(after.1)?;
    Some((actions, bytes))
}

impl Exchange {
    /// The room that the whole change uses up: its actions, and their bytes. None where they are
    /// more than a board can be asked for.
    pub fn weight(&self) -> Option<(u32, u64)>
        ensures actions { IfSome result (λ room.
            room.0 ≡ length (actions_of (plain self.now))) }
        ensures bytes { IfSome result (λ room.
            room.1 ≡ sum_by weight_of (actions_of (plain self.now))) }
        ensures fits { length (actions_of (plain self.now)) < 2 ^ 32
            → sum_by weight_of (actions_of (plain self.now)) < 2 ^ 64 → IsSome result }
    {
        let drafts = draft_weight(&self.drafts)?;
        let others = self.others.weight();
        let commit = self.commit.weight();
        let retire = retire_weight(&self.retire)?;
        let after = self.after.weight();
        total(drafts, others, commit, retire, after)
    }
}
