//! What a command does to change the vault.
ghost use Rattle.std.specs.Prelude.{◌≡◌, ◌<◌, ◌^◌, length, sum_by, IsSome, IfSome};
ghost use Rattle.ls_board.specs.Effect.{weight_of};

use ls_board::Plan;
use ls_settings::CommitPlan;

/// A change of the vault that was planned. Nothing was done.
#[derive(Drop)]
pub struct Work {
    /// What builds all that the next record names beside what the old one names. Its last action
    /// is a Sync where it changes a file.
    pub before: Plan,
    /// The commit of the next record.
    pub commit: CommitPlan,
    /// What takes away all that only the old record named.
    pub after: Plan,
}

impl Work {
    ghost use Rattle.ls_change.specs.Work.{actions_of};

    /// The room that the whole change uses up: its actions, and their bytes. None where they are
    /// more than a board can be asked for.
    #[tactic(auto, using(crate::proofs::WeightLemmas::action_count, crate::proofs::WeightLemmas::byte_count))]
    pub fn weight(&self) -> Option<(u32, u64)>
        ensures actions { IfSome result (λ room. room.0 ≡ length (actions_of self.now)) }
        ensures bytes { IfSome result (λ room.
            room.1 ≡ sum_by weight_of (actions_of self.now)) }
        ensures fits { length (actions_of self.now) < 2 ^ 32
            → sum_by weight_of (actions_of self.now) < 2 ^ 64 → IsSome result }
    {
        let (before, before_bytes) = self.before.weight();
        let (commit, commit_bytes) = self.commit.weight();
        let (after, after_bytes) = self.after.weight();
        let actions = before.checked_add(commit)?.checked_add(after)?;
        let bytes = before_bytes
            .checked_add(commit_bytes)?
            .checked_add(after_bytes)?;
        Some((actions, bytes))
    }
}
