//! Committing a record.
ghost use Rattle.std.specs.Prelude.{◌≡◌, ◌≤◌, length, sum_by, IsTrue, IfOk, IfErr, OnOk, OnErr, Ok};
ghost use Rattle.ls_board.specs.declared.world.World.{World as Worlds};
ghost use Rattle.ls_board.specs.Acts.{Sight};
ghost use Rattle.ls_board.specs.Effect.{weight_of, file_at};
ghost use Rattle.ls_board.specs.Images.{Leaves};
ghost use Rattle.ls_board.specs.Reach.{SameBut};
ghost use Rattle.ls_board.specs.Runs.{Did, FailedIn, LeavesOnly};
ghost use Rattle.ls_naming.specs.Current.{current};
ghost use Rattle.ls_board.specs.Keeping.{Keeps};
ghost use Rattle.ls_settings.specs.Loaded.{IsReady, settings_reach};
ghost use Rattle.ls_settings.specs.Commits.{IsCommit, IsCommitImage};

use crate::plan::{CommitPlan, Committed};
use crate::settings::Settings;
use ls_board::{Board, Part, run_plan};

impl Settings {
    /// Makes the prepared record current. It takes no memory. After a fault the files stand for the
    /// old record or the new one, and these settings serve no more.
    pub fn commit<B: Board>(&mut self, board: &mut B, plan: CommitPlan) -> Result<Committed, Part>
        requires actions { length plan.actions ≤ (B.sight board.old).actions }
        requires bytes { sum_by weight_of plan.actions ≤ (B.sight board.old).bytes }
        // The plan was prepared from these settings.
        requires prepared { IsCommit self.old plan.to plan.actions }
        requires ready { IsTrue (B.sight board.old).told
            → IsReady (B.sight board.old).world self.old }
        ensures named { IfOk result (λ done. done ≡ plan.to.settled.rec) }
        ensures becomes { OnOk result (self.new ≡ plan.to) }
        ensures kept { OnErr result (self.new ≡ self.old) }
        ensures did { OnOk result (Did (B.sight board.old) plan.actions (B.sight board.new)) }
        ensures failed { IfErr result (λ part.
            FailedIn (B.sight board.old) plan.actions part (B.sight board.new)) }
        ensures keeps { Keeps (λ part. part) (B.sight board.old) (B.sight board.new) result }
        // A crash at any moment, or within any call, leaves the old record or the new one.
        ensures crash { IsTrue (B.sight board.old).told
            → LeavesOnly (B.sight board.old) (B.sight board.new)
            (IsCommitImage (B.sight board.old).world self.old plan.to plan.actions) }
        // After it the new record is current, in the files and in each image.
        ensures ready { IsTrue (B.sight board.old).told
            → OnOk result (IsReady (B.sight board.new).world plan.to) }
        ensures held { IsTrue (B.sight board.old).told → OnOk result ((image : Worlds)
            → Leaves (B.sight board.new).world image
            → current (file_at image) ≡ Ok plan.to.settled) }
        // Whatever it answers, all but the settings files stays.
        ensures but { IsTrue (B.sight board.old).told
            → SameBut settings_reach (B.sight board.old).world (B.sight board.new).world }
    {
        match run_plan(board, &plan.plan) {
            Ok(()) => {
                self.record = plan.record;
                self.place = plan.place;
                Ok(Committed { record: plan.named })
            }
            Err(fault) => Err(fault.part),
        }
    }
}
