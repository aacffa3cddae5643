//! A prepared commit, and the token of one that was made.
ghost use Rattle.std.specs.Prelude.{◌≡◌, length, sum_by};
ghost use Rattle.ls_board.specs.Effect.{weight_of};

use crate::place::Place;
use ls_board::Plan;
use ls_record::Record;
use std::marker::Model;

/// A commit that was prepared. Nothing was done.
#[derive(Drop)]
pub struct CommitPlan {
    pub(crate) record: Record,
    /// The same record, for the token.
    pub(crate) named: Record,
    pub(crate) place: Place,
    pub(crate) plan: Plan,
}

impl Model for CommitPlan {
    ghost use Rattle.std.specs.Prelude.{◌≡◌};
    ghost use Rattle.ls_settings.specs.Commits.{Prepared};

    ghost Value = { Prepared };

    ghost view = { λ p. record {
      to = record {
        settled = record {
          rec = p.record;
          sequence = p.place.sequence;
          side = p.place.side;
          end = p.place.end;
          format = p.place.format;
        };
        target_open = p.place.target_open;
      };
      actions = p.plan;
    } };

    ghost invariant = { λ p. p.named ≡ p.record };
}

impl CommitPlan {
    /// The room that the commit uses up: its actions, and their bytes.
    pub fn weight(&self) -> (u32, u64)
        ensures actions { result.0 ≡ length self.now.actions }
        ensures bytes { result.1 ≡ sum_by weight_of self.now.actions }
    {
        self.plan.weight()
    }
}

/// A commit that was made, seen as the record that is now named.
#[derive(Drop)]
pub struct Committed {
    pub(crate) record: Record,
}

impl Model for Committed {
    ghost use Rattle.ls_record.specs.Rows.{Rec};

    ghost Value = { Rec };

    ghost view = { λ c. c.record };
}
