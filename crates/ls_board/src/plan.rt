//! Lists of actions that are done in a row.
ghost use Rattle.std.specs.Prelude.{◌≡◌, ◌++◌, ◌∷◌, [], length, sum_by, take, slice_get, IfErr, IsOk, OnOk, OnErr, IsTrue, IsSomeAnd};
ghost use Rattle.ls_board.specs.Acts.{Rose};
ghost use Rattle.ls_board.specs.declared.action.Part.{Part as Parts};
ghost use Rattle.ls_board.specs.Effect.{weight_of};
ghost use Rattle.ls_board.specs.Planned.{IsPlanned};
ghost use Rattle.ls_board.specs.Runs.{CanRun, Did, FailedAfter, LeavesOnly, PlanImage};

use crate::action::{Action, BoardFault, Part};
use crate::board::Board;
use ls_bytes::Memory;
use std::alloc::Global;
use std::marker::Model;

/// Actions that change something and whose answers nobody needs, in the order in which they are
/// done.
#[derive(Drop)]
pub struct Plan {
    alloc: Global,
    actions: Vec<Action>,
    /// The bytes of room that they use up.
    bytes: u64,
}

impl Model for Plan {
    ghost use Rattle.std.specs.Prelude.{◌≡◌, ◌<◌, ◌^◌, List, length, sum_by};
    ghost use Rattle.ls_board.specs.declared.action.Action.{Action};
    ghost use Rattle.ls_board.specs.Effect.{weight_of};
    ghost use Rattle.ls_board.specs.Runs.{AllPlanned};

    ghost Value = { List Action };

    ghost view = { λ p. p.actions.items };

    ghost invariant = { λ p. AllPlanned p.actions.items × (length p.actions.items < 2 ^ 32)
        × (p.bytes ≡ sum_by weight_of p.actions.items) };
}

/// The action of a plan that failed.
#[derive(Clone, Copy, Debug, PartialEq, Eq)]
pub struct PlanFault {
    /// Its place in the plan, from 0.
    pub at: u32,
    /// The part whose count rose.
    pub part: Part,
}

impl Plan {
    /// No action.
    pub fn new(alloc: Global) -> Plan
        ensures empty { result ≡ [] }
    {
        Plan {
            alloc,
            actions: Vec::new(alloc),
            bytes: 0,
        }
    }

    /// Adds an action at the end. A plan whose weight would not fit has no place in memory.
    pub fn push(&mut self, a: Action) -> Result<(), Memory>
        requires planned { IsPlanned a }
        ensures pushed { OnOk result (self.new ≡ self.old ++ a ∷ []) }
        ensures kept { OnErr result (self.new ≡ self.old) }
    {
        if self.actions.len() >= u32::MAX as usize {
            return Err(Memory);
        }
        let Some(bytes) = self.bytes.checked_add(a.weight()) else {
            return Err(Memory);
        };
        self.actions.reserve(1)?;
        self.actions.push_reserved(a);
        self.bytes = bytes;
        Ok(())
    }

    /// Adds the actions of another plan at the end. A plan whose weight would not fit has no place
    /// in memory.
    pub fn append(&mut self, other: Plan) -> Result<(), Memory>
        ensures appended { OnOk result (self.new ≡ self.old ++ other) }
        ensures kept { OnErr result (self.new ≡ self.old) }
    {
        let Plan {
            mut actions,
            bytes,
            ..
        } = other;
        if actions.len() > u32::MAX as usize - self.actions.len() {
            return Err(Memory);
        }
        let Some(bytes) = self.bytes.checked_add(bytes) else {
            return Err(Memory);
        };
        self.actions.append(&mut actions)?;
        self.bytes = bytes;
        Ok(())
    }

    /// The room that the plan uses up: its actions, and their bytes.
    pub fn weight(&self) -> (u32, u64)
        ensures actions { result.0 ≡ length self.now }
        ensures bytes { result.1 ≡ sum_by weight_of self.now }
    {
        (self.actions.len() as u32, self.bytes)
    }
}

/// Does the actions of a plan in their order, and stops at the first that fails. It takes no
/// memory.
pub fn run_plan<B: Board>(board: &mut B, plan: &Plan) -> Result<(), PlanFault>
    requires { CanRun (B.sight board.old) plan.now }
    ensures done { OnOk result (Did (B.sight board.old) plan.now (B.sight board.new)) }
    // All actions before the one that failed were done.
    ensures failed { IfErr result (λ f. IsSomeAnd (slice_get plan.now f.at) (λ a.
        FailedAfter (B.sight board.old) (take f.at plan.now) a f.part (B.sight board.new))) }
    // A fault comes only where a count rose.
    ensures complete { ((part : Parts)
        → ¬ (Rose ((B.sight board.old).faults part) ((B.sight board.new).faults part)))
        → IsOk result }
    // A crash at any moment of it, or within any of its calls, leaves an image after some of its
    // actions, or within the next one.
    ensures crash { IsTrue (B.sight board.old).told
        → LeavesOnly (B.sight board.old) (B.sight board.new)
        (PlanImage (B.sight board.old).world plan.now) }
{
    let mut out = Vec::new(plan.alloc);
    for (at, action) in plan.actions.iter().enumerate() {
        match board.act(action, &mut out) {
            Ok(_) => {}
            Err(BoardFault::Failed(part)) => {
                return Err(PlanFault {
                    at: at as u32,
                    part,
                });
            }
            Err(BoardFault::Memory) => unreachable!(),
        }
    }
    Ok(())
}
