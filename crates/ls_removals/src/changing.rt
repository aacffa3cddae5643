//! Changes that name no new protector.
ghost use Rattle.std.specs.Prelude.{◌≡◌, IfOk};
ghost use Rattle.ls_removals.specs.Letting.{letting};

use ls_board::Plan;
use ls_bytes::Memory;
use ls_exchange::Exchange;
use ls_protector::Named;
use ls_settings::CommitPlan;
use std::alloc::Global;

/// The change that commits a record, lets these protectors go, and then does what is planned.
pub(crate) fn letting(
    alloc: Global,
    commit: CommitPlan,
    gone: Vec<Named>,
    after: Plan,
) -> Result<Exchange, Memory>
    ensures same { IfOk result (λ work. work ≡ letting commit gone.items after) }
{
    Exchange::of(
        alloc,
        Vec::new(alloc),
        Plan::new(alloc),
        commit,
        gone,
        after,
    )
}
