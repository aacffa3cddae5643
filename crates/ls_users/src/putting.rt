//! A change that puts a row.
ghost use Rattle.std.specs.Prelude.{◌≡◌, ◌≢◌, IfOk};
ghost use Rattle.ls_naming.specs.Current.{last_sequence};
ghost use Rattle.ls_record.specs.declared.edit.Edit.TheVariants.{PutRow};
ghost use Rattle.ls_record.specs.Edits.{MayChange};
ghost use Rattle.ls_users.specs.Putting.{PutsRow};

use ls_board::Plan;
use ls_change::Work;
use ls_record::{Edit, UserRow};
use ls_settings::{PrepareFault, Settings};
use std::alloc::Global;

/// The change that puts a row and does nothing else. `Worn` comes exactly at the last sequence
/// number.
pub(crate) fn put_row(
    alloc: Global,
    settings: &Settings,
    row: UserRow,
) -> Result<Work, PrepareFault>
    requires may { MayChange settings.now.settled.rec (PutRow row) }
    ensures puts { IfOk result (PutsRow settings.now row) }
    ensures worn { (result ≡ Err PrepareFault.Worn)
        → (settings.now.settled.sequence ≡ last_sequence) }
    ensures kept { IfOk result (λ work. settings.now.settled.sequence ≢ last_sequence) }
{
    let next = settings.record().changed(alloc, &Edit::PutRow(row))?;
    let commit = settings.prepare(alloc, next)?;
    Ok(Work {
        before: Plan::new(alloc),
        commit,
        after: Plan::new(alloc),
    })
}
