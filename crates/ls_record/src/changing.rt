//! A record with a change made.
ghost use Rattle.std.specs.Prelude.{◌≡◌, ◌⊎◌, ◌++◌, ◌∷◌, IfOk, MatchResult, Ok};
ghost use Rattle.ls_record.specs.Edits.{below, above};
ghost use Rattle.ls_record.specs.declared.fault.RecordFault.TheVariants as fault;
ghost use Rattle.ls_record.specs.Gives.{Tells};

use crate::copying::{copy_row, copy_rows};
use crate::edit::Edit;
use crate::edit_reading::read_edit;
use crate::fault::RecordFault;
use crate::parts::{push_above, push_below};
use crate::record::Record;
use crate::row::{RowList, UserRow};
use ls_arming::{copy_arming, disarmed};
use ls_bytes::Memory;
use std::alloc::Global;

/// The rows with this one in its user's place.
fn rows_with(alloc: Global, rows: &[UserRow], row: &UserRow) -> Result<RowList, Memory>
    ensures same { IfOk result (λ list. list ≡
        below rows.now row.now.user ++ row.now ∷ above rows.now row.now.user) }
{
    let mut list = RowList::new(alloc);
    push_below(&mut list, alloc, rows, row.user)?;
    list.push(copy_row(alloc, row)?)?;
    push_above(&mut list, alloc, rows, row.user)?;
    Ok(list)
}

/// The rows of other users.
fn rows_without(alloc: Global, rows: &[UserRow], user: u32) -> Result<RowList, Memory>
    ensures same { IfOk result (λ list. list ≡ below rows.now user ++ above rows.now user) }
{
    let mut list = RowList::new(alloc);
    push_below(&mut list, alloc, rows, user)?;
    push_above(&mut list, alloc, rows, user)?;
    Ok(list)
}

impl Record {
    ghost use Rattle.ls_record.specs.declared.edit.Edit.{Edit as Edits};
    ghost use Rattle.ls_record.specs.Edits.{changed, MayChange, IsEditText};
    ghost use Rattle.ls_record.specs.EditReading.{whole_edit, edited_of};
    ghost use Rattle.ls_record.specs.Rows.{IsRecord};

    /// The record with a change that may be made.
    pub fn changed(&self, alloc: Global, edit: &Edit) -> Result<Record, Memory>
        requires { MayChange self.now edit.now }
        ensures same { IfOk result (λ r. r ≡ changed self.now edit.now) }
    {
        match edit {
            Edit::PutRow(row) => {
                let users = rows_with(alloc, self.users.as_slice(), row)?;
                let armed = copy_arming(alloc, &self.armed)?;
                Ok(Record { users, armed })
            }
            Edit::DropRow { user } => {
                let users = rows_without(alloc, self.users.as_slice(), *user)?;
                let armed = disarmed(copy_arming(alloc, &self.armed)?, *user);
                Ok(Record { users, armed })
            }
            Edit::SetArmed(armed) => {
                let users = copy_rows(alloc, self.users.as_slice())?;
                let armed = Some(armed.copy(alloc)?);
                Ok(Record { users, armed })
            }
            Edit::ClearArmed => {
                let users = copy_rows(alloc, self.users.as_slice())?;
                Ok(Record { users, armed: None })
            }
        }
    }

    /// The record with the change that the bytes are, in format 01 or 02.
    pub fn edited(&self, alloc: Global, edit: &[u8], format: u8) -> Result<Record, RecordFault>
        requires { (format ≡ 1) ⊎ (format ≡ 2) }
        // The bytes are a change that may be made, and it was made.
        ensures found { IfOk result (λ r.
            (e : Edits) × IsEditText format self.now edit.now e × (r ≡ changed self.now e)) }
        // A change that may be made is made, unless memory runs out.
        ensures only { (e : Edits) → IsEditText format self.now edit.now e →
            MatchResult result (λ r. r ≡ changed self.now e) (λ f. f ≡ fault.Memory) }
        // Which fault it is.
        ensures exact { MatchResult result (λ r. edited_of format self.now edit.now ≡ Ok r)
            (Tells (edited_of format self.now edit.now)) }
    {
        self.edited_by(alloc, edit, format)
    }

    fn edited_by(&self, alloc: Global, edit: &[u8], format: u8) -> Result<Record, RecordFault>
        ensures exact { MatchResult result (λ r. edited_of format self.now edit.now ≡ Ok r)
            (Tells (edited_of format self.now edit.now)) }
        ensures kept { IsRecord self.now }
    {
        let edit = self.read_change(alloc, edit, format)?;
        Ok(self.changed(alloc, &edit)?)
    }

    /// The change that the bytes are. It may be made.
    pub(crate) fn read_change(
        &self,
        alloc: Global,
        edit: &[u8],
        format: u8,
    ) -> Result<Edit, RecordFault>
        ensures may { IfOk result (MayChange self.now) }
        ensures exact { MatchResult result (λ e. whole_edit format self.now.users edit.now ≡ Ok e)
            (Tells (whole_edit format self.now.users edit.now)) }
        ensures kept { IsRecord self.now }
    {
        read_edit(alloc, format, self.users.as_slice(), edit)
    }
}
