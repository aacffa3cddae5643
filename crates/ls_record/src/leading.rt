//! The one change that leads from a record to another.
ghost use Rattle.std.specs.Prelude.{◌≡◌, ◌≢◌, MatchBool, MatchResult, IfOk, IfSome, Some, None};
ghost use Rattle.std.specs.Option.{option_copied};
ghost use Rattle.ls_record.specs.Leading.{same_flags, same_ids, same_row, is_among, a_missing, a_new, arming_edit, candidate};

use crate::copying::copy_row;
use crate::edit::Edit;
use crate::fault::RecordFault;
use crate::record::Record;
use crate::row::UserRow;
use crate::rows::has_row;
use ls_arming::Arming;
use ls_bytes::Memory;
use std::alloc::Global;

fn same_flags(a: &UserRow, b: &UserRow) -> bool
    ensures same { result ≡ same_flags a.now b.now }
{
    a.escrow == b.escrow && a.kind.code() == b.kind.code() && a.auto == b.auto && a.pin == b.pin
}

fn same_ids(a: &UserRow, b: &UserRow) -> bool
    ensures same { result ≡ same_ids a.now b.now }
{
    (a.user == b.user && a.protector == b.protector)
        && (a.secure == b.secure && a.tokens.as_slice() == b.tokens.as_slice())
}

fn same_row(a: &UserRow, b: &UserRow) -> bool
    ensures same { result ≡ same_row a.now b.now }
{
    same_flags(a, b) && same_ids(a, b)
}

/// Whether a row is one of these.
fn is_among(rows: &[UserRow], row: &UserRow) -> bool
    ensures same { result ≡ is_among rows.now row.now }
{
    rows.iter().any(|r| same_row(r, row))
}

/// The first row whose user has none in the next record.
fn a_missing<'a>(rows: &'a [UserRow], next: &[UserRow]) -> Option<&'a UserRow>
    ensures found { option_copied result ≡ a_missing rows.now next.now }
{
    rows.iter().find(|r| !has_row(next, r.user))
}

/// The first row of the next record that isn't one of these.
fn a_new<'a>(rows: &[UserRow], next: &'a [UserRow]) -> Option<&'a UserRow>
    ensures found { option_copied result ≡ a_new rows.now next.now }
{
    next.iter().find(|r| !is_among(rows, r))
}

fn arming_edit(alloc: Global, arming: &Option<Arming>) -> Result<Edit, Memory>
    ensures same { IfOk result (λ e. e ≡ arming_edit arming.now) }
{
    match arming {
        None => Ok(Edit::ClearArmed),
        Some(armed) => Ok(Edit::SetArmed(armed.copy(alloc)?)),
    }
}

/// No change, where one was refused; unless memory ran out.
fn refused(fault: RecordFault) -> Result<Option<Edit>, Memory>
    ensures refused { MatchResult result (λ o. (o ≡ None) × (fault ≢ RecordFault.Memory))
        (λ e. fault ≡ RecordFault.Memory) }
{
    match fault {
        RecordFault::Memory => Err(Memory),
        RecordFault::Short { .. } | RecordFault::Order { .. } => Ok(None),
        RecordFault::Limit { .. } | RecordFault::Extra { .. } => Ok(None),
    }
}

impl Record {
    ghost use Rattle.ls_record.specs.declared.edit.Edit.{Edit as Edits};
    ghost use Rattle.ls_record.specs.Rows.{IsRecord};
    ghost use Rattle.ls_record.specs.Edits.{changed, MayChange, LeadsTo};

    /// The one change that leads to the next record, where there is one and the records differ.
    pub fn edit_to(&self, alloc: Global, next: &Record) -> Result<Option<Edit>, Memory>
        ensures found { IfOk result (λ o. IfSome o (λ e. LeadsTo self.now e next.now)) }
        // A change that leads there is the one that is found.
        ensures only { (e : Edits) → LeadsTo self.now e next.now → IfOk result (λ o. o ≡ Some e) }
    {
        if self.same(alloc, next)? {
            return Ok(None);
        }
        let edit = self.candidate(alloc, next)?;
        self.if_leads(alloc, &edit, next)
    }

    /// Whether the records are equal: exactly where their spellings are.
    fn same(&self, alloc: Global, other: &Record) -> Result<bool, Memory>
        ensures same { IfOk result (λ b.
            MatchBool b (self.now ≡ other.now) (self.now ≢ other.now)) }
        ensures kept { IsRecord self.now }
    {
        let text = self.print(alloc)?;
        let other_text = other.print(alloc)?;
        Ok(text.as_slice() == other_text.as_slice())
    }

    /// The only change that could lead to the next record.
    fn candidate(&self, alloc: Global, next: &Record) -> Result<Edit, Memory>
        ensures same { IfOk result (λ e. e ≡ candidate self.now next.now) }
    {
        match a_missing(self.users.as_slice(), next.users.as_slice()) {
            Some(row) => Ok(Edit::DropRow { user: row.user }),
            None => match a_new(self.users.as_slice(), next.users.as_slice()) {
                Some(row) => Ok(Edit::PutRow(copy_row(alloc, row)?)),
                None => arming_edit(alloc, &next.armed),
            },
        }
    }

    /// The change, where it may be made: exactly where its spelling is read.
    fn if_may(&self, alloc: Global, edit: &Edit) -> Result<Option<Edit>, Memory>
        ensures found { IfOk result (λ o. IfSome o (MayChange self.now)) }
        ensures only { MayChange self.now edit.now → IfOk result (λ o. o ≡ Some edit.now) }
    {
        let text = edit.print(alloc)?;
        match self.read_change(alloc, text.as_slice(), 2) {
            Ok(read) => Ok(Some(read)),
            Err(fault) => refused(fault),
        }
    }

    /// The change, where it may be made and leads to the next record.
    fn if_leads(&self, alloc: Global, edit: &Edit, next: &Record) -> Result<Option<Edit>, Memory>
        ensures found { IfOk result (λ o. IfSome o (λ e.
            MayChange self.now e × (changed self.now e ≡ next.now))) }
        ensures only { MayChange self.now edit.now → changed self.now edit.now ≡ next.now →
            IfOk result (λ o. o ≡ Some edit.now) }
    {
        match self.if_may(alloc, edit)? {
            None => Ok(None),
            Some(found) => {
                let made = self.changed(alloc, &found)?;
                if made.same(alloc, next)? {
                    Ok(Some(found))
                } else {
                    Ok(None)
                }
            }
        }
    }
}
