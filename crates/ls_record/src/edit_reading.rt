//! Changes of a record, read.
ghost use Rattle.std.specs.Prelude.{◌≡◌, MatchResult, Ok};
ghost use Rattle.ls_record.specs.Rows.{has_row};
ghost use Rattle.ls_record.specs.Gives.{Gives, Tells};
ghost use Rattle.ls_record.specs.EditReading.{whole_edit};
ghost use Rattle.ls_record.specs.Edits.{has_room};

use crate::body::BodyReader;
use crate::edit::Edit;
use crate::fault::RecordFault;
use crate::judge::judged;
use crate::row::UserRow;
use crate::rows::has_row;
use std::alloc::Global;

/// Whether there is room for a row of the user.
pub(crate) fn has_room(rows: &[UserRow], user: u32) -> bool
    ensures same { result ≡ has_room rows.now user }
{
    has_row(rows, user) || rows.len() < 16
}

impl<'a> BodyReader<'a> {
    ghost use Rattle.ls_record.specs.Reading.{number, any};
    ghost use Rattle.ls_record.specs.EditReading.{put_at, drop_at, set_at, change_at, edit_at};

    /// A user for whom there is room.
    fn put_user(&mut self, rows: &[UserRow]) -> Result<u32, RecordFault>
        ensures gives { Gives (number 4 (has_room rows.now) any) self.old result self.new }
    {
        let at = self.at();
        match self.number_32() {
            Ok(n) => judged(n, at, has_room(rows, n), true),
            Err(e) => Err(e),
        }
    }

    /// A user that has a row.
    fn drop_user(&mut self, rows: &[UserRow]) -> Result<u32, RecordFault>
        ensures gives { Gives (number 4 any (has_row rows.now)) self.old result self.new }
    {
        let at = self.at();
        match self.number_32() {
            Ok(n) => judged(n, at, true, has_row(rows, n)),
            Err(e) => Err(e),
        }
    }

    #[tactic(auto, unfolding(crate::specs::EditReading::put_at))]
    fn put(&mut self, alloc: Global, format: u8, rows: &[UserRow]) -> Result<Edit, RecordFault>
        ensures gives { Gives (put_at format rows.now) self.old result self.new }
    {
        let user = self.put_user(rows)?;
        let row = self.row(alloc, format, rows, user)?;
        Ok(Edit::PutRow(row))
    }

    fn drop_row(&mut self, rows: &[UserRow]) -> Result<Edit, RecordFault>
        ensures gives { Gives (drop_at rows.now) self.old result self.new }
    {
        let user = self.drop_user(rows)?;
        Ok(Edit::DropRow { user })
    }

    fn set_armed(&mut self, alloc: Global, rows: &[UserRow]) -> Result<Edit, RecordFault>
        ensures gives { Gives (set_at rows.now) self.old result self.new }
    {
        let armed = self.armed(alloc, rows)?;
        Ok(Edit::SetArmed(armed))
    }

    /// What stands behind the number of a kind of change.
    fn change(
        &mut self,
        alloc: Global,
        kind: u8,
        format: u8,
        rows: &[UserRow],
    ) -> Result<Edit, RecordFault>
        ensures gives { Gives (change_at kind format rows.now) self.old result self.new }
    {
        if kind == 1 {
            self.put(alloc, format, rows)
        } else if kind == 2 {
            self.drop_row(rows)
        } else if kind == 3 {
            self.set_armed(alloc, rows)
        } else {
            Ok(Edit::ClearArmed)
        }
    }

    /// A change of a record with these rows.
    #[tactic(auto, unfolding(crate::specs::EditReading::edit_at))]
    fn edit(&mut self, alloc: Global, format: u8, rows: &[UserRow]) -> Result<Edit, RecordFault>
        ensures gives { Gives (edit_at format rows.now) self.old result self.new }
    {
        let kind = self.count(1, 4)?;
        self.change(alloc, kind, format, rows)
    }
}

/// The change that all the bytes are, of a record with these rows.
pub(crate) fn read_edit(
    alloc: Global,
    format: u8,
    rows: &[UserRow],
    bytes: &[u8],
) -> Result<Edit, RecordFault>
    ensures exact { MatchResult result (λ e. whole_edit format rows.now bytes.now ≡ Ok e)
        (Tells (whole_edit format rows.now bytes.now)) }
{
    let mut reader = BodyReader::new(bytes)?;
    let edit = reader.edit(alloc, format, rows)?;
    if !reader.ended() {
        return Err(RecordFault::Extra { at: reader.at() });
    }
    Ok(edit)
}
