//! The rows of a record, and its arming.
ghost use Rattle.std.specs.Prelude.{◌≡◌, [], nat_lt};
ghost use Rattle.std.specs.List.{list_all};
ghost use Rattle.ls_record.specs.Rows.{is_last_user, is_next_armed, has_row};
ghost use Rattle.ls_record.specs.Gives.{Gives};

use crate::body::BodyReader;
use crate::fault::RecordFault;
use crate::judge::judged;
use crate::row::{RowList, UserRow};
use ls_arming::{Arming, UserNumbers};
use std::alloc::Global;

/// Whether the user is above those of the rows before.
fn is_last_user(before: &[UserRow], user: u32) -> bool
    ensures same { result ≡ is_last_user before.now user }
{
    before.iter().all(|r| r.user < user)
}

/// Whether a user has a row.
pub(crate) fn has_row(rows: &[UserRow], user: u32) -> bool
    ensures same { result ≡ has_row rows.now user }
{
    rows.iter().any(|r| r.user == user)
}

fn is_above(before: &[u32], user: u32) -> bool
    ensures same { result ≡ list_all (λ u. nat_lt u user) before.now }
{
    before.iter().all(|u| *u < user)
}

/// Whether a user has a row, and is above those before.
fn is_next_armed(rows: &[UserRow], before: &[u32], user: u32) -> bool
    ensures same { result ≡ is_next_armed rows.now before.now user }
{
    is_above(before, user) && has_row(rows, user)
}

impl<'a> BodyReader<'a> {
    ghost use Rattle.ls_record.specs.Reading.{number, any, next_user_at, row_at, next_row_at, repeat, armed_user_at, armed_at, some_armed, arming_at};

    /// A row of this user, behind its number.
    #[tactic(auto, unfolding(crate::specs::Reading::row_at))]
    pub fn row(
        &mut self,
        alloc: Global,
        format: u8,
        rows: &[UserRow],
        user: u32,
    ) -> Result<UserRow, RecordFault>
        ensures gives { Gives (row_at format rows.now user) self.old result self.new }
    {
        let flags = self.flags(format)?;
        let protector = self.protector(rows, user)?;
        let secure = self.secure(flags.kind, rows, user)?;
        let tokens = self.token_list(alloc, rows, user, flags.escrow)?;
        Ok(UserRow {
            user,
            escrow: flags.escrow,
            kind: flags.kind,
            auto: flags.auto,
            pin: flags.pin,
            protector,
            secure,
            tokens,
        })
    }

    /// A user above those of the rows before.
    fn next_user(&mut self, before: &[UserRow]) -> Result<u32, RecordFault>
        ensures gives { Gives (next_user_at before.now) self.old result self.new }
    {
        let at = self.at();
        match self.number_32() {
            Ok(n) => judged(n, at, true, is_last_user(before, n)),
            Err(e) => Err(e),
        }
    }

    /// A user, and its row.
    #[tactic(auto, unfolding(crate::specs::Reading::next_row_at))]
    fn next_row(
        &mut self,
        alloc: Global,
        format: u8,
        before: &[UserRow],
    ) -> Result<UserRow, RecordFault>
        ensures gives { Gives (next_row_at format before.now) self.old result self.new }
    {
        let user = self.next_user(before)?;
        self.row(alloc, format, before, user)
    }

    /// So many rows.
    pub fn rows(&mut self, alloc: Global, format: u8, n: u8) -> Result<RowList, RecordFault>
        ensures gives { Gives (repeat (next_row_at format) [] n) self.old result self.new }
    {
        let mut rows = RowList::new(alloc);
        for _ in 0..n {
            let row = self.next_row(alloc, format, rows.as_slice())?;
            rows.push(row)?;
        }
        Ok(rows)
    }

    /// A user that has a row, above those before.
    fn armed_user(&mut self, rows: &[UserRow], before: &[u32]) -> Result<u32, RecordFault>
        ensures gives { Gives (armed_user_at rows.now before.now) self.old result self.new }
    {
        let at = self.at();
        match self.number_32() {
            Ok(n) => judged(n, at, true, is_next_armed(rows, before, n)),
            Err(e) => Err(e),
        }
    }

    /// So many users that have rows.
    fn armed_users(
        &mut self,
        alloc: Global,
        rows: &[UserRow],
        n: u8,
    ) -> Result<UserNumbers, RecordFault>
        ensures gives { Gives (repeat (armed_user_at rows.now) [] n) self.old result self.new }
    {
        let mut users = UserNumbers::new(alloc);
        for _ in 0..n {
            let user = self.armed_user(rows, users.as_slice())?;
            users.push(user)?;
        }
        Ok(users)
    }

    /// Any boot.
    fn boot(&mut self) -> Result<u32, RecordFault>
        ensures gives { Gives (number 4 any any) self.old result self.new }
    {
        let at = self.at();
        match self.number_32() {
            Ok(n) => judged(n, at, true, true),
            Err(e) => Err(e),
        }
    }

    /// A boot, and the users that it armed.
    #[tactic(auto, unfolding(crate::specs::Reading::armed_at))]
    pub fn armed(&mut self, alloc: Global, rows: &[UserRow]) -> Result<Arming, RecordFault>
        ensures gives { Gives (armed_at rows.now) self.old result self.new }
    {
        let boot = self.boot()?;
        let n = self.count(1, 16)?;
        let users = self.armed_users(alloc, rows, n)?;
        Ok(Arming { boot, users })
    }

    /// An arming, where there is one.
    fn some_armed(&mut self, alloc: Global, rows: &[UserRow]) -> Result<Option<Arming>, RecordFault>
        ensures gives { Gives (some_armed rows.now) self.old result self.new }
    {
        Ok(Some(self.armed(alloc, rows)?))
    }

    /// Whether there is an arming, and the arming.
    pub fn arming(&mut self, alloc: Global, rows: &[UserRow]) -> Result<Option<Arming>, RecordFault>
        ensures gives { Gives (arming_at rows.now) self.old result self.new }
    {
        if self.flag()? {
            self.some_armed(alloc, rows)
        } else {
            Ok(None)
        }
    }
}
