//! The ids in a row, which no other row has.
ghost use Rattle.std.specs.Prelude.{◌≡◌, ◌==◌, []};
ghost use Rattle.ls_record.specs.Rows.{another, has, is_protector_id, is_odd, is_new_protector, is_new_secure, is_new_token};
ghost use Rattle.ls_record.specs.Gives.{Gives};

use crate::body::BodyReader;
use crate::fault::RecordFault;
use crate::fields::is_secure_id;
use crate::judge::judged;
use crate::row::UserRow;
use ls_bytes::IdList;
use ls_credential::Kind;
use std::alloc::Global;

fn has(ids: &[u64], id: u64) -> bool
    ensures same { result ≡ has ids.now id }
{
    ids.iter().any(|i| *i == id)
}

/// Whether an id may be that of a protector.
fn is_protector_id(id: u64) -> bool
    ensures same { result ≡ is_protector_id id }
{
    id % 2 == 0 && id != 0
}

/// Whether an id may be that of a token.
fn is_odd(id: u64) -> bool
    ensures same { result ≡ is_odd id }
{
    id % 2 == 1
}

fn has_protector(rows: &[UserRow], user: u32, id: u64) -> bool
    ensures same { result ≡ another rows.now user (λ r. r.protector == id) }
{
    rows.iter().any(|r| r.user != user && r.protector == id)
}

fn has_secure(rows: &[UserRow], user: u32, id: u64) -> bool
    ensures same { result ≡ another rows.now user (λ r. r.secure == id) }
{
    rows.iter().any(|r| r.user != user && r.secure == id)
}

fn has_token(rows: &[UserRow], user: u32, id: u64) -> bool
    ensures same { result ≡ another rows.now user (λ r. has r.tokens id) }
{
    rows.iter()
        .any(|r| r.user != user && has(r.tokens.as_slice(), id))
}

/// Whether no row of another user has this protector.
fn is_new_protector(rows: &[UserRow], user: u32, id: u64) -> bool
    ensures same { result ≡ is_new_protector rows.now user id }
{
    !has_protector(rows, user, id)
}

/// Whether an id is 0, or no row of another user has this secure id.
fn is_new_secure(rows: &[UserRow], user: u32, id: u64) -> bool
    ensures same { result ≡ is_new_secure rows.now user id }
{
    id == 0 || !has_secure(rows, user, id)
}

/// Whether no row of another user has this token, and none of those before is it.
fn is_new_token(rows: &[UserRow], user: u32, before: &[u64], id: u64) -> bool
    ensures same { result ≡ is_new_token rows.now user before.now id }
{
    !has_token(rows, user, id) && !has(before, id)
}

impl<'a> BodyReader<'a> {
    ghost use Rattle.ls_record.specs.Reading.{protector_at, secure_at, token_at, repeat, token_list_at};

    /// The id of a protector, which no row of another user has.
    pub fn protector(&mut self, rows: &[UserRow], user: u32) -> Result<u64, RecordFault>
        ensures gives { Gives (protector_at rows.now user) self.old result self.new }
    {
        let at = self.at();
        match self.number_64() {
            Ok(id) => judged(
                id,
                at,
                is_protector_id(id),
                is_new_protector(rows, user, id),
            ),
            Err(e) => Err(e),
        }
    }

    /// A secure user id, which no row of another user has.
    pub fn secure(&mut self, kind: Kind, rows: &[UserRow], user: u32) -> Result<u64, RecordFault>
        ensures gives { Gives (secure_at kind rows.now user) self.old result self.new }
    {
        let at = self.at();
        match self.number_64() {
            Ok(id) => judged(
                id,
                at,
                is_secure_id(kind, id),
                is_new_secure(rows, user, id),
            ),
            Err(e) => Err(e),
        }
    }

    /// The id of a token, which no row of another user has, and none of those before it is.
    fn token(&mut self, rows: &[UserRow], user: u32, before: &[u64]) -> Result<u64, RecordFault>
        ensures gives { Gives (token_at rows.now user before.now) self.old result self.new }
    {
        let at = self.at();
        match self.number_64() {
            Ok(id) => judged(id, at, is_odd(id), is_new_token(rows, user, before, id)),
            Err(e) => Err(e),
        }
    }

    /// So many tokens.
    fn tokens(
        &mut self,
        alloc: Global,
        rows: &[UserRow],
        user: u32,
        n: u8,
    ) -> Result<IdList, RecordFault>
        ensures gives { Gives (repeat (token_at rows.now user) [] n) self.old result self.new }
    {
        let mut tokens = IdList::new(alloc);
        for _ in 0..n {
            let token = self.token(rows, user, tokens.as_slice())?;
            tokens.push(token)?;
        }
        Ok(tokens)
    }

    /// The number of tokens, and the tokens.
    #[tactic(auto, unfolding(crate::specs::Reading::token_list_at))]
    pub fn token_list(
        &mut self,
        alloc: Global,
        rows: &[UserRow],
        user: u32,
        escrow: bool,
    ) -> Result<IdList, RecordFault>
        ensures gives { Gives (token_list_at rows.now user escrow) self.old result self.new }
    {
        let n = self.token_count(escrow)?;
        self.tokens(alloc, rows, user, n)
    }
}
