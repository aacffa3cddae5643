//! Users by their numbers.
ghost use Rattle.std.specs.Prelude.{◌≡◌, ◌<◌, ◌≤◌, not, ◌==◌, nat_lt, length, IfSome, IfNone, OnOk};
ghost use Rattle.std.specs.List.{prefix_len};
ghost use Rattle.std.specs.Option.{option_copied};
ghost use Rattle.ls_vault.specs.Users.{user_of, changed, with_user, without_user};
ghost use Rattle.ls_vault.specs.Unlocking.{cleared, failed};
ghost use Rattle.ls_vault.specs.declared.user.User.{User as Users};
ghost use Rattle.ls_vault.specs.TokenChanges.{with_tokens, without_its, plain};

use crate::table::Table;
use crate::token::Token;
use crate::tokens::remove_token;
use crate::user::User;
use ls_bytes::Memory;
use ls_credential::Credential;
use ls_weaver::timeout;

/// The user with this number.
pub(crate) fn user_of(users: &[User], number: u32) -> Option<&User>
    ensures same { option_copied result ≡ user_of users.now number }
{
    users.iter().find(|u| u.number == number)
}

/// How many users stand before the one with this number.
fn front_of(users: &[User], number: u32) -> usize
    ensures count { result ≡ prefix_len (λ u. not (u.number == number)) users.now }
{
    users.iter().take_while(|u| !(u.number == number)).count()
}

/// The place of the user with this number.
fn place_of(users: &[User], number: u32) -> Option<usize>
    ensures within { IfSome result (λ at. at < length users.now) }
    ensures first { IfSome result (λ at.
        at ≡ prefix_len (λ u. not (u.number == number)) users.now) }
    ensures none { IfNone result
        ((change : Users → Users) → users.now ≡ changed users.now number change) }
{
    let at = front_of(users, number);
    if at < users.len() { Some(at) } else { None }
}

/// How many users at the front have a smaller number.
fn smaller_front(users: &[User], number: u32) -> usize
    ensures count { result ≡ prefix_len (λ u. nat_lt u.number number) users.now }
    ensures within { result ≤ length users.now }
{
    users.iter().take_while(|u| u.number < number).count()
}

/// A new user comes to its place.
#[tactic(auto, using(crate::proofs::InsertLemmas::user_inserted))]
pub(crate) fn add_user(users: &mut Table<User>, user: User) -> Result<(), Memory>
    ensures same { OnOk result (users.new ≡ with_user users.old user) }
{
    let at = smaller_front(&users.items, user.number);
    users.insert(at, user)?;
    Ok(())
}

/// The user is gone.
pub(crate) fn remove_user(users: &mut Table<User>, number: u32)
    ensures same { users.new ≡ without_user users.old number }
{
    users.items.retain(|u| !(u.number == number));
}

/// The user's counters are 0 again.
#[tactic(auto, using(crate::proofs::UserLemmas::changed_by))]
pub(crate) fn clear(users: &mut Table<User>, number: u32)
    ensures same { users.new ≡ changed users.old number cleared }
{
    if let Some(at) = place_of(&users.items, number) {
        let user = &mut users.items[at];
        user.fails = 0;
        user.until = 0;
    }
}

/// One wrong text more, at this moment.
#[tactic(auto, using(crate::proofs::UserLemmas::changed_by))]
pub(crate) fn count_failure(users: &mut Table<User>, number: u32, moment: u64)
    ensures same { users.new ≡ changed users.old number (failed moment) }
{
    if let Some(at) = place_of(&users.items, number) {
        let user = &mut users.items[at];
        user.fails = user.fails.saturating_add(1);
        user.until = moment.saturating_add(timeout(user.fails));
    }
}

/// Another credential, with its secure id.
#[tactic(auto, using(crate::proofs::UserLemmas::changed_by))]
pub(crate) fn give(users: &mut Table<User>, number: u32, new: Credential, secure: u64)
    ensures same { users.new ≡ changed users.old number (λ u.
        record u { credential = new; fails = 0; until = 0; secure = secure }) }
{
    if let Some(at) = place_of(&users.items, number) {
        let user = &mut users.items[at];
        user.credential = new;
        user.fails = 0;
        user.until = 0;
        user.secure = secure;
    }
}

/// The flag of auto-confirm.
#[tactic(auto, using(crate::proofs::UserLemmas::changed_by))]
pub(crate) fn set_auto(users: &mut Table<User>, number: u32, on: bool)
    ensures same { users.new ≡ changed users.old number (λ u. record u { auto = on }) }
{
    if let Some(at) = place_of(&users.items, number) {
        users.items[at].auto = on;
    }
}

/// Further active tokens, behind those that are there.
#[tactic(auto, using(crate::proofs::UserLemmas::changed_by))]
pub(crate) fn add_tokens(
    users: &mut Table<User>,
    number: u32,
    more: Table<Token>,
) -> Result<(), Memory>
    ensures same { OnOk result (users.new ≡ changed users.old number (with_tokens more)) }
{
    if let Some(at) = place_of(&users.items, number) {
        users.items[at].tokens.append(more)?;
    }
    Ok(())
}

/// The active token with this id is gone.
#[tactic(auto, using(crate::proofs::UserLemmas::changed_by))]
pub(crate) fn drop_token(users: &mut Table<User>, number: u32, id: u64)
    ensures same { users.new ≡ changed users.old number (without_its id) }
{
    if let Some(at) = place_of(&users.items, number) {
        remove_token(&mut users.items[at].tokens, id);
    }
}

/// No token any more, now and later.
#[tactic(auto, using(crate::proofs::UserLemmas::changed_by))]
pub(crate) fn make_plain(users: &mut Table<User>, number: u32)
    ensures same { users.new ≡ changed users.old number plain }
{
    if let Some(at) = place_of(&users.items, number) {
        let user = &mut users.items[at];
        user.escrow = false;
        user.tokens.items.clear();
    }
}
