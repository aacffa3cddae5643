//! Numbers that aren't taken yet.
ghost use Rattle.std.specs.Prelude.{◌≡◌, ◌≤◌, ◌++◌, length, map, IfOk, OnOk};
ghost use Rattle.ls_vault.specs.Credentials.{secure_ids};
ghost use Rattle.ls_vault.specs.Fresh.{first_free, fresh, drawn_number};
ghost use Rattle.ls_vault.specs.Tokens.{token_ids};
ghost use Rattle.ls_arming.specs.Numbers.{contains};

use crate::state::State;
use crate::table::Table;
use crate::token::Token;
use crate::user::User;
use byteorder::{BigEndian, ByteOrder};
use ls_bytes::Memory;
use std::alloc::Global;

/// Whether the number is taken.
fn is_taken(taken: &[u64], d: u64) -> bool
    ensures same { result ≡ contains taken.now d }
{
    taken.iter().any(|t| *t == d)
}

/// The first number from d on, in steps of 2, that isn't taken, after at most so many steps.
fn first_free(steps: usize, d: u64, taken: &[u64]) -> u64
    ensures same { result ≡ first_free steps d taken.now }
{
    let mut free = d;
    for _ in 0..steps {
        if !is_taken(taken, free) {
            return free;
        }
        free = free.wrapping_add(2);
    }
    free
}

/// The drawn number with its lowest bit set, or the first after it that isn't taken.
pub(crate) fn fresh(d: u64, taken: &[u64]) -> u64
    ensures same { result ≡ fresh d taken.now }
{
    first_free(taken.len(), 2 * (d / 2) + 1, taken)
}

/// The number in the first eight drawn bytes.
pub(crate) fn drawn_number(drawn: &[u8]) -> u64
    requires { 8 ≤ length drawn.now }
    ensures same { result ≡ drawn_number drawn.now }
{
    BigEndian::read_u64(drawn)
}

/// The secure ids of all users.
pub(crate) fn secure_ids(alloc: Global, users: &[User]) -> Result<Vec<u64>, Memory>
    ensures same { IfOk result (λ ids. ids.items ≡ secure_ids users.now) }
{
    Ok(users.iter().map(|u| u.secure).collect(alloc)?)
}

/// The ids of these tokens come behind the others.
fn add_ids(ids: &mut Table<u64>, tokens: &[Token]) -> Result<(), Memory>
    ensures same { OnOk result (ids.new ≡ ids.old ++ map (λ t. t.id) tokens.now) }
{
    for t in tokens {
        ids.push(t.id)?;
    }
    Ok(())
}

/// The ids of all tokens, active and pending.
pub(crate) fn token_ids(alloc: Global, state: &State) -> Result<Table<u64>, Memory>
    ensures same { IfOk result (λ ids. ids ≡ token_ids state.now) }
{
    let mut ids = Table::new(alloc);
    for u in state.vault.users.as_slice() {
        add_ids(&mut ids, u.tokens.as_slice())?;
    }
    for p in state.session.pending.as_slice() {
        ids.push(p.id)?;
    }
    Ok(ids)
}
