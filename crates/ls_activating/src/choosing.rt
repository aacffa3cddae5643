//! Which tokens become active.
ghost use Rattle.std.specs.Prelude.{◌≡◌, ◌++◌, ◌∷◌, [], take, not, filter, IfOk, OnOk};
ghost use Rattle.ls_record.specs.Rows.{has};
ghost use Rattle.ls_turn.specs.Waiting.{those_of};
ghost use Rattle.ls_activating.specs.Counting.{token_ids};

use ls_bytes::{Bytes, IdList, Memory};
use ls_turn::Pending;
use std::alloc::Global;

/// The same token once more.
fn copy_of(alloc: Global, one: &Pending) -> Result<Pending, Memory>
    ensures same { IfOk result (λ copy. copy ≡ one.now) }
{
    match Bytes::of(alloc, one.token.as_slice()) {
        Ok(token) => Ok(Pending {
            user: one.user,
            id: one.id,
            token,
        }),
        Err(memory) => Err(memory),
    }
}

/// Adds the same token at the end.
fn push_copy(alloc: Global, first: &mut Vec<Pending>, one: &Pending) -> Result<(), Memory>
    ensures pushed { OnOk result (first.new.items ≡ first.old.items ++ one.now ∷ []) }
{
    let copy = match copy_of(alloc, one) {
        Ok(copy) => copy,
        Err(memory) => return Err(memory),
    };
    match first.push(copy) {
        Ok(()) => Ok(()),
        Err(_) => Err(Memory),
    }
}

/// Adds so many tokens of the user at the end, the first of these.
fn push_first(
    alloc: Global,
    first: &mut Vec<Pending>,
    pending: &[Pending],
    user: u32,
    count: usize,
) -> Result<(), Memory>
    ensures pushed { OnOk result
        (first.new.items ≡ first.old.items ++ take count (those_of user pending.now)) }
{
    if count == 0 {
        return Ok(());
    }
    match pending {
        [] => Ok(()),
        [one, rest @ ..] => {
            if one.user != user {
                return push_first(alloc, first, rest, user, count);
            }
            match push_copy(alloc, first, one) {
                Ok(()) => push_first(alloc, first, rest, user, count - 1),
                Err(memory) => Err(memory),
            }
        }
    }
}

/// The first so many of the user's tokens, in order.
pub(crate) fn first_of(
    alloc: Global,
    pending: &[Pending],
    user: u32,
    count: usize,
) -> Result<Vec<Pending>, Memory>
    ensures same { IfOk result (λ first. first.items ≡ take count (those_of user pending.now)) }
{
    let mut first = Vec::new(alloc);
    match push_first(alloc, &mut first, pending, user, count) {
        Ok(()) => Ok(first),
        Err(memory) => Err(memory),
    }
}

/// The ids of tokens, in order.
pub(crate) fn ids_of(alloc: Global, tokens: &[Pending]) -> Result<IdList, Memory>
    ensures same { IfOk result (λ ids. ids ≡ token_ids tokens.now) }
{
    let mut ids = IdList::new(alloc);
    for one in tokens {
        ids.push(one.id)?;
    }
    Ok(ids)
}

/// Whether the id is one of these.
pub(crate) fn has(ids: &[u64], id: u64) -> bool
    ensures same { result ≡ has ids.now id }
{
    ids.iter().any(|i| *i == id)
}

/// Whether the id of the token is one of these.
fn is_of(ids: &[u64], one: &Pending) -> bool
    ensures same { result ≡ has ids.now one.now.id }
{
    has(ids, one.id)
}

/// Takes the tokens of these ids out.
pub(crate) fn take_out(pending: &mut Vec<Pending>, ids: &[u64])
    ensures same { pending.new.items
        ≡ filter (λ p. not (has ids.now p.id)) pending.old.items }
{
    pending.retain(|p| !is_of(ids, p));
}
