//! Names and bytes of calls, one after another in one vector with reserved room.
ghost use Rattle.std.specs.Prelude.{◌≡◌, ◌+◌, ◌≤◌, ◌++◌, [], List, ℕ, length, take, drop, vec_len, vec_capacity};
ghost use Rattle.ls_board.specs.Effect.{weight_of};
ghost use Rattle.ls_board.specs.Images.{changing};
ghost use Rattle.ls_memboard.specs.Calls.{call_from, call_of, plain_call, IsIn};

use crate::call::{Kept, Kind};
use ls_board::Action;

/// Adds bytes for which there is room.
pub(crate) fn append(pool: &mut Vec<u8>, bytes: &[u8])
    requires { vec_len pool.old + length bytes.now ≤ vec_capacity pool.old }
    ensures items { pool.new.items ≡ pool.old.items ++ bytes.now }
    ensures capacity { vec_capacity pool.old ≤ vec_capacity pool.new }
{
    match pool.extend_from_slice(bytes) {
        Ok(()) => {}
        Err(_) => unreachable!(),
    }
}

/// So many bytes of the pool.
pub(crate) fn part(pool: &[u8], at: usize, len: usize) -> &[u8]
    requires { at + len ≤ length pool.now }
    ensures same { result.now ≡ take len (drop at pool.now) }
{
    &pool[at..at + len]
}

/// A kind, over a name and bytes that go into the pool.
fn keep_parts(pool: &mut Vec<u8>, kind: Kind, name: &[u8], bytes: &[u8]) -> Kept
    requires { vec_len pool.old + (length name.now + length bytes.now) ≤ vec_capacity pool.old }
    ensures call { call_of pool.new.items result ≡ call_from kind name.now bytes.now }
    ensures within { IsIn pool.new.items result }
    ensures bytes { result.bytes ≡ length bytes.now }
    ensures items { pool.new.items ≡ pool.old.items ++ (name.now ++ bytes.now) }
    ensures capacity { vec_capacity pool.old ≤ vec_capacity pool.new }
{
    let at = pool.len();
    append(pool, name);
    append(pool, bytes);
    Kept {
        kind,
        at,
        name: name.len(),
        bytes: bytes.len(),
    }
}

/// The kind of an action that has neither a name nor bytes to keep.
fn plain_kind(a: &Action) -> Kind
    ensures call { call_from result [] [] ≡ plain_call a.now }
{
    match a {
        Action::Sync => Kind::Sync,
        Action::WeaverWrite { slot, key, value } => Kind::WeaverWrite {
            slot: *slot,
            key: *key,
            value: *value,
        },
        Action::WeaverRead { slot, key, moment } => Kind::WeaverRead {
            slot: *slot,
            key: *key,
            moment: *moment,
        },
        Action::GkEnroll { sid } => Kind::GkEnroll { sid: *sid },
        Action::GkForget { sid } => Kind::GkForget { sid: *sid },
        Action::KeyPut { alias, key } => Kind::KeyPut {
            alias: *alias,
            key: *key,
        },
        Action::KeyDrop { alias } => Kind::KeyDrop { alias: *alias },
        Action::ResumeStore { key } => Kind::ResumeStore { key: *key },
        Action::ResumeTake => Kind::ResumeTake,
        Action::Hear { max } => Kind::Hear { max: *max },
        Action::Now => Kind::Now,
        Action::Draw { len } => Kind::Draw { len: *len },
        _ => Kind::Quiet,
    }
}

/// Keeps an action, as far as it may change the world.
pub(crate) fn keep(pool: &mut Vec<u8>, a: &Action) -> Kept
    requires { vec_len pool.old + weight_of a.now ≤ vec_capacity pool.old }
    ensures call { call_of pool.new.items result ≡ changing a.now }
    ensures within { IsIn pool.new.items result }
    ensures bytes { result.bytes ≤ weight_of a.now }
    ensures items { (more : List ℕ) × (length more ≤ weight_of a.now)
        × (pool.new.items ≡ pool.old.items ++ more) }
    ensures capacity { vec_capacity pool.old ≤ vec_capacity pool.new }
{
    match a {
        Action::Make { name, len } => {
            keep_parts(pool, Kind::Make { len: *len }, name.as_slice(), &[])
        }
        Action::Put { name, bytes } => {
            keep_parts(pool, Kind::Put, name.as_slice(), bytes.as_slice())
        }
        Action::Poke { name, at, bytes } => keep_parts(
            pool,
            Kind::Poke { at: *at },
            name.as_slice(),
            bytes.as_slice(),
        ),
        Action::Remove { name } => keep_parts(pool, Kind::Remove, name.as_slice(), &[]),
        Action::GkVerify {
            handle,
            password,
            moment,
        } => keep_parts(
            pool,
            Kind::GkVerify {
                handle: *handle,
                moment: *moment,
            },
            &[],
            password.as_slice(),
        ),
        Action::Say { bytes } => keep_parts(pool, Kind::Say, &[], bytes.as_slice()),
        _ => keep_parts(pool, plain_kind(a), &[], &[]),
    }
}
