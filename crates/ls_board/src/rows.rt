//! Tables whose rows stand in the order of their keys.
ghost use Rattle.std.specs.Prelude.{◌≡◌, ◌<◌, ◌≤◌, ◌+◌, length, slice_get, IfOk, OnOk, OnErr, IsTrue, ◌++◌, ◌∷◌, ◌^◌, []};
ghost use Rattle.std.specs.Vec.{vec_len, vec_capacity};
ghost use Rattle.ls_board.specs.Order.{put_by, place_by, meets};
ghost use Rattle.std.specs.Ordering.{is_gt};
ghost use Rattle.std.specs.declared.cmp.Ordering.{Ordering as Orders};

use ls_bytes::{Memory, Rows};
use std::alloc::Global;
use std::cmp::Ordering;

/// A row of a table, with a key by which it is ranked.
pub(crate) trait Ranked {
    /// How its key stands to that of another row.
    ghost ranking: { Self → Self → Orders };

    fn rank(&self, other: &Self) -> Ordering
        ensures { result ≡ ranking self.now other.now };

    /// The same row again.
    fn copy(&self, alloc: Global) -> Result<Self, Memory>
        ensures { IfOk result (λ r. r ≡ self.now) };
}

fn stands_behind<R: Ranked>(row: &R, other: &R) -> bool
    ensures same { result ≡ is_gt (R.ranking row.now other.now) }
{
    row.rank(other).is_gt()
}

/// The place of a row: so many of the first rows stand before it.
pub(crate) fn place<R: Ranked>(rows: &[R], row: &R) -> usize
    ensures count { result ≡ place_by (R.ranking row.now) rows.now }
{
    rows.iter()
        .take_while(|other| stands_behind(row, *other))
        .count()
}

/// Whether there is a row at this place, with the same key.
pub(crate) fn is_there<R: Ranked>(rows: &[R], at: usize, row: &R) -> bool
    ensures same { result ≡ meets (R.ranking row.now) (slice_get rows.now at) }
    ensures within { IsTrue result → at < length rows.now }
{
    match rows.get(at) {
        Some(other) => row.rank(other).is_eq(),
        None => false,
    }
}

/// Puts a row in its place, where it takes that of an earlier row with the same key.
pub(crate) fn put_row<R: Ranked + Drop>(rows: &mut Vec<R>, row: R) -> Result<(), Memory>
    ensures put { OnOk result (rows.new.items ≡ put_by (R.ranking row) row rows.old.items) }
    ensures kept { OnErr result (rows.new.items ≡ rows.old.items) }
    ensures full { OnErr result (vec_capacity rows.old ≤ vec_len rows.old) }
    ensures capacity { vec_capacity rows.old ≤ vec_capacity rows.new }
    ensures longer { vec_len rows.new ≤ vec_len rows.old + 1 }
{
    let at = place(rows, &row);
    if is_there(rows, at, &row) {
        rows[at] = row;
        return Ok(());
    }
    match rows.insert(at, row) {
        Ok(()) => Ok(()),
        Err(_) => Err(Memory),
    }
}

/// Adds a row at the end, while there are fewer than 2^32 - 1.
pub(crate) fn push_row<R: Drop>(rows: &mut Vec<R>, row: R) -> Result<(), Memory>
    ensures pushed { OnOk result (rows.new.items ≡ rows.old.items ++ row ∷ []) }
    ensures kept { OnErr result (rows.new.items ≡ rows.old.items) }
    ensures few { OnOk result (length rows.new.items < 2 ^ 32) }
{
    if rows.len() >= u32::MAX as usize {
        return Err(Memory);
    }
    rows.reserve(1)?;
    rows.push_reserved(row);
    Ok(())
}

/// The same rows again.
pub(crate) fn copied_rows<R: Ranked + Drop>(alloc: Global, rows: &[R]) -> Result<Vec<R>, Memory>
    ensures same { IfOk result (λ v. v.items ≡ rows.now) }
{
    let mut copy = Vec::new(alloc);
    for row in rows {
        copy.reserve(1)?;
        copy.push_reserved(row.copy(alloc)?);
    }
    Ok(copy)
}

/// The same list of plain values again.
pub(crate) fn copied_list<T: Copy + Drop>(alloc: Global, list: &Rows<T>) -> Result<Rows<T>, Memory>
    ensures same { IfOk result (λ l. l ≡ list.now) }
{
    let mut copy = Rows::new(alloc);
    for item in list.as_slice() {
        copy.push(*item)?;
    }
    Ok(copy)
}
