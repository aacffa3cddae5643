//! Reading a journal, entry by entry.
ghost use Rattle.std.specs.Prelude.{◌≡◌, ◌⊎◌, ◌≤◌, ◌+◌, length, true, false, MatchResult, MatchOption, Ok};
ghost use Rattle.ls_naming.specs.Current.{stands_at, entry_fits, entry_change, entry_length, format_of, changed_at, changed_by};
ghost use Rattle.ls_settings.specs.FileReading.{TellsPlace, IsFaultBehind, IsNext, IsWalked, rest_from};

use crate::actions::OPEN;
use crate::fault::FileFault;
use byteorder::{BigEndian, ByteOrder};
use ls_record::{Record, RecordFault};
use std::alloc::Global;

/// How far a journal was read: the record so far, its sequence number, and the next place.
#[derive(Drop)]
pub(crate) struct Walk {
    pub record: Record,
    pub sequence: u64,
    pub at: u32,
}

/// The fault of bytes that begin at a place. One past the range of places has no room in memory.
pub(crate) fn fault_behind(at: u32, fault: RecordFault) -> FileFault
    ensures behind { IsFaultBehind at fault result }
{
    let place = match fault {
        RecordFault::Short { at } => at,
        RecordFault::Order { at } => at,
        RecordFault::Limit { at } => at,
        RecordFault::Extra { at } => at,
        RecordFault::Memory => return FileFault::Memory,
    };
    match at.checked_add(place) {
        Some(at) => FileFault::Foreign { at },
        None => FileFault::Memory,
    }
}

/// Whether an open entry stands at the place.
fn stands_at(file: &[u8], at: u32) -> bool
    ensures same { result ≡ stands_at file.now at }
{
    match file.get(at as usize) {
        Some(gate) => *gate == OPEN,
        None => false,
    }
}

/// The change of the entry at the place, where it fits into the file.
fn change_at(file: &[u8], at: u32) -> Option<&[u8]>
    requires few { length file.now ≤ 4096 }
    ensures fits { MatchOption result (entry_fits file.now at ≡ false) (λ change.
        (entry_fits file.now at ≡ true) × (change.now ≡ entry_change file.now at)
        × (length change.now ≡ entry_length file.now at)) }
{
    let at = at as usize;
    if at + 5 > file.len() {
        return None;
    }
    let length = BigEndian::read_u32(&file[at + 1..]) as usize;
    if at + 5 + length > file.len() {
        return None;
    }
    Some(&file[at + 5..at + 5 + length])
}

/// Reads one open entry.
fn next_entry(alloc: Global, file: &[u8], format: u8, walk: Walk) -> Result<Walk, FileFault>
    requires few { length file.now ≤ 4096 }
    requires format { (format ≡ 1) ⊎ (format ≡ 2) }
    requires its_format { format ≡ format_of file.now }
    requires small { walk.at ≤ 4096 }
    ensures exact { MatchResult result (IsNext file.now walk)
        (TellsPlace (changed_at file.now walk.at walk.sequence walk.record)) }
{
    let at = walk.at;
    if walk.sequence == u64::MAX {
        return Err(FileFault::Foreign { at });
    }
    let Some(change) = change_at(file, at) else {
        return Err(FileFault::Foreign { at: at + 1 });
    };
    match walk.record.edited(alloc, change, format) {
        Ok(record) => Ok(Walk {
            record,
            sequence: walk.sequence + 1,
            at: at + 5 + change.len() as u32,
        }),
        Err(fault) => Err(fault_behind(at + 5, fault)),
    }
}

/// Reads the open entries, from a place on.
pub(crate) fn read_entries(
    alloc: Global,
    file: &[u8],
    format: u8,
    start: Walk,
) -> Result<Walk, FileFault>
    requires few { length file.now ≤ 4096 }
    requires format { (format ≡ 1) ⊎ (format ≡ 2) }
    requires its_format { format ≡ format_of file.now }
    requires small { start.at ≤ 4096 }
    ensures exact { MatchResult result (IsWalked file.now start)
        (TellsPlace (changed_by file.now (rest_from file.now start.at) start.sequence start.record)) }
{
    let mut walk = start;
    'entries: while stands_at(file, walk.at) {
        walk = next_entry(alloc, file, format, walk)?;
    }
    Ok(walk)
}
