//! Reading one settings file.
ghost use Rattle.std.specs.Prelude.{◌≡◌, ◌≤◌, length, take, drop, slice_index, min, MatchResult, Ok};
ghost use Rattle.ls_record.specs.Reading.{record_of};
ghost use Rattle.ls_record.specs.Spelling.{IsTextOf};
ghost use Rattle.ls_naming.specs.Current.{length_word, file_says, front_says, found_at};
ghost use Rattle.ls_settings.specs.FileReading.{TellsPlace, IsContent};

use crate::fault::FileFault;
use crate::head::base_in;
use crate::journal::{Walk, fault_behind, read_entries};
use byteorder::{BigEndian, ByteOrder};
use ls_record::Record;
use std::alloc::Global;

/// What a settings file says: the record, its sequence number, where the journal ends, if there is
/// one, and the format of the body.
#[derive(Drop)]
pub(crate) struct Content {
    pub record: Record,
    pub sequence: u64,
    pub end: Option<u32>,
    pub format: u8,
}

/// The record of a body, which begins at place 13.
fn read_body(alloc: Global, body: &[u8]) -> Result<Record, FileFault>
    ensures exact { MatchResult result (λ r. (record_of body.now ≡ Ok r) × IsTextOf body.now r)
        (TellsPlace (found_at 13 (record_of body.now))) }
{
    match Record::parse(alloc, body) {
        Ok(record) => Ok(record),
        Err(fault) => Err(fault_behind(13, fault)),
    }
}

/// The byte at a place, 0 past the end.
fn byte_at(bytes: &[u8], at: usize) -> u8
    ensures same { result ≡ slice_index bytes.now at }
{
    match bytes.get(at) {
        Some(byte) => *byte,
        None => 0,
    }
}

/// The first so many bytes of a body, as far as they are there.
fn body_in(file: &[u8], count: usize) -> &[u8]
    requires head { 13 ≤ length file.now }
    ensures body { result.now ≡ take count (drop 13 file.now) }
{
    let rest = &file[13..];
    if count < rest.len() {
        &rest[..count]
    } else {
        rest
    }
}

/// The word of the body's length, with a bit for the journal.
fn length_word(file: &[u8]) -> u32
    requires head { 13 ≤ length file.now }
    ensures word { result ≡ length_word file.now }
{
    BigEndian::read_u32(&file[9..])
}

/// What the first 4,096 bytes of a file say. The head is there.
fn read_front(alloc: Global, file: &[u8]) -> Result<Content, FileFault>
    requires head { 13 ≤ length file.now }
    requires few { length file.now ≤ 4096 }
    ensures exact { MatchResult result (IsContent file.now (front_says file.now))
        (TellsPlace (front_says file.now)) }
{
    let sequence = base_in(file);
    let word = length_word(file);
    let length = word % (1 << 31);
    if length > 4083 {
        return Err(FileFault::Foreign { at: 9 });
    }
    let record = read_body(alloc, body_in(file, length as usize))?;
    let format = byte_at(file, 13);
    if word < 1 << 31 {
        return Ok(Content {
            record,
            sequence,
            end: None,
            format,
        });
    }
    let at = 13 + length;
    let start = Walk {
        record,
        sequence,
        at,
    };
    let walk = read_entries(alloc, file, format, start)?;
    Ok(Content {
        record: walk.record,
        sequence: walk.sequence,
        end: Some(walk.at),
        format,
    })
}

/// The first 4,096 bytes of a file, or all of it.
fn front_of(file: &[u8]) -> &[u8]
    ensures front { result.now ≡ take 4096 file.now }
{
    if file.len() < 4096 {
        file
    } else {
        &file[..4096]
    }
}

/// The smaller of a length and 4,096.
fn smaller(length: usize) -> u32
    ensures smaller { result ≡ min length 4096 }
{
    if length < 4096 { length as u32 } else { 4096 }
}

/// What a file says, or its first fault.
pub(crate) fn read_content(alloc: Global, file: &[u8]) -> Result<Content, FileFault>
    ensures exact { MatchResult result (IsContent file.now (file_says file.now))
        (TellsPlace (file_says file.now)) }
{
    let length = file.len();
    if length < 13 {
        return Err(FileFault::Foreign { at: length as u32 });
    }
    let front = front_of(file);
    let content = read_front(alloc, front)?;
    if length != 4096 {
        return Err(FileFault::Foreign {
            at: smaller(length),
        });
    }
    Ok(content)
}
