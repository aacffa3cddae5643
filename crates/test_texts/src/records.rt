//! Records, their changes, and what they name.

use crate::fault::RowFault;
use crate::naming;
use crate::words::{byte_of, place_text, printed_digits, said};
use ls_record::{Record, RecordFault};
use std::alloc::Global;

/// The text of a record as it is printed, or its first fault.
pub fn parsed(alloc: Global, args: &[Vec<u8>]) -> Result<String, RowFault> {
    match args {
        [bytes] => text_of(alloc, Record::parse(alloc, bytes)),
        _ => Err(RowFault::Form),
    }
}

/// What the function with this name gives for a record, which is the first argument, and the
/// others.
pub fn asked(alloc: Global, name: &str, args: &[Vec<u8>]) -> Result<String, RowFault> {
    match args {
        [bytes, rest @ ..] => match Record::parse(alloc, bytes) {
            Ok(record) => answer(alloc, name, &record, rest),
            Err(fault) => Err(no_record(fault)),
        },
        _ => Err(RowFault::Form),
    }
}

fn no_record(fault: RecordFault) -> RowFault {
    match fault {
        RecordFault::Memory => RowFault::Memory,
        _ => RowFault::Form,
    }
}

fn answer(
    alloc: Global,
    name: &str,
    record: &Record,
    args: &[Vec<u8>],
) -> Result<String, RowFault> {
    match name {
        "record-copy" => copied(alloc, record, args),
        "record-change" => changed(alloc, record, args),
        "record-change-between" => change_between(alloc, record, args),
        "names-file" => naming::file(alloc, record, args),
        "names-key" => naming::key(alloc, record, args),
        "names-enrolled" => naming::enrolled(alloc, record, args),
        "row-files" => naming::files(alloc, record, args),
        "row-has" => naming::has(alloc, record, args),
        _ => Err(RowFault::Form),
    }
}

/// The text of a copy of a record.
fn copied(alloc: Global, record: &Record, args: &[Vec<u8>]) -> Result<String, RowFault> {
    match args {
        [] => match record.copy(alloc) {
            Ok(copy) => printed_digits(alloc, copy.print(alloc)),
            Err(_) => Err(RowFault::Memory),
        },
        _ => Err(RowFault::Form),
    }
}

/// The text of the record after a change in this format, or the change's first fault.
fn changed(alloc: Global, record: &Record, args: &[Vec<u8>]) -> Result<String, RowFault> {
    match args {
        [format, change] => match byte_of(format)? {
            1 => text_of(alloc, record.edited(alloc, change, 1)),
            2 => text_of(alloc, record.edited(alloc, change, 2)),
            _ => Err(RowFault::Form),
        },
        _ => Err(RowFault::Form),
    }
}

/// The text of the one change that leads from a record to another, or `-` for none.
fn change_between(alloc: Global, from: &Record, args: &[Vec<u8>]) -> Result<String, RowFault> {
    match args {
        [bytes] => match Record::parse(alloc, bytes) {
            Ok(to) => edit_text(alloc, from, &to),
            Err(fault) => Err(no_record(fault)),
        },
        _ => Err(RowFault::Form),
    }
}

fn edit_text(alloc: Global, from: &Record, to: &Record) -> Result<String, RowFault> {
    match from.edit_to(alloc, to) {
        Ok(Some(edit)) => printed_digits(alloc, edit.print(alloc)),
        Ok(None) => said(alloc, "-"),
        Err(_) => Err(RowFault::Memory),
    }
}

fn text_of(alloc: Global, read: Result<Record, RecordFault>) -> Result<String, RowFault> {
    match read {
        Ok(record) => printed_digits(alloc, record.print(alloc)),
        Err(fault) => fault_text(alloc, fault),
    }
}

fn fault_text(alloc: Global, fault: RecordFault) -> Result<String, RowFault> {
    match fault {
        RecordFault::Short { at } => place_text(alloc, "short", at),
        RecordFault::Order { at } => place_text(alloc, "order", at),
        RecordFault::Limit { at } => place_text(alloc, "limit", at),
        RecordFault::Extra { at } => place_text(alloc, "extra", at),
        RecordFault::Memory => Err(RowFault::Memory),
    }
}
