//! Names and contents of protector files.

use crate::credentials::counts_of;
use crate::fault::RowFault;
use crate::words::{
    number_or_none, number_text, place_text, printed_digits, printed_text, with_digits, word_of,
};
use ls_formats::{
    FileName, FilePart, FormatFault, HandleFile, MetricsFile, PwdData, SlotFile, file_fault,
};
use std::alloc::Global;

/// The name as it is printed, or the place of the first byte that no name has there.
pub fn named(alloc: Global, args: &[Vec<u8>]) -> Result<String, RowFault> {
    match args {
        [bytes] => match FileName::parse(bytes) {
            Ok(name) => printed_text(alloc, name.print(alloc)),
            Err(fault) => fault_text(alloc, fault),
        },
        _ => Err(RowFault::Form),
    }
}

fn fault_text(alloc: Global, fault: FormatFault) -> Result<String, RowFault> {
    match fault {
        FormatFault::Bad { at } => place_text(alloc, "bad", at),
        FormatFault::Memory => Err(RowFault::Memory),
    }
}

/// The place of the first wrong byte of a file, or `-`.
pub fn fault(alloc: Global, args: &[Vec<u8>]) -> Result<String, RowFault> {
    match args {
        [part, bytes] => match part_of(word_of(part)?)? {
            FilePart::SpBlob => Err(RowFault::Form),
            part => number_or_none(alloc, file_fault(part, bytes)),
        },
        _ => Err(RowFault::Form),
    }
}

fn part_of(name: &str) -> Result<FilePart, RowFault> {
    match name {
        "pwd" => Ok(FilePart::Pwd),
        "secdis" => Ok(FilePart::Secdis),
        "weaver" => Ok(FilePart::Weaver),
        "metrics" => Ok(FilePart::Metrics),
        "handle" => Ok(FilePart::Handle),
        "e0" => Ok(FilePart::E0),
        "p1" => Ok(FilePart::P1),
        "resume" => Ok(FilePart::Resume),
        _ => Err(RowFault::Form),
    }
}

/// The kind, the counts, and the bytes as they are printed; or the first fault.
pub fn metrics(alloc: Global, args: &[Vec<u8>]) -> Result<String, RowFault> {
    match args {
        [bytes] => match MetricsFile::parse(bytes) {
            Ok(file) => {
                let counts = counts_of(alloc, &file.metrics);
                with_digits(alloc, counts, file.print(alloc))
            }
            Err(fault) => fault_text(alloc, fault),
        },
        _ => Err(RowFault::Form),
    }
}

/// The number of the slot, and the bytes as they are printed; or the first fault.
pub fn slot(alloc: Global, args: &[Vec<u8>]) -> Result<String, RowFault> {
    match args {
        [bytes] => match SlotFile::parse(bytes) {
            Ok(file) => {
                let slot = number_text(alloc, u64::from(file.slot));
                with_digits(alloc, slot, file.print(alloc))
            }
            Err(fault) => fault_text(alloc, fault),
        },
        _ => Err(RowFault::Form),
    }
}

/// The bytes of a handle as they are printed, or the first fault.
pub fn handle(alloc: Global, args: &[Vec<u8>]) -> Result<String, RowFault> {
    match args {
        [bytes] => match HandleFile::parse(bytes) {
            Ok(file) => printed_digits(alloc, file.print(alloc)),
            Err(fault) => fault_text(alloc, fault),
        },
        _ => Err(RowFault::Form),
    }
}

/// The bytes of a cost as they are printed, or the first fault.
pub fn cost(alloc: Global, args: &[Vec<u8>]) -> Result<String, RowFault> {
    match args {
        [bytes] => match PwdData::parse(bytes) {
            Ok(cost) => printed_digits(alloc, cost.print(alloc)),
            Err(fault) => fault_text(alloc, fault),
        },
        _ => Err(RowFault::Form),
    }
}
