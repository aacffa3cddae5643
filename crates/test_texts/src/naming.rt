//! What a record names.

use crate::fault::RowFault;
use crate::words::{byte_of, made, number_of, printed_text, put_made, said, yes_or_no};
use ls_bytes::Memory;
use ls_formats::{FileName, PartName};
use ls_naming::{
    PartNames, has_credential, has_secure, is_armed, names_enrolled, names_file, names_key,
    row_files,
};
use ls_record::{Record, UserRow};
use std::alloc::Global;

/// Whether it names the file with this name, with Weaver and without it.
pub fn file(alloc: Global, record: &Record, args: &[Vec<u8>]) -> Result<String, RowFault> {
    match args {
        [name] => match FileName::parse(name) {
            Ok(name) => facts(
                alloc,
                names(record, true, &name),
                names(record, false, &name),
            ),
            Err(_) => Err(RowFault::Form),
        },
        _ => Err(RowFault::Form),
    }
}

fn names(record: &Record, weaver: bool, name: &FileName) -> bool {
    match name {
        FileName::Protector(name) => names_file(record, weaver, name),
        FileName::Settings(_) => false,
    }
}

/// What is so with Weaver, and without it.
fn facts(alloc: Global, with: bool, without: bool) -> Result<String, RowFault> {
    let with = yes_or_no(with);
    let without = yes_or_no(without);
    made(format!(in alloc; "{with} {without}"))
}

/// Whether it names the key with this alias.
pub fn key(alloc: Global, record: &Record, args: &[Vec<u8>]) -> Result<String, RowFault> {
    match args {
        [id] => said(alloc, yes_or_no(names_key(record, number_of(id)?))),
        _ => Err(RowFault::Form),
    }
}

/// Whether the id is enrolled, with Weaver and without it.
pub fn enrolled(alloc: Global, record: &Record, args: &[Vec<u8>]) -> Result<String, RowFault> {
    match args {
        [id] => {
            let id = number_of(id)?;
            let with = names_enrolled(record, true, id);
            let without = names_enrolled(record, false, id);
            facts(alloc, with, without)
        }
        _ => Err(RowFault::Form),
    }
}

/// The names of the files of its first row, with Weaver (1) or without it.
pub fn files(alloc: Global, record: &Record, args: &[Vec<u8>]) -> Result<String, RowFault> {
    match args {
        [weaver] => {
            let weaver = byte_of(weaver)? == 1;
            match record.users.get(0) {
                Some(row) => names_in(alloc, row_files(alloc, weaver, &record.armed, row)),
                None => said(alloc, "-"),
            }
        }
        _ => Err(RowFault::Form),
    }
}

fn names_in(alloc: Global, names: Result<PartNames, Memory>) -> Result<String, RowFault> {
    match names {
        Ok(names) => names_text(alloc, names.as_slice()),
        Err(_) => Err(RowFault::Memory),
    }
}

fn names_text(alloc: Global, names: &[PartName]) -> Result<String, RowFault> {
    let mut words = String::new(alloc);
    for name in names {
        put_made(&mut words, name_text(alloc, *name))?;
    }
    Ok(words)
}

fn name_text(alloc: Global, name: PartName) -> Result<String, RowFault> {
    printed_text(alloc, FileName::Protector(name).print(alloc))
}

/// Whether the user of this row has a credential, has a secure id, and is armed; `-` for no row.
pub fn has(alloc: Global, record: &Record, args: &[Vec<u8>]) -> Result<String, RowFault> {
    match args {
        [at] => match record.users.get(u32::from(byte_of(at)?)) {
            Some(row) => row_text(alloc, record, row),
            None => said(alloc, "-"),
        },
        _ => Err(RowFault::Form),
    }
}

fn row_text(alloc: Global, record: &Record, row: &UserRow) -> Result<String, RowFault> {
    let credential = yes_or_no(has_credential(row.kind));
    let secure = yes_or_no(has_secure(row));
    let armed = yes_or_no(is_armed(&record.armed, row.user));
    made(format!(in alloc; "{credential} {secure} {armed}"))
}
