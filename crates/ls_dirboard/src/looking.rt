//! All entries of the directory, one after another.

use crate::disk::{Disk, is_secure};
use ls_board::FileTable;
use ls_bytes::{Name, NameFault};
use std::alloc::Global;
use std::fs::{self, File, Metadata};
use std::io::{self, ErrorKind};

/// Whether it is a plain file. One that went meanwhile is none.
fn is_plain(found: io::Result<Metadata>) -> io::Result<bool> {
    match found {
        Ok(found) => Ok(found.is_file()),
        Err(e) if e.kind() == ErrorKind::NotFound => Ok(false),
        Err(e) => Err(e),
    }
}

/// The name of a file of the board, if the bytes are one.
fn board_name(alloc: Global, bytes: &[u8]) -> io::Result<Option<Name>> {
    if is_secure(bytes) {
        return Ok(None);
    }
    match Name::of(alloc, bytes) {
        Ok(name) => Ok(Some(name)),
        Err(NameFault::Memory) => Err(ErrorKind::OutOfMemory.into()),
        Err(_) => Ok(None),
    }
}

impl Disk {
    /// The files of the board, without what they hold.
    pub(crate) fn list(&self, alloc: Global) -> io::Result<FileTable> {
        let mut files = FileTable::new(alloc);
        for entry in fs::read_dir(&self.rt, self.front.as_str())? {
            let entry = entry?;
            let Some(name) = board_name(alloc, entry.file_name().as_bytes())? else {
                continue;
            };
            if is_plain(entry.metadata())? && files.put(&name, &[]).is_err() {
                return Err(ErrorKind::OutOfMemory.into());
            }
        }
        Ok(files)
    }

    /// Syncs all plain files of the directory, and the directory: an earlier run can have been
    /// ended before it did.
    pub(crate) fn settle(&self) -> io::Result<()> {
        for entry in fs::read_dir(&self.rt, self.front.as_str())? {
            match entry {
                Ok(entry) => {
                    if is_plain(entry.metadata())? {
                        File::open(&self.rt, entry.path())?.sync_all()?;
                    }
                }
                Err(e) if e.kind() == ErrorKind::InvalidFilename => {}
                Err(e) => return Err(e),
            }
        }
        self.folder.sync_all()
    }
}
