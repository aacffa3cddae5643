//! Files by their names.
ghost use Rattle.std.specs.Prelude.{◌≡◌, ◌≤◌, ◌++◌, ◌∷◌, [], length, slice_get, None, Some, IfSome, IfNone, IfOk, OnOk, OnErr};
ghost use Rattle.std.specs.FinMap.Entries.{find, put};
ghost use Rattle.ls_board.specs.Order.{byte_cmp, without, IsSorted, IsTable};

use crate::rows::{Ranked, copied_rows, push_row, put_row};
use ls_bytes::{Bytes, Memory, Name};
use std::alloc::Global;
use std::cmp::Ordering;
use std::marker::Model;

/// A file.
#[derive(Drop)]
pub struct FileRow {
    pub name: Name,
    pub bytes: Bytes,
}

impl Model for FileRow {
    ghost use Rattle.std.specs.Prelude.{List, ℕ};

    ghost Value = { List ℕ × List ℕ };

    ghost view = { λ r. (r.name, r.bytes) };
}

impl Ranked for FileRow {
    ghost ranking = { λ r s. byte_cmp r.0 s.0 };

    fn rank(&self, other: &FileRow) -> Ordering {
        self.name.as_slice().cmp(other.name.as_slice())
    }

    fn copy(&self, alloc: Global) -> Result<FileRow, Memory> {
        Ok(FileRow {
            name: copied_name(alloc, &self.name)?,
            bytes: Bytes::of(alloc, self.bytes.as_slice())?,
        })
    }
}

/// The files, in the ascending order of their names.
#[derive(Drop)]
pub struct FileTable {
    alloc: Global,
    rows: Vec<FileRow>,
}

impl Model for FileTable {
    ghost use Rattle.std.specs.Prelude.{List, ℕ};
    ghost use Rattle.ls_board.specs.Order.{byte_cmp, IsTable};

    ghost Value = { List (List ℕ × List ℕ) };

    ghost view = { λ t. t.rows.items };

    ghost invariant = { λ t. IsTable byte_cmp t.rows.items };
}

impl FileTable {
    /// No file.
    pub fn new(alloc: Global) -> FileTable
        ensures empty { result ≡ [] }
    {
        FileTable {
            alloc,
            rows: Vec::new(alloc),
        }
    }

    /// How many files there are.
    pub fn len(&self) -> u32
        ensures count { result ≡ length self.now }
        ensures table { IsTable byte_cmp self.now }
    {
        self.rows.len() as u32
    }

    /// The row at this place, if there is one.
    pub fn get(&self, at: u32) -> Option<&FileRow>
        ensures found { IfSome result (λ r. slice_get self.now at ≡ Some r.now) }
        ensures past { IfNone result (length self.now ≤ at) }
    {
        self.rows.get(at as usize)
    }

    /// What the file of this name holds, if there is one.
    pub fn content(&self, name: &[u8]) -> Option<&[u8]>
        ensures there { IfSome result (λ bytes. find byte_cmp name.now self.now ≡ Some bytes.now) }
        ensures absent { IfNone result (find byte_cmp name.now self.now ≡ None) }
    {
        for row in &self.rows {
            if name.cmp(row.name.as_slice()).is_eq() {
                return Some(row.bytes.as_slice());
            }
        }
        None
    }

    /// Makes the file of this name hold these bytes.
    pub fn put(&mut self, name: &Name, bytes: &[u8]) -> Result<(), Memory>
        ensures put { OnOk result (self.new ≡ put byte_cmp name.now bytes.now self.old) }
        ensures kept { OnErr result (self.new ≡ self.old) }
    {
        if self.rows.len() >= u32::MAX as usize {
            return Err(Memory);
        }
        let row = FileRow {
            name: copied_name(self.alloc, name)?,
            bytes: Bytes::of(self.alloc, bytes)?,
        };
        put_row(&mut self.rows, row)
    }

    /// Takes the file of this name away, if it is there.
    pub fn remove(&mut self, name: &[u8])
        ensures removed { self.new ≡ without byte_cmp name.now self.old }
    {
        self.rows
            .retain(|row| !name.cmp(row.name.as_slice()).is_eq());
    }

    /// Adds a file at the end.
    pub fn push(&mut self, row: FileRow) -> Result<(), Memory>
        requires ascending { IsSorted byte_cmp (self.old ++ row ∷ []) }
        ensures pushed { OnOk result (self.new ≡ self.old ++ row ∷ []) }
        ensures kept { OnErr result (self.new ≡ self.old) }
    {
        push_row(&mut self.rows, row)
    }

    /// The same files again.
    pub fn copy(&self) -> Result<FileTable, Memory>
        ensures same { IfOk result (λ t. t ≡ self.now) }
    {
        Ok(FileTable {
            alloc: self.alloc,
            rows: copied_rows(self.alloc, &self.rows)?,
        })
    }
}

/// The same name again.
pub(crate) fn copied_name(alloc: Global, name: &Name) -> Result<Name, Memory>
    ensures same { IfOk result (λ n. n ≡ name.now) }
{
    match Name::of(alloc, name.as_slice()) {
        Ok(copy) => Ok(copy),
        Err(_) => Err(Memory),
    }
}
