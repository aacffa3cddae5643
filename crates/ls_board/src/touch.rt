//! How files were touched since the last sync.
ghost use Rattle.std.specs.Prelude.{◌≡◌, ◌≤◌, ◌++◌, ◌∷◌, [], length, slice_get, None, Some, IfSome, IfNone, OnOk, OnErr, IfOk};
ghost use Rattle.std.specs.FinMap.Entries.{find, put};
ghost use Rattle.ls_board.specs.Order.{byte_cmp, IsSorted, IsTable};

use crate::files::copied_name;
use crate::rows::{Ranked, copied_list, copied_rows, push_row, put_row};
use ls_bytes::{Bytes, Memory, Name, Rows};
use std::alloc::Global;
use std::cmp::Ordering;
use std::marker::Model;

/// A range of bytes of a file.
#[derive(Clone, Copy, Debug, PartialEq, Eq)]
pub struct Span {
    /// Where it begins.
    pub at: u32,
    /// How many bytes it has.
    pub len: u32,
}

/// A list of ranges.
pub type SpanList = Rows<Span>;

/// How a file was touched since the last sync.
#[derive(Drop)]
pub enum Touch {
    /// It was only poked, in these ranges.
    Poked(SpanList),
    /// It was only made; before that it held these bytes, or was absent.
    Made(Option<Bytes>),
    /// Anything else.
    Other,
}

impl Touch {
    /// The same again.
    pub fn copy(&self, alloc: Global) -> Result<Touch, Memory>
        ensures same { IfOk result (λ t. t ≡ self.now) }
    {
        match self {
            Touch::Poked(spans) => Ok(Touch::Poked(copied_list(alloc, spans)?)),
            Touch::Made(None) => Ok(Touch::Made(None)),
            Touch::Made(Some(bytes)) => Ok(Touch::Made(Some(Bytes::of(alloc, bytes.as_slice())?))),
            Touch::Other => Ok(Touch::Other),
        }
    }
}

/// A file that was touched.
#[derive(Drop)]
pub struct TouchRow {
    pub name: Name,
    pub how: Touch,
}

impl Model for TouchRow {
    ghost use Rattle.std.specs.Prelude.{List, ℕ};
    ghost use Rattle.ls_board.specs.declared.touch.Touch.{Touch};

    ghost Value = { List ℕ × Touch };

    ghost view = { λ r. (r.name, r.how) };
}

impl Ranked for TouchRow {
    ghost ranking = { λ r s. byte_cmp r.0 s.0 };

    fn rank(&self, other: &TouchRow) -> Ordering {
        self.name.as_slice().cmp(other.name.as_slice())
    }

    fn copy(&self, alloc: Global) -> Result<TouchRow, Memory> {
        Ok(TouchRow {
            name: copied_name(alloc, &self.name)?,
            how: self.how.copy(alloc)?,
        })
    }
}

/// The touched files, in the ascending order of their names.
#[derive(Drop)]
pub struct TouchTable {
    alloc: Global,
    rows: Vec<TouchRow>,
}

impl Model for TouchTable {
    ghost use Rattle.std.specs.Prelude.{List, ℕ};
    ghost use Rattle.ls_board.specs.declared.touch.Touch.{Touch};
    ghost use Rattle.ls_board.specs.Order.{byte_cmp, IsTable};

    ghost Value = { List (List ℕ × Touch) };

    ghost view = { λ t. t.rows.items };

    ghost invariant = { λ t. IsTable byte_cmp t.rows.items };
}

impl TouchTable {
    /// No file was touched.
    pub fn new(alloc: Global) -> TouchTable
        ensures empty { result ≡ [] }
    {
        TouchTable {
            alloc,
            rows: Vec::new(alloc),
        }
    }

    /// How many files were touched.
    pub fn len(&self) -> u32
        ensures count { result ≡ length self.now }
        ensures table { IsTable byte_cmp self.now }
    {
        self.rows.len() as u32
    }

    /// The row at this place, if there is one.
    pub fn get(&self, at: u32) -> Option<&TouchRow>
        ensures found { IfSome result (λ r. slice_get self.now at ≡ Some r.now) }
        ensures past { IfNone result (length self.now ≤ at) }
    {
        self.rows.get(at as usize)
    }

    /// How the file of this name was touched, if it was.
    pub fn how(&self, name: &[u8]) -> Option<&Touch>
        ensures there { IfSome result (λ how. find byte_cmp name.now self.now ≡ Some how.now) }
        ensures untouched { IfNone result (find byte_cmp name.now self.now ≡ None) }
    {
        for row in &self.rows {
            if name.cmp(row.name.as_slice()).is_eq() {
                return Some(&row.how);
            }
        }
        None
    }

    /// Says how the file of this name was touched.
    pub fn put(&mut self, name: &Name, how: Touch) -> Result<(), Memory>
        ensures put { OnOk result (self.new ≡ put byte_cmp name.now how self.old) }
        ensures kept { OnErr result (self.new ≡ self.old) }
    {
        if self.rows.len() >= u32::MAX as usize {
            return Err(Memory);
        }
        let row = TouchRow {
            name: copied_name(self.alloc, name)?,
            how,
        };
        put_row(&mut self.rows, row)
    }

    /// Adds a row at the end.
    pub fn push(&mut self, row: TouchRow) -> Result<(), Memory>
        requires ascending { IsSorted byte_cmp (self.old ++ row ∷ []) }
        ensures pushed { OnOk result (self.new ≡ self.old ++ row ∷ []) }
        ensures kept { OnErr result (self.new ≡ self.old) }
    {
        push_row(&mut self.rows, row)
    }

    /// The same rows again.
    pub fn copy(&self) -> Result<TouchTable, Memory>
        ensures same { IfOk result (λ t. t ≡ self.now) }
    {
        Ok(TouchTable {
            alloc: self.alloc,
            rows: copied_rows(self.alloc, &self.rows)?,
        })
    }
}
