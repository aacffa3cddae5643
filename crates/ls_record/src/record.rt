//! The record of users.
ghost use Rattle.std.specs.Prelude.{◌≡◌, MatchResult, Ok};
ghost use Rattle.ls_record.specs.declared.fault.RecordFault.TheVariants as fault;
ghost use Rattle.ls_record.specs.Reading.{record_of};
ghost use Rattle.ls_record.specs.Gives.{Tells};

use crate::body::BodyReader;
use crate::copying::copy_rows;
use crate::fault::RecordFault;
use crate::row::RowList;
use crate::writing::{put_arming, put_count, put_rows};
use ls_arming::{Arming, copy_arming};
use ls_bytes::{Bytes, Memory};
use std::alloc::Global;
use std::marker::Model;

/// The users, ascending, and the arming of a resume. It keeps the rules of the format: it has at
/// most 16 rows, and no protector, secure id or token is in two of them.
#[derive(Drop)]
pub struct Record {
    pub users: RowList,
    pub armed: Option<Arming>,
}

impl Model for Record {
    ghost use Rattle.ls_record.specs.Rows.{Rec, IsRecord, rec};

    ghost Value = { Rec };

    ghost view = { λ r. rec r.users r.armed };

    ghost invariant = { λ r. IsRecord (rec r.users r.armed) };
}

impl Record {
    ghost use Rattle.std.specs.Prelude.{IfOk, [], None};
    ghost use Rattle.ls_record.specs.Rows.{Rec, IsRecord, rec};
    ghost use Rattle.ls_record.specs.Spelling.{IsTextOf, record_bytes};

    /// The record without users.
    pub fn new(alloc: Global) -> Record
        ensures blank { result ≡ rec [] None }
    {
        Record {
            users: RowList::new(alloc),
            armed: None,
        }
    }

    /// The record that the bytes are, in format 01 or 02.
    pub fn parse(alloc: Global, bytes: &[u8]) -> Result<Record, RecordFault>
        // What is read is a record, and the bytes are its spelling.
        ensures found { IfOk result (IsTextOf bytes.now) }
        // A spelling is read, unless memory runs out.
        ensures only { (r : Rec) → IsTextOf bytes.now r →
            MatchResult result (λ v. v ≡ r) (λ e. e ≡ fault.Memory) }
        // Which fault it is.
        ensures exact { MatchResult result (λ r. record_of bytes.now ≡ Ok r)
            (Tells (record_of bytes.now)) }
    {
        Record::read(alloc, bytes)
    }

    /// The one spelling of the record in format 02.
    pub fn print(&self, alloc: Global) -> Result<Bytes, Memory>
        ensures spelled { IfOk result (λ bytes. bytes ≡ record_bytes 2 self.now) }
        ensures kept { IsRecord self.now }
    {
        let users = &self.users;
        let mut to = Bytes::of(alloc, &[2])?;
        put_count(&mut to, users.as_slice().len())?;
        put_rows(&mut to, users.as_slice())?;
        put_arming(&mut to, &self.armed)?;
        Ok(to)
    }

    /// An equal record.
    pub fn copy(&self, alloc: Global) -> Result<Record, Memory>
        ensures same { IfOk result (λ copy. copy ≡ self.now) }
    {
        let users = copy_rows(alloc, self.users.as_slice())?;
        let armed = copy_arming(alloc, &self.armed)?;
        Ok(Record { users, armed })
    }

    fn read(alloc: Global, bytes: &[u8]) -> Result<Record, RecordFault>
        ensures exact { MatchResult result (λ r. record_of bytes.now ≡ Ok r)
            (Tells (record_of bytes.now)) }
    {
        let mut reader = BodyReader::new(bytes)?;
        let format = reader.count(1, 2)?;
        let n = reader.count(0, 16)?;
        let users = reader.rows(alloc, format, n)?;
        let armed = reader.arming(alloc, users.as_slice())?;
        if !reader.ended() {
            return Err(RecordFault::Extra { at: reader.at() });
        }
        Ok(Record { users, armed })
    }
}
