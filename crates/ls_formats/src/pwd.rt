//! The file with a credential's kind, cost, salt and Gatekeeper handle.
ghost use Rattle.std.specs.Prelude.{◌≡◌, ◌≢◌, ◌≤◌, slice_index, length, take, drop, None, Some, if◌then◌else◌, ◌==◌, ◌++◌, OnOk};
ghost use Rattle.ls_formats.specs.Contents.{handle_part};
ghost use Rattle.ls_formats.specs.Format.{IsIn, first_fault};
ghost use Rattle.ls_formats.specs.Faults.{Parses, HasFault};
ghost use Rattle.ls_formats.specs.Files.{format_of};

use crate::array::array_at;
use crate::fault::FormatFault;
use crate::file::file_fault;
use crate::kinds::stored_kind;
use crate::part::FilePart;
use ls_bytes::{Bytes, Memory, put_bytes, put_u8};
use ls_credential::Kind;
use std::alloc::Global;
use std::marker::Model;

/// A credential's kind, which isn't none, the powers of two of its cost (1 to 14, 0 to 4, 0 to 3),
/// its salt, and without Weaver its Gatekeeper handle.
#[derive(Debug, Drop)]
pub struct PwdData {
    pub kind: Kind,
    pub log_n: u8,
    pub log_r: u8,
    pub log_p: u8,
    pub salt: [u8; 16],
    pub handle: Option<[u8; 49]>,
}

impl Model for PwdData {
    ghost use Rattle.ls_formats.specs.Contents.{Pwd, IsPwd, pwd};

    ghost Value = { Pwd };

    ghost view = { λ p. pwd p.kind p.log_n p.log_r p.log_p p.salt p.handle };

    ghost invariant = { λ p. IsPwd (pwd p.kind p.log_n p.log_r p.log_p p.salt p.handle) };
}

impl PwdData {
    ghost use Rattle.std.specs.Prelude.{IfOk};
    ghost use Rattle.ls_formats.specs.Contents.{IsPwd, pwd_bytes, pwd_of};

    /// What the file says.
    pub fn parse(bytes: &[u8]) -> Result<PwdData, FormatFault>
        ensures exact { Parses IsPwd pwd_bytes bytes.now result }
        ensures of { IfOk result (λ pwd. pwd ≡ pwd_of bytes.now) }
        ensures fault { HasFault result (first_fault (format_of FilePart.Pwd) bytes.now) }
    {
        match file_fault(FilePart::Pwd, bytes) {
            Some(at) => Err(FormatFault::Bad { at }),
            None => Ok(PwdData::read(bytes)),
        }
    }

    /// What a file of the format says.
    fn read(bytes: &[u8]) -> PwdData
        requires format { IsIn (format_of FilePart.Pwd) bytes.now }
        requires long { 21 ≤ length bytes.now }
        requires handle { slice_index bytes.now 20 ≢ 0 → 70 ≤ length bytes.now }
        ensures same { result ≡ pwd_of bytes.now }
    {
        PwdData {
            kind: stored_kind(bytes[0]),
            log_n: bytes[1],
            log_r: bytes[2],
            log_p: bytes[3],
            salt: array_at(bytes, 4),
            handle: handle_behind(bytes),
        }
    }

    /// The one spelling of it.
    pub fn print(&self, alloc: Global) -> Result<Bytes, Memory>
        ensures spelled { IfOk result (λ bytes. bytes ≡ pwd_bytes self.now) }
        ensures kept { IsPwd self.now }
    {
        let mut bytes = Bytes::of(
            alloc,
            &[self.kind.code(), self.log_n, self.log_r, self.log_p],
        )?;
        put_bytes(&mut bytes, &self.salt)?;
        put_handle(&mut bytes, &self.handle)?;
        Ok(bytes)
    }
}

/// The handle at the end, where there is one.
fn handle_behind(bytes: &[u8]) -> Option<[u8; 49]>
    requires some { 21 ≤ length bytes.now }
    requires all { slice_index bytes.now 20 ≢ 0 → 70 ≤ length bytes.now }
    ensures same { result ≡
        (if slice_index bytes.now 20 == 0 then None else Some (take 49 (drop 21 bytes.now))) }
{
    if bytes[20] == 0 {
        None
    } else {
        Some(array_at(bytes, 21))
    }
}

/// Puts the length of a handle, and the handle, at the end.
fn put_handle(to: &mut Bytes, handle: &Option<[u8; 49]>) -> Result<(), Memory>
    ensures put { OnOk result (to.new ≡ to.old ++ handle_part handle.now) }
{
    match handle {
        None => put_u8(to, 0),
        Some(handle) => {
            put_u8(to, 49)?;
            put_bytes(to, handle)
        }
    }
}
