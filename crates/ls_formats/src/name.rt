//! The names of settings files and of protector files.
ghost use Rattle.std.specs.Prelude.{◌≡◌, ◌≢◌, ◌≤◌, MatchBool, IfOk, length};
ghost use Rattle.ls_bytes.specs.Names.{IsName};
ghost use Rattle.ls_formats.specs.Faults.{Parses, HasFault, Spells};
ghost use Rattle.ls_formats.specs.Format.{first_fault};
ghost use Rattle.ls_formats.specs.PartNames.{PartOf, IsPartOf, part_text, part_name_text};
ghost use Rattle.ls_formats.specs.declared.part.FilePart.{FilePart as Parts};

use crate::fault::FormatFault;
use crate::hex_number::{hex_u32, hex_u64};
use crate::name_fault::name_fault;
use crate::part::{FilePart, part_text};
use crate::part_name::PartName;
use crate::side::Side;
use ls_bytes::{Bytes, Memory, hex_lower, put_bytes, put_u8};
use std::alloc::Global;

/// The name of one of the service's files.
#[derive(Clone, Copy, Debug, PartialEq, Eq)]
pub enum FileName {
    /// `settings.0` or `settings.1`
    Settings(Side),
    /// A user in 8 digits of hex, an id in 16 and the part, with dots between them.
    Protector(PartName),
}

impl FileName {
    ghost use Rattle.ls_formats.specs.declared.name.FileName.{FileName as FileNames};
    ghost use Rattle.ls_formats.specs.FileNames.{IsFileName, name_text, name_format};

    /// What the name names.
    pub fn parse(bytes: &[u8]) -> Result<FileName, FormatFault>
        ensures exact { Parses IsFileName name_text bytes.now result }
        ensures fault { HasFault result (first_fault name_format bytes.now) }
    {
        match name_fault(bytes) {
            Some(at) => Err(FormatFault::Bad { at }),
            None => Ok(FileName::read(bytes)),
        }
    }

    /// What a name of the format names.
    fn read(bytes: &[u8]) -> FileName
        requires { Spells IsFileName name_text bytes.now }
        ensures again { (name : FileNames) → IsFileName name → name_text name ≡ bytes.now →
            result ≡ name }
    {
        if is_text(b"settings.0", bytes) {
            FileName::Settings(Side::First)
        } else if is_text(b"settings.1", bytes) {
            FileName::Settings(Side::Second)
        } else {
            FileName::Protector(part_name_of(bytes))
        }
    }

    /// The one spelling of the name.
    pub fn print(&self, alloc: Global) -> Result<Bytes, Memory>
        ensures spelled { IfOk result (λ text. text ≡ name_text self.now) }
        ensures is_name { IfOk result IsName }
        ensures kept { IsFileName self.now }
    {
        match self {
            FileName::Settings(side) => Bytes::of(alloc, side.file_name()),
            FileName::Protector(name) => print_part_name(alloc, name),
        }
    }
}

fn is_text(text: &[u8], bytes: &[u8]) -> bool
    ensures same { MatchBool result (bytes.now ≡ text.now) (bytes.now ≢ text.now) }
{
    bytes == text
}

/// What the name of a protector's file names.
fn part_name_of(bytes: &[u8]) -> PartName
    requires spelled { Spells IsPartOf part_name_text bytes.now }
    requires long { 26 ≤ length bytes.now }
    ensures again { (name : PartOf) → IsPartOf name → part_name_text name ≡ bytes.now →
        result ≡ name }
{
    PartName {
        user: hex_u32(&bytes[..8]),
        id: hex_u64(&bytes[9..25]),
        part: part_of(&bytes[26..]),
    }
}

/// The part whose name this is.
fn part_of(text: &[u8]) -> FilePart
    ensures named { (part : Parts) → part_text part ≡ text.now → result ≡ part }
{
    match text {
        b"pwd" => FilePart::Pwd,
        b"secdis" => FilePart::Secdis,
        b"weaver" => FilePart::Weaver,
        b"metrics" => FilePart::Metrics,
        b"handle" => FilePart::Handle,
        b"e0" => FilePart::E0,
        b"p1" => FilePart::P1,
        b"resume" => FilePart::Resume,
        _ => FilePart::SpBlob,
    }
}

fn print_part_name(alloc: Global, name: &PartName) -> Result<Bytes, Memory>
    ensures spelled { IfOk result (λ text. text ≡ part_name_text name.now) }
    ensures kept { IsPartOf name.now }
{
    let mut text = hex_lower(alloc, &name.user.to_be_bytes())?;
    put_u8(&mut text, b'.')?;
    put_bytes(
        &mut text,
        hex_lower(alloc, &name.id.to_be_bytes())?.as_slice(),
    )?;
    put_u8(&mut text, b'.')?;
    put_bytes(&mut text, part_text(name.part))?;
    Ok(text)
}
