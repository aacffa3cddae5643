//! A reader of a record's fields, which knows where the bytes end.
ghost use Rattle.std.specs.Prelude.{◌≡◌, ◌<◌, [], length, IsTrue, IfOk, IfErr, ◌↔◌};
ghost use Rattle.ls_record.specs.declared.fault.RecordFault.TheVariants as fault;

use crate::fault::RecordFault;
use ls_bytes::Reader;
use std::marker::Model;

/// Reads fields one after another. Contracts see the bytes that are left, and how many there were.
#[derive(Drop)]
pub(crate) struct BodyReader<'a> {
    reader: Reader<'a>,
    all: u32,
}

impl<'a> Model for BodyReader<'a> {
    ghost use Rattle.std.specs.Prelude.{◌≡◌, ◌+◌, length};
    ghost use Rattle.ls_bytes.specs.Reading.{Reading};

    ghost Value = { Reading };

    ghost view = { λ b. record { left = b.reader.left; at = b.reader.at } };

    ghost invariant = { λ b. b.reader.at + length b.reader.left ≡ b.all };
}

impl<'a> BodyReader<'a> {
    ghost use Rattle.ls_record.specs.Reading.{front_of, end_of};
    ghost use Rattle.ls_record.specs.Gives.{IsNumber};

    /// A reader at the first byte. So many bytes that a place of them may not fit its number have
    /// no room in memory.
    pub fn new(bytes: &'a [u8]) -> Result<BodyReader<'a>, RecordFault>
        ensures first { IfOk result (λ b. b ≡ front_of bytes.now) }
        ensures memory { IfErr result (λ e. e ≡ fault.Memory) }
    {
        if bytes.len() >= 1 << 31 {
            return Err(RecordFault::Memory);
        }
        Ok(BodyReader {
            reader: Reader::new(bytes),
            all: bytes.len() as u32,
        })
    }

    /// The place of the next field.
    pub fn at(&self) -> u32
        ensures place { result ≡ self.now.at }
    {
        self.reader.at()
    }

    /// Whether no bytes are left.
    pub fn ended(&self) -> bool
        ensures none_left { IsTrue result ↔ (self.now.left ≡ []) }
    {
        self.reader.ended()
    }

    /// The next byte.
    pub fn byte(&mut self) -> Result<u8, RecordFault>
        ensures read { IfOk result (λ n. IsNumber 1 n self.old self.new) }
        ensures short { IfErr result (λ e.
            (length self.old.left < 1) × (e ≡ fault.Short (end_of self.old))) }
    {
        let all = self.all;
        match self.reader.u8() {
            Ok(n) => Ok(n),
            Err(_) => Err(RecordFault::Short { at: all }),
        }
    }

    /// The next number of 32 bits.
    pub fn number_32(&mut self) -> Result<u32, RecordFault>
        ensures read { IfOk result (λ n. IsNumber 4 n self.old self.new) }
        ensures short { IfErr result (λ e.
            (length self.old.left < 4) × (e ≡ fault.Short (end_of self.old))) }
    {
        let all = self.all;
        match self.reader.be32() {
            Ok(n) => Ok(n),
            Err(_) => Err(RecordFault::Short { at: all }),
        }
    }

    /// The next number of 64 bits.
    pub fn number_64(&mut self) -> Result<u64, RecordFault>
        ensures read { IfOk result (λ n. IsNumber 8 n self.old self.new) }
        ensures short { IfErr result (λ e.
            (length self.old.left < 8) × (e ≡ fault.Short (end_of self.old))) }
    {
        let all = self.all;
        match self.reader.be64() {
            Ok(n) => Ok(n),
            Err(_) => Err(RecordFault::Short { at: all }),
        }
    }
}
