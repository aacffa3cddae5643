//! A reader of fields, from the first byte to the last. Numbers are big-endian.
ghost use Rattle.std.specs.Prelude.{◌≡◌, ◌<◌, ◌+◌, ◌^◌, ◌∷◌, ◌↔◌, [], length, IfOk, IfErr, OnErr, IsErr, IsTrue};
ghost use Rattle.byteorder.specs.Endian.{big_number};
ghost use Rattle.ls_bytes.specs.Fields.{be32, be64};
ghost use Rattle.ls_bytes.specs.Reading.{Reads};

use byteorder::{BigEndian, ByteOrder};
use std::marker::Model;

/// A field that doesn't fit: fewer bytes are left than it has.
#[derive(Clone, Copy, Debug, PartialEq, Eq)]
pub struct Short {
    /// The reader's place, from 0.
    pub at: u32,
}

/// Reads fields one after another. Contracts see the bytes that are left, and the place. A field
/// that doesn't fit leaves the reader as it was.
#[derive(Drop)]
pub struct Reader<'a> {
    left: &'a [u8],
    at: u32,
}

impl<'a> Model for Reader<'a> {
    ghost use Rattle.std.specs.Prelude.{◌<◌, ◌+◌, ◌^◌, length};
    ghost use Rattle.ls_bytes.specs.Reading.{Reading};

    ghost Value = { Reading };

    ghost view = { λ r. record { left = r.left.now; at = r.at } };

    ghost invariant = { λ r. r.at + length r.left.now < 2 ^ 31 };
}

/// The number that a field of four bytes is.
fn number_32(field: &[u8]) -> u32
    requires { length field.now ≡ 4 }
    ensures value { result ≡ big_number 4 field.now }
    ensures field { be32 result ≡ field.now }
{
    BigEndian::read_u32(field)
}

/// The number that a field of eight bytes is.
fn number_64(field: &[u8]) -> u64
    requires { length field.now ≡ 8 }
    ensures value { result ≡ big_number 8 field.now }
    ensures field { be64 result ≡ field.now }
{
    BigEndian::read_u64(field)
}

impl<'a> Reader<'a> {
    /// A reader at the first of fewer than 2^31 bytes.
    pub fn new(b: &'a [u8]) -> Reader<'a>
        requires { length b.now < 2 ^ 31 }
        ensures all { result.left ≡ b.now }
        ensures first { result.at ≡ 0 }
    {
        Reader { left: b, at: 0 }
    }

    /// The place, from 0: how many bytes were read.
    pub fn at(&self) -> u32
        ensures place { result ≡ self.now.at }
        ensures small { self.now.at + length self.now.left < 2 ^ 31 }
    {
        self.at
    }

    /// Whether no bytes are left.
    pub fn ended(&self) -> bool
        ensures none_left { IsTrue result ↔ (self.now.left ≡ []) }
    {
        self.left.is_empty()
    }

    /// Reads one byte.
    pub fn u8(&mut self) -> Result<u8, Short>
        ensures read { IfOk result (λ v. Reads 1 (v ∷ []) self.old self.new) }
        ensures short { IsErr result ↔ (length self.old.left < 1) }
        ensures place { IfErr result (λ e. e.at ≡ self.old.at) }
        ensures kept { OnErr result (self.new ≡ self.old) }
    {
        Ok(self.bytes(1)?[0])
    }

    /// Reads a number of 32 bits, from four bytes.
    pub fn be32(&mut self) -> Result<u32, Short>
        ensures read { IfOk result (λ v. Reads 4 (be32 v) self.old self.new) }
        ensures value { IfOk result (λ v. v ≡ big_number 4 self.old.left) }
        ensures short { IsErr result ↔ (length self.old.left < 4) }
        ensures place { IfErr result (λ e. e.at ≡ self.old.at) }
        ensures kept { OnErr result (self.new ≡ self.old) }
    {
        Ok(number_32(self.bytes(4)?))
    }

    /// Reads a number of 64 bits, from eight bytes.
    pub fn be64(&mut self) -> Result<u64, Short>
        ensures read { IfOk result (λ v. Reads 8 (be64 v) self.old self.new) }
        ensures value { IfOk result (λ v. v ≡ big_number 8 self.old.left) }
        ensures short { IsErr result ↔ (length self.old.left < 8) }
        ensures place { IfErr result (λ e. e.at ≡ self.old.at) }
        ensures kept { OnErr result (self.new ≡ self.old) }
    {
        Ok(number_64(self.bytes(8)?))
    }

    /// Reads n bytes.
    pub fn bytes(&mut self, n: u32) -> Result<&'a [u8], Short>
        ensures read { IfOk result (λ v. Reads n v.now self.old self.new) }
        ensures short { IsErr result ↔ (length self.old.left < n) }
        ensures place { IfErr result (λ e. e.at ≡ self.old.at) }
        ensures kept { OnErr result (self.new ≡ self.old) }
    {
        if self.left.len() < n as usize {
            return Err(Short { at: self.at });
        }
        let (field, left) = self.left.split_at(n as usize);
        self.left = left;
        self.at += n;
        Ok(field)
    }
}
