//! The two files that keep the devices, written in turn.
ghost use Rattle.std.specs.Prelude.{◌≡◌, IfOk, OnOk};
ghost use Rattle.ls_secure.specs.Held.{image_of};
ghost use Rattle.ls_secure.specs.Secure.{front};

use crate::disk::{Disk, Found, secure_name};
use ls_bytes::Memory;
use ls_secure::{Devices, Misread, SecureFile, Side, digest_into, parse, print_front};
use std::alloc::{AllocError, Global};
use std::io::{self, ErrorKind};

/// The most bytes by which one action makes the file longer: a key and its alias.
const MOST_ADDED: usize = 40;

/// Bytes of a digest.
const DIGEST: usize = 32;

/// A name that no file of the board has, for a file that is being made.
const NEW: &[u8] = b"secure new";

/// Which of the two counts, and what it says.
#[derive(Drop)]
pub struct Secure {
    /// The number of the file that counts.
    sequence: u64,
    /// Which of the two it is.
    side: Side,
    /// Whether a write failed. Which of the two counts is not known from then on.
    is_lost: bool,
    /// The file that counts, but its digest.
    kept: Vec<u8>,
    /// Room for the next one.
    image: Vec<u8>,
}

impl Secure {
    /// This side counts, with this number, and keeps these devices.
    pub(crate) fn of(
        alloc: Global,
        sequence: u64,
        side: Side,
        devices: &Devices,
    ) -> Result<Secure, AllocError>
        ensures kept { IfOk result
            (λ s. s.kept.items ≡ front (image_of sequence devices.now)) }
        ensures sequence { IfOk result (λ s. s.sequence ≡ sequence) }
    {
        let mut kept = Vec::new(alloc);
        print_front(devices, sequence, &mut kept)?;
        Ok(Secure {
            sequence,
            side,
            is_lost: false,
            kept,
            image: Vec::new(alloc),
        })
    }

    /// Whether the devices may still be asked.
    pub(crate) fn is_lost(&self) -> bool {
        self.is_lost
    }

    /// Makes room for the file after so many actions more, so that none of them takes memory.
    pub(crate) fn make_room(&mut self, actions: u32) -> Result<(), Memory> {
        let more = (actions as usize)
            .saturating_mul(MOST_ADDED)
            .saturating_add(DIGEST);
        self.kept.reserve(more)?;
        self.image.clear();
        self.image.reserve(self.kept.len().saturating_add(more))?;
        Ok(())
    }

    /// Prints the whole file of what is kept.
    fn print(&mut self) -> Result<(), AllocError>
        ensures kept { self.new.kept.items ≡ self.old.kept.items }
        ensures sequence { self.new.sequence ≡ self.old.sequence }
    {
        self.image.clear();
        self.image.extend_from_slice(&self.kept)?;
        digest_into(&mut self.image)
    }

    /// Makes the first of the two files. It has its name only once it is whole.
    pub(crate) fn make(&mut self, disk: &mut Disk) -> io::Result<()> {
        self.print()?;
        disk.put(NEW, &self.image)?;
        disk.rename(NEW, secure_name(Side::First))?;
        disk.sync()
    }

    /// Writes the devices into the other file, which counts from then on, where they aren't as
    /// they were.
    pub(crate) fn save(&mut self, disk: &mut Disk, devices: &Devices) -> io::Result<()>
        ensures kept { OnOk result
            (self.new.kept.items ≡ front (image_of self.new.sequence devices.now)) }
    {
        let outcome = self.write(disk, devices);
        self.is_lost |= outcome.is_err();
        outcome
    }

    fn write(&mut self, disk: &mut Disk, devices: &Devices) -> io::Result<()>
        ensures kept { OnOk result
            (self.new.kept.items ≡ front (image_of self.new.sequence devices.now)) }
    {
        print_front(devices, self.sequence, &mut self.image)?;
        if self.image == self.kept {
            return Ok(());
        }
        let Some(next) = self.sequence.checked_add(1) else {
            return Err(ErrorKind::Other.into());
        };
        self.sequence = next;
        self.side = self.side.other();
        print_front(devices, self.sequence, &mut self.kept)?;
        self.print()?;
        disk.put(secure_name(self.side), &self.image)?;
        disk.sync()
    }
}

/// What stands in the place of this one of the two files.
pub(crate) fn look(alloc: Global, disk: &mut Disk, side: Side) -> io::Result<SecureFile> {
    let mut bytes = Vec::new(alloc);
    match disk.read(secure_name(side), &mut bytes)? {
        Found::Nothing => return Ok(SecureFile::Absent),
        Found::Other => return Ok(SecureFile::Foreign),
        Found::File(_) => {}
    }
    match parse(alloc, &bytes) {
        Ok((sequence, devices)) => Ok(SecureFile::Whole(sequence, devices)),
        Err(Misread::Foreign) => Ok(SecureFile::Foreign),
        Err(Misread::Memory) => Err(ErrorKind::OutOfMemory.into()),
    }
}
