//! Changes of the files. What is written is synced at once, so that only names are left to be
//! synced later.

use crate::disk::{Disk, Found};
use std::fs::{self, File, OpenOptions};
use std::io::{self, ErrorKind};
use std::os::unix::fs::{FileExt, OpenOptionsExt};

/// A file that is made can be read and written by its owner alone.
const MODE: u32 = 0o600;

/// Writes all of the bytes from this place on.
fn write_all(file: &File, bytes: &[u8], at: u32) -> io::Result<()> {
    let mut done = 0;
    for _ in 0..u64::MAX {
        if done >= bytes.len() {
            return Ok(());
        }
        let place = u64::from(at).saturating_add(done as u64);
        match file.write_at(&bytes[done..], place) {
            Ok(0) => return Err(ErrorKind::WriteZero.into()),
            Ok(n) => done += n,
            Err(e) if e.kind() == ErrorKind::Interrupted => {}
            Err(e) => return Err(e),
        }
    }
    Err(ErrorKind::TimedOut.into())
}

/// Makes the file hold these bytes, over what it held.
fn put_in(file: &File, bytes: &[u8]) -> io::Result<()> {
    write_all(file, bytes, 0)?;
    file.set_len(bytes.len() as u64)?;
    file.sync_data()
}

/// Makes the empty file hold so many zeros.
fn make_in(file: &File, len: u32) -> io::Result<()> {
    file.set_len(u64::from(len))?;
    file.sync_data()
}

/// Writes over a range of the file.
fn poke_in(file: &File, bytes: &[u8], at: u32) -> io::Result<()> {
    write_all(file, bytes, at)?;
    file.sync_data()
}

impl Disk {
    /// Ends a change. Where it failed no later sync may say that all is on the disk.
    fn done(&mut self, outcome: io::Result<()>) -> io::Result<()> {
        self.is_lost |= outcome.is_err();
        outcome
    }

    /// The plain file of this name, to be written. It is made where nothing stands there.
    fn opened(&mut self, name: &[u8], is_emptied: bool) -> io::Result<File> {
        let is_new = match self.find(name)? {
            Found::Nothing => true,
            Found::File(_) => false,
            Found::Other => return Err(ErrorKind::Unsupported.into()),
        };
        let file = OpenOptions::new()
            .write(true)
            .create_new(is_new)
            .truncate(is_emptied)
            .mode(MODE)
            .open(&self.rt, self.path.as_str())?;
        self.is_renamed |= is_new;
        Ok(file)
    }

    /// Makes the file hold these bytes.
    pub(crate) fn put(&mut self, name: &[u8], bytes: &[u8]) -> io::Result<()> {
        let file = self.opened(name, false)?;
        self.done(put_in(&file, bytes))
    }

    /// Makes the file hold so many zeros. None of its earlier bytes stay beside them.
    pub(crate) fn make(&mut self, name: &[u8], len: u32) -> io::Result<()> {
        let file = self.opened(name, true)?;
        self.done(make_in(&file, len))
    }

    /// Writes over a range of the file, which stays as long as it is.
    pub(crate) fn poke(&mut self, name: &[u8], at: u32, bytes: &[u8]) -> io::Result<()> {
        let Found::File(len) = self.find(name)? else {
            return Err(ErrorKind::NotFound.into());
        };
        if u64::from(at).saturating_add(bytes.len() as u64) > len {
            return Err(ErrorKind::InvalidInput.into());
        }
        let file = OpenOptions::new()
            .write(true)
            .open(&self.rt, self.path.as_str())?;
        self.done(poke_in(&file, bytes, at))
    }

    /// Takes the plain file of this name away, if there is one.
    pub(crate) fn remove(&mut self, name: &[u8]) -> io::Result<()> {
        let Found::File(_) = self.find(name)? else {
            return Ok(());
        };
        fs::remove_file(&self.rt, self.path.as_str())?;
        self.is_renamed = true;
        Ok(())
    }

    /// Gives the file of the first name the second one, in the place of what had it.
    pub(crate) fn rename(&mut self, from: &[u8], to: &[u8]) -> io::Result<()> {
        self.point(from)?;
        let from = self.path.clone()?;
        self.point(to)?;
        fs::rename(&self.rt, from.as_str(), self.path.as_str())?;
        self.is_renamed = true;
        Ok(())
    }

    /// Puts the names on the disk. What the files hold is there already.
    pub(crate) fn sync(&mut self) -> io::Result<()> {
        if self.is_lost {
            return Err(ErrorKind::Other.into());
        }
        if !self.is_renamed {
            return Ok(());
        }
        let outcome = self.folder.sync_all();
        self.is_renamed = outcome.is_err();
        self.done(outcome)
    }
}
