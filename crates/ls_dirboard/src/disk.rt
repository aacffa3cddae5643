//! The directory, and what stands at its names.
ghost use Rattle.std.specs.Prelude.{◌≡◌, length};
ghost use Rattle.std.specs.Io.{ReadsAtMost};

use ls_secure::Side;
use std::fs::{self, File};
use std::io::{self, ErrorKind, Read};

/// The longest name of a file, in bytes.
const LONGEST_NAME: usize = 64;

/// Bytes that are read at once.
const PIECE: usize = 4096;

/// The directory, and how it stands.
#[derive(Drop)]
pub struct Disk {
    pub(crate) rt: HostRuntime,
    /// Open as long as the board is, and locked.
    pub(crate) folder: File,
    /// The directory's path and a slash.
    pub(crate) front: String,
    /// The path of one name. It has room for each, so that no call takes memory for it.
    pub(crate) path: String,
    /// Whether a name came or went since the last sync.
    pub(crate) is_renamed: bool,
    /// Whether a sync failed, or a write half way. What the disk has is not known from then on.
    pub(crate) is_lost: bool,
}

/// What stands at a name.
#[derive(Clone, Copy, Debug, PartialEq, Eq)]
pub(crate) enum Found {
    /// Nothing.
    Nothing,
    /// A plain file of so many bytes.
    File(u64),
    /// What is no plain file: a directory, a link, a pipe, a device.
    Other,
}

/// The names of the two files that keep the devices. They are no files of the board.
pub(crate) fn secure_name(side: Side) -> &'static [u8] {
    match side {
        Side::First => b"secure.0",
        Side::Second => b"secure.1",
    }
}

/// Whether this name is one of the two.
pub(crate) fn is_secure(name: &[u8]) -> bool {
    name == secure_name(Side::First) || name == secure_name(Side::Second)
}

/// One read, again where a signal cuts it off.
pub(crate) fn read_some(from: &mut impl Read, buf: &mut [u8]) -> io::Result<usize>
    ensures bound { ReadsAtMost result buf.new }
    ensures len { length buf.new ≡ length buf.old }
{
    for _ in 0..u64::MAX {
        match from.read(buf) {
            Ok(n) => return Ok(n),
            Err(e) if e.kind() == ErrorKind::Interrupted => {}
            Err(e) => return Err(e),
        }
    }
    Err(ErrorKind::TimedOut.into())
}

/// Adds all bytes of the file.
fn read_all(file: &mut File, out: &mut Vec<u8>) -> io::Result<()> {
    for _ in 0..u64::MAX {
        let at = out.len();
        if at > usize::MAX - PIECE {
            return Err(ErrorKind::OutOfMemory.into());
        }
        out.resize(at + PIECE, 0)?;
        let n = read_some(file, &mut out[at..])?;
        out.truncate(at + n);
        if n == 0 {
            return Ok(());
        }
    }
    Err(ErrorKind::TimedOut.into())
}

impl Disk {
    /// The directory, if it is one and no other board has it.
    pub(crate) fn open(rt: &HostRuntime, dir: &str) -> io::Result<Disk> {
        let folder = File::open(rt, dir)?;
        if !folder.metadata()?.is_dir() {
            return Err(ErrorKind::NotADirectory.into());
        }
        folder.try_lock()?;
        let mut front = String::from_str(rt.alloc(), dir)?;
        front.push('/')?;
        let mut path = front.clone()?;
        path.reserve(LONGEST_NAME)?;
        Ok(Disk {
            rt: *rt,
            folder,
            front,
            path,
            is_renamed: false,
            is_lost: false,
        })
    }

    /// Makes the path that of this name.
    pub(crate) fn point(&mut self, name: &[u8]) -> io::Result<()> {
        let Ok(name) = std::str::from_utf8(name) else {
            return Err(ErrorKind::InvalidFilename.into());
        };
        self.path.clear();
        self.path.push_str(self.front.as_str())?;
        self.path.push_str(name)?;
        Ok(())
    }

    /// What stands at this name, at which the path is then. No link is followed.
    pub(crate) fn find(&mut self, name: &[u8]) -> io::Result<Found> {
        self.point(name)?;
        match fs::symlink_metadata(&self.rt, self.path.as_str()) {
            Ok(found) if found.is_file() => Ok(Found::File(found.len())),
            Ok(_) => Ok(Found::Other),
            Err(e) if e.kind() == ErrorKind::NotFound => Ok(Found::Nothing),
            Err(e) => Err(e),
        }
    }

    /// Adds to `out` what the file of this name holds, if it is a plain file.
    pub(crate) fn read(&mut self, name: &[u8], out: &mut Vec<u8>) -> io::Result<Found> {
        let found = self.find(name)?;
        if let Found::File(_) = found {
            let mut file = File::open(&self.rt, self.path.as_str())?;
            read_all(&mut file, out)?;
        }
        Ok(found)
    }
}
