//! How a board over a directory begins.
ghost use Rattle.std.specs.Prelude.{◌≤◌, IfOk};

use crate::board::DirBoard;
use crate::disk::{Disk, Found};
use crate::fault::DirFault;
use crate::faults::Faults;
use crate::outside::Outside;
use crate::secure::{Secure, look};
use crate::streams::fill;
use ls_secure::{Chosen, Devices, Side, choose};
use std::io::{self, ErrorKind};

/// The slots of a directory that has them.
const SLOTS: u32 = 64;

/// A plain file of this name, when the devices are made, leaves the Weaver away.
const NO_WEAVER: &[u8] = b"no-weaver";

/// A failure of the directory or of a file.
fn of_files(error: io::Error) -> DirFault {
    match error.kind() {
        ErrorKind::OutOfMemory => DirFault::Memory,
        _ => DirFault::Files,
    }
}

/// Where this file is there and none is whole.
fn foreign(side: Side) -> DirFault {
    match side {
        Side::First => DirFault::Secure { file: 0 },
        Side::Second => DirFault::Secure { file: 1 },
    }
}

/// How many slots new devices have.
fn slots(disk: &mut Disk) -> io::Result<u32>
    ensures few { IfOk result (λ slots. slots ≤ 256) }
{
    match disk.find(NO_WEAVER)? {
        Found::File(_) => Ok(0),
        _ => Ok(SLOTS),
    }
}

/// The first devices of a directory, with a new key.
fn blank(rt: &HostRuntime, slots: u32) -> Result<Devices, DirFault>
    requires few { slots ≤ 256 }
{
    let mut key = [0; 32];
    if fill(rt, &mut key).is_err() {
        return Err(DirFault::Noise);
    }
    match Devices::blank(rt.alloc(), slots, key) {
        Ok(devices) => Ok(devices),
        Err(_) => Err(DirFault::Memory),
    }
}

/// Makes the devices of a directory that has none.
fn made(rt: &HostRuntime, disk: &mut Disk) -> Result<(Devices, Secure), DirFault> {
    let slots = slots(disk).map_err(of_files)?;
    let devices = blank(rt, slots)?;
    let mut secure = Secure::of(rt.alloc(), 0, Side::First, &devices)?;
    secure.make(disk).map_err(of_files)?;
    Ok((devices, secure))
}

/// The devices by the two files. They are made where neither is there.
fn found(rt: &HostRuntime, disk: &mut Disk) -> Result<(Devices, Secure), DirFault> {
    let first = look(rt.alloc(), disk, Side::First).map_err(of_files)?;
    let second = look(rt.alloc(), disk, Side::Second).map_err(of_files)?;
    match choose(first, second) {
        Chosen::Fresh => made(rt, disk),
        Chosen::Foreign(side) => Err(foreign(side)),
        Chosen::Counts(side, sequence, devices) => {
            let secure = Secure::of(rt.alloc(), sequence, side, &devices)?;
            Ok((devices, secure))
        }
    }
}

impl DirBoard {
    /// The board over this directory, without spare room. No other board may have the directory.
    /// All that stands there is synced first.
    pub fn open(rt: &HostRuntime, dir: &str) -> Result<DirBoard, DirFault> {
        let mut disk = Disk::open(rt, dir).map_err(of_files)?;
        disk.settle().map_err(of_files)?;
        let (devices, secure) = found(rt, &mut disk)?;
        Ok(DirBoard {
            outside: Outside {
                rt: *rt,
                disk,
                devices,
                secure,
            },
            faults: Faults::none(),
            actions: 0,
            bytes: 0,
        })
    }
}
