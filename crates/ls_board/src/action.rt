//! The actions of a board, and what it may answer.
ghost use Rattle.std.specs.Prelude.{◌≡◌, ◌≤◌, length};

use ls_bytes::{Bytes, Memory, Name};

/// A part of the outside. Each counts its own faults.
#[derive(Clone, Copy, Debug, PartialEq, Eq)]
pub enum Part {
    /// Where bytes are heard.
    Input,
    /// Where bytes are said.
    Output,
    /// The directory of files.
    Files,
    /// The slots that hold a value under a key.
    Weaver,
    /// The device that checks handles of passwords.
    Gatekeeper,
    /// The key store.
    Keys,
    /// The cell that holds a key over one restart.
    Resume,
    /// The clock.
    Clock,
    /// The source of random bytes.
    Noise,
}

/// Why an action was not answered.
#[derive(Clone, Copy, Debug, PartialEq, Eq)]
pub enum BoardFault {
    /// This part failed, and its count rose.
    Failed(Part),
    /// There was no memory for the bytes of the answer. Nothing was changed, heard or drawn.
    Memory,
}

/// One thing that a board can be asked to do.
pub enum Action {
    /// Gives the names of all files, ascending, each followed by 0x0A.
    List,
    /// Gives the bytes of a file, or says that there is none.
    Read {
        name: Name,
    },
    /// Makes the file hold `len` zero bytes.
    Make {
        name: Name,
        len: u32,
    },
    /// Makes the file hold these bytes.
    Put {
        name: Name,
        bytes: Bytes,
    },
    /// Writes these bytes over a range that begins at `at` and lies in the file.
    Poke {
        name: Name,
        at: u32,
        bytes: Bytes,
    },
    /// Takes the file away, if it is there.
    Remove {
        name: Name,
    },
    /// Puts all changes of files on the disk: no file is touched any more.
    Sync,
    /// Gives a slot this key and value, and clears its failures. The slot is one of the board's.
    WeaverWrite {
        slot: u32,
        key: [u8; 16],
        value: [u8; 16],
    },
    /// Asks a slot for its value, at this moment in milliseconds. The slot is one of the board's.
    WeaverRead {
        slot: u32,
        key: [u8; 16],
        moment: u64,
    },
    /// Gives the handle of a password for this id.
    GkSign {
        sid: u64,
        salt: u64,
        password: Bytes,
    },
    /// Makes a record for this id, without failures.
    GkEnroll {
        sid: u64,
    },
    /// Asks whether a handle is that of this password, at this moment in milliseconds.
    GkVerify {
        handle: [u8; 49],
        password: Bytes,
        moment: u64,
    },
    /// Takes the record of this id away, if there is one.
    GkForget {
        sid: u64,
    },
    /// Gives the ids that have a record, ascending, each in eight bytes.
    GkList,
    /// Gives this alias a key.
    KeyPut {
        alias: u64,
        key: [u8; 32],
    },
    /// Opens a sealed text with the key of this alias.
    KeyOpen {
        alias: u64,
        bytes: Bytes,
    },
    /// Takes the key of this alias away, if it has one.
    KeyDrop {
        alias: u64,
    },
    /// Gives the aliases that have a key, ascending, each in eight bytes.
    KeyList,
    /// Puts a key into the cell.
    ResumeStore {
        key: [u8; 32],
    },
    /// Takes the key out of the cell, if there is one.
    ResumeTake,
    /// Takes 1 to `max` bytes from the input. `max` is at least 1.
    Hear {
        max: u32,
    },
    /// Says these bytes, at most 16,384.
    Say {
        bytes: Bytes,
    },
    /// Takes the next moment of the clock, in milliseconds.
    Now,
    /// Takes `len` bytes of noise.
    Draw {
        len: u32,
    },
}

// One call lets an action go. Where the drop is derived, each place that may drop an action looks
// at its kind.
impl Drop for Action {
    fn drop(self) {
        match self {
            Action::List => {}
            Action::Read { name: _ } => {}
            Action::Make { name: _, len: _ } => {}
            Action::Put { name: _, bytes: _ } => {}
            Action::Poke {
                name: _,
                at: _,
                bytes: _,
            } => {}
            Action::Remove { name: _ } => {}
            Action::Sync => {}
            Action::WeaverWrite {
                slot: _,
                key: _,
                value: _,
            } => {}
            Action::WeaverRead {
                slot: _,
                key: _,
                moment: _,
            } => {}
            Action::GkSign {
                sid: _,
                salt: _,
                password: _,
            } => {}
            Action::GkEnroll { sid: _ } => {}
            Action::GkVerify {
                handle: _,
                password: _,
                moment: _,
            } => {}
            Action::GkForget { sid: _ } => {}
            Action::GkList => {}
            Action::KeyPut { alias: _, key: _ } => {}
            Action::KeyOpen { alias: _, bytes: _ } => {}
            Action::KeyDrop { alias: _ } => {}
            Action::KeyList => {}
            Action::ResumeStore { key: _ } => {}
            Action::ResumeTake => {}
            Action::Hear { max: _ } => {}
            Action::Say { bytes: _ } => {}
            Action::Now => {}
            Action::Draw { len: _ } => {}
        }
    }
}

impl Action {
    ghost use Rattle.ls_board.specs.Planned.{file_of};
    ghost use Rattle.ls_board.specs.Effect.{part_of, weight_of};

    /// The name of the file that it changes, taken out of it, if it changes one.
    pub fn into_file(self) -> Option<Name>
        ensures file { result ≡ file_of self }
    {
        match self {
            Action::Make { name, len: _ } => Some(name),
            Action::Put { name, bytes: _ } => Some(name),
            Action::Poke {
                name,
                at: _,
                bytes: _,
            } => Some(name),
            Action::Remove { name } => Some(name),
            _ => None,
        }
    }

    /// The part that does it.
    pub fn part(&self) -> Part
        ensures part { result ≡ part_of self.now }
    {
        match self {
            Action::List
            | Action::Read { .. }
            | Action::Make { .. }
            | Action::Put { .. }
            | Action::Poke { .. }
            | Action::Remove { .. }
            | Action::Sync => Part::Files,
            Action::WeaverWrite { .. } | Action::WeaverRead { .. } => Part::Weaver,
            Action::GkSign { .. }
            | Action::GkEnroll { .. }
            | Action::GkVerify { .. }
            | Action::GkForget { .. }
            | Action::GkList => Part::Gatekeeper,
            Action::KeyPut { .. }
            | Action::KeyOpen { .. }
            | Action::KeyDrop { .. }
            | Action::KeyList => Part::Keys,
            Action::ResumeStore { .. } | Action::ResumeTake => Part::Resume,
            Action::Hear { .. } => Part::Input,
            Action::Say { .. } => Part::Output,
            Action::Now => Part::Clock,
            Action::Draw { .. } => Part::Noise,
        }
    }

    /// The bytes of room that it uses up, beside one action.
    pub fn weight(&self) -> u64
        ensures bytes { result ≡ weight_of self.now }
    {
        match self {
            Action::Make { name, len } => length(name) + u64::from(*len),
            Action::Put { name, bytes } | Action::Poke { name, bytes, .. } => {
                length(name) + bytes.as_slice().len() as u64
            }
            Action::Remove { name } => length(name),
            Action::GkVerify { password, .. } => password.as_slice().len() as u64,
            Action::Say { bytes } => bytes.as_slice().len() as u64,
            _ => 0,
        }
    }
}

/// How many bytes a name has.
fn length(name: &Name) -> u64
    ensures count { result ≡ length name.now }
    ensures most { result ≤ 64 }
{
    name.as_slice().len() as u64
}

/// The answer to an action that was done.
#[derive(Clone, Copy, Debug, PartialEq, Eq)]
pub enum Answer {
    /// It was done, and there is nothing to tell.
    Done,
    /// There is no file of that name.
    Absent,
    /// The bytes that were asked for stand in `out`.
    Bytes,
    /// The value of the slot.
    Value([u8; 16]),
    /// The key or password was wrong: the milliseconds that it rests now.
    Wrong(u64),
    /// It rests: the milliseconds that are left.
    Throttled(u64),
    /// The handle of the password.
    Handle([u8; 49]),
    /// The handle is that of the password, for this id.
    Accepted(u64),
    /// The handle is of no known version, or its id has no record.
    Unknown,
    /// The alias has no key.
    NoKey,
    /// The text wasn't sealed with the key of the alias.
    BadTag,
    /// The key that was in the cell.
    Key([u8; 32]),
    /// The cell was empty.
    Empty,
    /// The input has ended.
    End,
    /// The moment, in milliseconds.
    Moment(u64),
}

impl From<Memory> for BoardFault {
    ghost use Rattle.ls_board.specs.declared.action.BoardFault.TheVariants as fault;

    ghost from_gives = { λ _ e. e ≡ fault.Memory };

    fn from(_memory: Memory) -> BoardFault {
        BoardFault::Memory
    }
}
