//! A call that was done, as far as it is kept.
ghost use Rattle.std.specs.Prelude.{◌≡◌};
ghost use Rattle.ls_memboard.specs.Calls.{changed_a_file, is_file_change};

use ls_board::Part;

/// What kind of change a call makes. One that only reads is `Quiet`. Names, bytes and passwords
/// stand in the pool.
#[derive(Clone, Copy)]
pub enum Kind {
    Quiet,
    Make {
        len: u32,
    },
    Put,
    Poke {
        at: u32,
    },
    Remove,
    Sync,
    WeaverWrite {
        slot: u32,
        key: [u8; 16],
        value: [u8; 16],
    },
    WeaverRead {
        slot: u32,
        key: [u8; 16],
        moment: u64,
    },
    GkEnroll {
        sid: u64,
    },
    GkVerify {
        handle: [u8; 49],
        moment: u64,
    },
    GkForget {
        sid: u64,
    },
    KeyPut {
        alias: u64,
        key: [u8; 32],
    },
    KeyDrop {
        alias: u64,
    },
    ResumeStore {
        key: [u8; 32],
    },
    ResumeTake,
    Hear {
        max: u32,
    },
    Say,
    Now,
    Draw {
        len: u32,
    },
}

impl Kind {
    /// Whether a whole call of this kind changes what a file holds.
    fn is_file_change(&self) -> bool
        ensures same { result ≡ is_file_change self.now }
    {
        match self {
            Kind::Make { .. } | Kind::Put | Kind::Poke { .. } | Kind::Remove => true,
            _ => false,
        }
    }
}

/// A call, with the place in the pool where its name stands, and behind that its bytes.
#[derive(Clone, Copy)]
pub struct Kept {
    pub kind: Kind,
    pub at: usize,
    pub name: usize,
    pub bytes: usize,
}

/// How a call went: whether it had its effect, whether it failed, and how many bytes it heard.
#[derive(Clone, Copy)]
pub struct Entry {
    pub kept: Kept,
    pub part: Part,
    pub whole: bool,
    pub failed: bool,
    pub count: usize,
}

impl Entry {
    /// Whether it changed what a file holds.
    pub(crate) fn changed_a_file(&self) -> bool
        ensures same { result ≡ changed_a_file self.now }
    {
        self.whole && self.kept.kind.is_file_change()
    }
}
