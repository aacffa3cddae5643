//! What a command is answered.

use ls_bytes::{Name, Rows, UserList};
use ls_credential::{Kind, Metrics};
use ls_secret::Derived;

/// What an opened user gets.
#[derive(Clone, Copy, Debug, PartialEq, Eq)]
pub struct Revealed {
    pub user: u32,
    pub derived: Derived,
    /// The secure id, 0 for none.
    pub secure: u64,
    /// What is counted of the credential; None without one.
    pub metrics: Option<Metrics>,
}

/// A list of opened users.
pub type RevealedList = Rows<Revealed>;

/// Where a token stands.
#[derive(Clone, Copy, Debug, PartialEq, Eq)]
pub enum TokenState {
    /// It waits until the user is opened.
    Pending,
    /// It opens the user.
    Active,
    /// There is no such token.
    Absent,
}

/// How a user stands.
#[derive(Clone, Copy, Debug, PartialEq, Eq)]
pub struct StatusRow {
    pub opened: bool,
    pub kind: Kind,
    pub escrow: bool,
    /// The secure id, 0 for none.
    pub secure: u64,
    /// How many tokens are active.
    pub active: u8,
    /// How many tokens are pending.
    pub pending: u8,
}

/// Why a command is refused.
#[derive(Drop)]
pub enum Refusal {
    /// There is no such user.
    NoUser,
    /// The user is there already.
    UserExists,
    /// There are as many users as there may be.
    UserLimit,
    /// The credential is of another kind than the stored one, which this is.
    WrongKind(Kind),
    /// The device isn't asked for so many milliseconds.
    Throttled(u64),
    /// The credential is wrong, and the device isn't asked for so many milliseconds.
    Wrong(u64),
    /// The user has no escrow.
    NoEscrow,
    /// There is no such token.
    NoToken,
    /// The token has other bytes.
    WrongToken,
    /// The user has as many tokens as it may have.
    TokenLimit,
    /// No slot is free.
    NoSlot,
    /// The user isn't opened.
    Locked,
    /// Nothing was prepared.
    NotPrepared,
    /// Nothing is armed.
    NotArmed,
    /// The armed boot is too far from this one.
    Expired { armed: u32, boot: u32 },
    /// Nothing can be written any more.
    Worn,
    /// The file fails its check at this offset.
    Corrupt { name: Name, at: u32 },
}

/// What a command is answered.
#[derive(Drop)]
pub enum Reply {
    /// It was done.
    Fine,
    /// The user is opened.
    Opened(Revealed),
    /// These users are opened.
    Resumed(RevealedList),
    Status(StatusRow),
    Users(UserList),
    /// The id of the token that was added.
    TokenId(u64),
    TokenState(TokenState),
    /// The length of the PIN, 0 where it isn't shown.
    PinLength(u8),
    No(Refusal),
}

impl Reply {
    ghost use Rattle.std.specs.Prelude.{◌≡◌};
    ghost use Rattle.ls_script.specs.Commands.{is_refusal};

    /// Whether the command was refused.
    pub fn is_refusal(&self) -> bool
        ensures same { result ≡ is_refusal self.now }
    {
        matches!(self, Reply::No(_))
    }
}
