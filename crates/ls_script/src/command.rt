//! What the service is asked to do.

use ls_bytes::{Bytes, Rows};
use ls_credential::Credential;

/// A command. A line stands for one to three of them.
#[derive(Drop)]
pub enum Command {
    /// Makes a user.
    Add { user: u32, escrow: bool },
    /// Removes a user.
    Drop { user: u32 },
    /// Opens a user by its credential.
    Attempt { user: u32, credential: Credential },
    /// Replaces the credential of an opened user.
    Change { user: u32, credential: Credential },
    /// Closes a user.
    Lock { user: u32 },
    /// Asks for a user's row.
    Status { user: u32 },
    /// Asks for the users.
    Users,
    /// Adds a pending token.
    TokenAdd { user: u32, token: Bytes },
    /// Makes the pending tokens of an opened user active.
    Activate { user: u32 },
    /// Removes a token.
    TokenDrop { user: u32, id: u64 },
    /// Asks for the state of a token.
    TokenState { user: u32, id: u64 },
    /// Opens a user by a token.
    TokenAttempt { user: u32, id: u64, token: Bytes },
    /// Ends the escrow of a user.
    EscrowOff { user: u32 },
    /// Begins to capture the users that are opened, for a restart.
    Prepare,
    /// Arms the captured users.
    Arm,
    /// Opens the armed users after a restart.
    Resume,
    /// Says whether the length of a user's PIN may be shown.
    AutoPin { user: u32, on: bool },
    /// Asks for the length of a user's PIN.
    PinLength { user: u32 },
}

/// The commands of a line, in order.
pub type CommandList = Rows<Command>;
