//! A line that was read, and the commands that it stands for.

ghost use Rattle.std.specs.Prelude.{◌≡◌, ◌∷◌, [], IfOk};
ghost use Rattle.ls_script.specs.declared.command.Command.TheVariants as command;
ghost use Rattle.ls_script.specs.Activation.{activation};

use crate::command::{Command, CommandList};
use ls_bytes::{Bytes, Memory};
use ls_credential::{Credential, Kind};
use std::alloc::Global;

/// A line of a script. A user is a number of 32 bits, an id one of 64; a token has 1 to 64 bytes.
#[derive(Drop)]
pub enum ScriptLine {
    /// `user-add U escrow` or `user-add U plain`
    UserAdd {
        user: u32,
        escrow: bool,
    },
    /// `user-drop U`
    UserDrop {
        user: u32,
    },
    /// `unlock U CRED`
    Unlock {
        user: u32,
        credential: Credential,
    },
    /// `change U OLD NEW`
    Change {
        user: u32,
        old: Credential,
        new: Credential,
    },
    /// `lock U`
    Lock {
        user: u32,
    },
    /// `status U`
    Status {
        user: u32,
    },
    /// `users`
    Users,
    /// `token-add U HEX`
    TokenAdd {
        user: u32,
        token: Bytes,
    },
    /// `token-drop U ID`
    TokenDrop {
        user: u32,
        id: u64,
    },
    /// `token-state U ID`
    TokenState {
        user: u32,
        id: u64,
    },
    /// `unlock-token U ID HEX`
    UnlockToken {
        user: u32,
        id: u64,
        token: Bytes,
    },
    /// `change-token U ID HEX NEW`
    ChangeToken {
        user: u32,
        id: u64,
        token: Bytes,
        new: Credential,
    },
    /// `escrow-off U`
    EscrowOff {
        user: u32,
    },
    /// `resume-prepare`
    ResumePrepare,
    /// `resume-arm`
    ResumeArm,
    /// `resume`
    Resume,
    /// `auto-pin U on` or `auto-pin U off`
    AutoPin {
        user: u32,
        on: bool,
    },
    /// `pin-length U`
    PinLength {
        user: u32,
    },
}

impl ScriptLine {
    ghost use Rattle.std.specs.Prelude.{◌≡◌, IfOk};
    ghost use Rattle.ls_script.specs.Commands.{command_list, token_user, reply_place};

    /// The user whose standing decides which commands the line stands for.
    pub fn token_user(&self) -> Option<u32>
        ensures same { result ≡ token_user self.now }
    {
        match self {
            ScriptLine::TokenAdd { user, .. } => Some(*user),
            _ => None,
        }
    }

    /// The place, from 0, of the command whose reply is the line's, where none is refused.
    pub fn reply_place(&self) -> u32
        ensures same { result ≡ reply_place self.now }
    {
        match self {
            ScriptLine::Change { .. } | ScriptLine::ChangeToken { .. } => 1,
            _ => 0,
        }
    }

    /// The commands that the line stands for, in order. The standing is that of its `token_user`:
    /// whether the user is opened, and the kind that is stored for it; None for no such user.
    pub fn commands(
        self,
        alloc: Global,
        standing: Option<(bool, Kind)>,
    ) -> Result<CommandList, Memory>
        ensures list { IfOk result (λ list. list ≡ command_list self standing) }
    {
        match self {
            ScriptLine::UserAdd { user, escrow } => one(alloc, Command::Add { user, escrow }),
            ScriptLine::UserDrop { user } => one(alloc, Command::Drop { user }),
            ScriptLine::Unlock { user, credential } => unlock(alloc, user, credential),
            ScriptLine::Change { user, old, new } => change(alloc, user, old, new),
            ScriptLine::Lock { user } => one(alloc, Command::Lock { user }),
            ScriptLine::Status { user } => one(alloc, Command::Status { user }),
            ScriptLine::Users => one(alloc, Command::Users),
            ScriptLine::TokenAdd { user, token } => token_add(alloc, user, token, standing),
            ScriptLine::TokenDrop { user, id } => one(alloc, Command::TokenDrop { user, id }),
            ScriptLine::TokenState { user, id } => one(alloc, Command::TokenState { user, id }),
            ScriptLine::UnlockToken { user, id, token } => unlock_token(alloc, user, id, token),
            ScriptLine::ChangeToken {
                user,
                id,
                token,
                new,
            } => change_token(alloc, user, id, token, new),
            ScriptLine::EscrowOff { user } => one(alloc, Command::EscrowOff { user }),
            ScriptLine::ResumePrepare => one(alloc, Command::Prepare),
            ScriptLine::ResumeArm => one(alloc, Command::Arm),
            ScriptLine::Resume => one(alloc, Command::Resume),
            ScriptLine::AutoPin { user, on } => one(alloc, Command::AutoPin { user, on }),
            ScriptLine::PinLength { user } => one(alloc, Command::PinLength { user }),
        }
    }
}

fn one(alloc: Global, only: Command) -> Result<CommandList, Memory>
    ensures list { IfOk result (λ list. list ≡ only ∷ []) }
{
    let mut list = CommandList::new(alloc);
    list.push(only)?;
    Ok(list)
}

fn two(alloc: Global, first: Command, second: Command) -> Result<CommandList, Memory>
    ensures list { IfOk result (λ list. list ≡ first ∷ second ∷ []) }
{
    let mut list = one(alloc, first)?;
    list.push(second)?;
    Ok(list)
}

/// The user is opened by its credential, and its tokens are activated.
fn unlock(alloc: Global, user: u32, credential: Credential) -> Result<CommandList, Memory>
    ensures list { IfOk result (λ list.
        list ≡ command.Attempt user credential ∷ command.Activate user ∷ []) }
{
    two(
        alloc,
        Command::Attempt { user, credential },
        Command::Activate { user },
    )
}

/// The user is opened by a token, and its tokens are activated.
fn unlock_token(alloc: Global, user: u32, id: u64, token: Bytes) -> Result<CommandList, Memory>
    ensures list { IfOk result (λ list.
        list ≡ command.TokenAttempt user id token ∷ command.Activate user ∷ []) }
{
    two(
        alloc,
        Command::TokenAttempt { user, id, token },
        Command::Activate { user },
    )
}

/// The user is opened by its credential, and gets another one.
fn change(alloc: Global, user: u32, old: Credential, new: Credential) -> Result<CommandList, Memory>
    ensures list { IfOk result (λ list. list ≡ command.Attempt user old
        ∷ command.Change user new ∷ command.Activate user ∷ []) }
{
    let attempt = Command::Attempt {
        user,
        credential: old,
    };
    replace(alloc, attempt, user, new)
}

/// The user is opened by a token, and gets another credential.
fn change_token(
    alloc: Global,
    user: u32,
    id: u64,
    token: Bytes,
    new: Credential,
) -> Result<CommandList, Memory>
    ensures list { IfOk result (λ list. list ≡ command.TokenAttempt user id token
        ∷ command.Change user new ∷ command.Activate user ∷ []) }
{
    replace(alloc, Command::TokenAttempt { user, id, token }, user, new)
}

/// The user is opened, gets another credential, and its tokens are activated.
fn replace(
    alloc: Global,
    first: Command,
    user: u32,
    credential: Credential,
) -> Result<CommandList, Memory>
    ensures list { IfOk result (λ list.
        list ≡ first ∷ command.Change user credential ∷ command.Activate user ∷ []) }
{
    let mut list = two(alloc, first, Command::Change { user, credential })?;
    list.push(Command::Activate { user })?;
    Ok(list)
}

/// A token is added. It is activated at once where the user is opened, or has no credential.
fn token_add(
    alloc: Global,
    user: u32,
    token: Bytes,
    standing: Option<(bool, Kind)>,
) -> Result<CommandList, Memory>
    ensures list { IfOk result (λ list.
        list ≡ command.TokenAdd user token ∷ activation user standing) }
{
    let added = Command::TokenAdd { user, token };
    match standing {
        Some((true, _)) => two(alloc, added, Command::Activate { user }),
        Some((false, Kind::Empty)) => {
            let credential = Credential::none(alloc)?;
            let mut list = two(alloc, added, Command::Attempt { user, credential })?;
            list.push(Command::Activate { user })?;
            Ok(list)
        }
        _ => one(alloc, added),
    }
}
