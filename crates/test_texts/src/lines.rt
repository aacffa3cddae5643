//! Lines of a script: where a text leaves the grammar, which rule a credential breaks, what a line
//! says, and the commands that it stands for.

use crate::credentials::{kind_of, name_of, rule_text};
use crate::fault::RowFault;
use crate::words::{
    byte_of, digits_of, made, number_or_none, number_text, put_word, said, word_of,
};
use ls_bytes::Memory;
use ls_credential::Kind;
use ls_script::{Command, CommandList, LineFault, ScriptLine, line};
use std::alloc::Global;

/// The column of a text that isn't in the grammar, `-` for one that is.
pub fn column(alloc: Global, args: &[Vec<u8>]) -> Result<String, RowFault> {
    match args {
        [text] => match fault_of(alloc, text) {
            Some(LineFault::Syntax { column }) => number_text(alloc, u64::from(column)),
            Some(LineFault::Memory) => Err(RowFault::Memory),
            _ => said(alloc, "-"),
        },
        _ => Err(RowFault::Form),
    }
}

/// The rule that the leftmost bad credential breaks, `-` where there is none or no line.
pub fn broken_rule(alloc: Global, args: &[Vec<u8>]) -> Result<String, RowFault> {
    match args {
        [text] => match fault_of(alloc, text) {
            Some(LineFault::BadCredential(fault)) => rule_text(alloc, fault),
            Some(LineFault::Memory) => Err(RowFault::Memory),
            _ => said(alloc, "-"),
        },
        _ => Err(RowFault::Form),
    }
}

fn fault_of(alloc: Global, text: &[u8]) -> Option<LineFault> {
    match line(alloc, text) {
        Ok(_) => None,
        Err(fault) => Some(fault),
    }
}

fn no_line(fault: LineFault) -> RowFault {
    match fault {
        LineFault::Memory => RowFault::Memory,
        _ => RowFault::Form,
    }
}

/// The commands of a line.
pub fn commands(alloc: Global, args: &[Vec<u8>]) -> Result<String, RowFault> {
    match args {
        [text] => commands_of(alloc, text, None),
        _ => Err(RowFault::Form),
    }
}

/// The commands of a line whose user is opened or not, and has a credential of this kind.
pub fn token_commands(alloc: Global, args: &[Vec<u8>]) -> Result<String, RowFault> {
    match args {
        [text, opened, kind] => {
            let opened = byte_of(opened)? == 1;
            let kind = kind_of(kind)?;
            commands_of(alloc, text, Some((opened, kind)))
        }
        _ => Err(RowFault::Form),
    }
}

fn commands_of(
    alloc: Global,
    text: &[u8],
    standing: Option<(bool, Kind)>,
) -> Result<String, RowFault> {
    match line(alloc, text) {
        Ok(line) => names_in(alloc, line.commands(alloc, standing)),
        Err(fault) => Err(no_line(fault)),
    }
}

fn names_in(alloc: Global, commands: Result<CommandList, Memory>) -> Result<String, RowFault> {
    match commands {
        Ok(commands) => names_of(alloc, commands.as_slice()),
        Err(_) => Err(RowFault::Memory),
    }
}

fn names_of(alloc: Global, commands: &[Command]) -> Result<String, RowFault> {
    let mut names = String::new(alloc);
    for command in commands {
        put_word(&mut names, command_name(command))?;
    }
    Ok(names)
}

fn command_name(command: &Command) -> &'static str {
    match command {
        Command::Add { escrow: true, .. } => "add-escrow",
        Command::Add { .. } => "add-plain",
        Command::Drop { .. } => "drop",
        Command::Attempt { credential, .. } if credential.kind == Kind::Empty => "attempt-none",
        Command::Attempt { .. } => "attempt",
        Command::Change { .. } => "change",
        Command::Lock { .. } => "lock",
        Command::Status { .. } => "status",
        Command::Users => "users",
        Command::TokenAdd { .. } => "token-add",
        Command::Activate { .. } => "activate",
        Command::TokenDrop { .. } => "token-drop",
        Command::TokenState { .. } => "token-state",
        Command::TokenAttempt { .. } => "token-attempt",
        Command::EscrowOff { .. } => "escrow-off",
        Command::Prepare => "prepare",
        Command::Arm => "arm",
        Command::Resume => "resume",
        Command::AutoPin { on: true, .. } => "auto-pin-on",
        Command::AutoPin { .. } => "auto-pin-off",
        Command::PinLength { .. } => "pin-length",
    }
}

/// What the function with this name gives for a line.
pub fn asked(alloc: Global, name: &str, args: &[Vec<u8>]) -> Result<String, RowFault> {
    match args {
        [text] => match line(alloc, text) {
            Ok(line) => answer(alloc, name, &line),
            Err(fault) => Err(no_line(fault)),
        },
        _ => Err(RowFault::Form),
    }
}

fn answer(alloc: Global, name: &str, line: &ScriptLine) -> Result<String, RowFault> {
    match name {
        "change-token" => changed_token(alloc, line),
        // The user whose standing the line asks for, `-` for none.
        "token-user" => number_or_none(alloc, line.token_user()),
        // The place of the command whose reply is the line's.
        "reply-place" => number_text(alloc, u64::from(line.reply_place())),
        _ => Err(RowFault::Form),
    }
}

/// The user, the id, the token, and the kind and text of the new credential of such a line.
fn changed_token(alloc: Global, line: &ScriptLine) -> Result<String, RowFault> {
    match line {
        ScriptLine::ChangeToken {
            user,
            id,
            token,
            new,
        } => {
            let kind = name_of(new.kind);
            let text = word_of(new.text.as_slice())?;
            let token = digits_of(alloc, token.as_slice())?;
            made(format!(in alloc; "{user} {id} {token} {kind} {text}"))
        }
        _ => Err(RowFault::Form),
    }
}
