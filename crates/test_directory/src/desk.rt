//! The board that the rows ask.

use crate::actions::{action_of, is_sound};
use crate::answers::answer_text;
use crate::fault::RowFault;
use crate::words::{args_of, cut};
use ls_board::{Action, Answer, Board};
use ls_dirboard::DirBoard;
use std::alloc::Global;
use std::fs;

/// The board that the rows ask, if one is open.
#[derive(Drop)]
pub struct Desk {
    pub board: Option<DirBoard>,
}

/// How a directory is opened: the number of its slots, or the fault's text.
fn opening(rt: &HostRuntime, dir: &str) -> Result<(Option<DirBoard>, String), RowFault> {
    let alloc = rt.alloc();
    match DirBoard::open(rt, dir) {
        Ok(board) => {
            let slots = board.slots();
            Ok((Some(board), format!(in alloc; "{slots} slots")?))
        }
        Err(fault) => Ok((None, format!(in alloc; "{fault}")?)),
    }
}

/// Names, each ended by a line feed, with spaces in place of these.
fn names(alloc: Global, out: &[u8]) -> Result<String, RowFault> {
    let mut names = "names".to_string(alloc)?;
    for name in out.split(|byte| *byte == b'\n') {
        names.push(' ')?;
        names.push_str(std::str::from_utf8(name).unwrap_or("?"))?;
    }
    Ok(names)
}

/// The bytes of a file, whoever wrote it.
fn file(rt: &HostRuntime, path: &str) -> Result<String, RowFault> {
    let bytes = fs::read(rt, path)?;
    Ok(hex::encode(rt.alloc(), &bytes)?)
}

/// Asks the board, with room for it.
fn asked(alloc: Global, board: &mut DirBoard, action: &Action) -> Result<String, RowFault> {
    if !is_sound(board.slots(), action) {
        return Err(RowFault::Form);
    }
    board.ready(alloc, 1, action.weight())?;
    let mut out = Vec::new(alloc);
    let answer = board.act(action, &mut out);
    match (action, answer) {
        (Action::List, Ok(Answer::Bytes)) => names(alloc, &out),
        (Action::Draw { .. }, Ok(Answer::Bytes)) => {
            let drawn = out.len();
            Ok(format!(in alloc; "{drawn} bytes")?)
        }
        (_, answer) => answer_text(alloc, answer, &out),
    }
}

impl Desk {
    /// The answer to a row.
    pub fn answered(&mut self, rt: &HostRuntime, row: &str) -> Result<String, RowFault> {
        match cut(row) {
            ("#", _) => Ok(row.to_string(rt.alloc())?),
            ("open", dir) => self.open(rt, dir),
            ("again", dir) => Ok(opening(rt, dir)?.1),
            ("file", path) => file(rt, path),
            (name, args) => self.ask(rt.alloc(), name, args),
        }
    }

    /// Opens a directory in place of the one before.
    fn open(&mut self, rt: &HostRuntime, dir: &str) -> Result<String, RowFault> {
        self.board = None;
        let (board, text) = opening(rt, dir)?;
        self.board = board;
        Ok(text)
    }

    fn ask(&mut self, alloc: Global, name: &str, args: &str) -> Result<String, RowFault> {
        let args = args_of(alloc, args)?;
        let action = action_of(alloc, name, &args)?;
        match &mut self.board {
            Some(board) => asked(alloc, board, &action),
            None => Err(RowFault::Form),
        }
    }
}
