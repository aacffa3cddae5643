//! Reading the two settings files.
ghost use Rattle.std.specs.Prelude.{◌≡◌, ◌≢◌, None, Some, IsTrue};
ghost use Rattle.ls_formats.specs.PartNames.{settings_text};
ghost use Rattle.ls_board.specs.Acts.{Sight};
ghost use Rattle.ls_board.specs.declared.action.BoardFault.TheVariants as board_fault;
ghost use Rattle.ls_settings.specs.FileReading.{file_of};
ghost use Rattle.ls_board.specs.Keeping.{Keeps};
ghost use Rattle.ls_settings.specs.Loading.{ReadsFile, ReadsFiles};

use crate::actions::settings_name;
use ls_board::{Action, Answer, Board, BoardFault};
use ls_bytes::Bytes;
use ls_formats::Side;
use std::alloc::Global;

/// What the two files hold, where they are there.
#[derive(Drop)]
pub(crate) struct Pair {
    pub first: Option<Bytes>,
    pub second: Option<Bytes>,
}

impl Pair {
    /// What the file of a side holds.
    pub fn of(&self, side: Side) -> &Option<Bytes>
        ensures same { result.now ≡ file_of side self.now.first self.now.second }
    {
        match side {
            Side::First => &self.first,
            Side::Second => &self.second,
        }
    }
}

/// The file that was read.
fn file_in(answer: Answer, out: Vec<u8>) -> Option<Bytes>
    ensures absent { answer ≡ Answer.Absent → result ≡ None }
    ensures there { answer ≢ Answer.Absent → result ≡ Some out.items }
{
    if answer == Answer::Absent {
        None
    } else {
        Some(Bytes::from(out))
    }
}

/// Reads the file of a side by its action.
fn read_by<B: Board>(
    alloc: Global,
    board: &mut B,
    side: Side,
    read: &Action,
) -> Result<Option<Bytes>, BoardFault>
    requires reads { read.now ≡ Action.Read (settings_text side) }
    ensures keeps { Keeps board_fault.Failed (B.sight board.old) (B.sight board.new) result }
    ensures file { IsTrue (B.sight board.old).told
        → ReadsFile (B.sight board.old) (settings_text side) result (B.sight board.new) }
{
    board.ready(alloc, 1, 0)?;
    let mut out = Vec::new(alloc);
    let answer = board.act(read, &mut out)?;
    Ok(file_in(answer, out))
}

/// Reads the file of a side.
fn read_side<B: Board>(
    alloc: Global,
    board: &mut B,
    side: Side,
) -> Result<Option<Bytes>, BoardFault>
    ensures keeps { Keeps board_fault.Failed (B.sight board.old) (B.sight board.new) result }
    ensures file { IsTrue (B.sight board.old).told
        → ReadsFile (B.sight board.old) (settings_text side) result (B.sight board.new) }
{
    let read = Action::Read {
        name: settings_name(alloc, side)?,
    };
    read_by(alloc, board, side, &read)
}

/// Reads both files.
pub(crate) fn read_files<B: Board>(alloc: Global, board: &mut B) -> Result<Pair, BoardFault>
    ensures keeps { Keeps board_fault.Failed (B.sight board.old) (B.sight board.new) result }
    ensures files { IsTrue (B.sight board.old).told
        → ReadsFiles (B.sight board.old) result (B.sight board.new) }
{
    let first = read_side(alloc, board, Side::First)?;
    let second = read_side(alloc, board, Side::Second)?;
    Ok(Pair { first, second })
}
