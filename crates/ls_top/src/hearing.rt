//! The script as it comes, in pieces.
ghost use Rattle.std.specs.Prelude.{◌≡◌, ◌≤◌, ◌+◌, ◌++◌, ◌∷◌, [], ℕ, List, length, take, IsTrue, OnOk, IfOk, IfErr};
ghost use Rattle.ls_board.specs.Keeping.{Keeps};
ghost use Rattle.ls_board.specs.declared.action.BoardFault.TheVariants as board_fault;
ghost use Rattle.ls_board.specs.Acts.{Sight};
ghost use Rattle.ls_top.specs.Ending.{IsEnding, IsOutcome};
ghost use Rattle.ls_lines.specs.Lines.{lines_of};
ghost use Rattle.ls_top.specs.Serving.{Serving, CutShort, Progress, Hears};

use crate::partial_line::PartialLine;
use crate::serving::serve_line;
use crate::vault::Users;
use ls_board::{Action, Board, BoardFault};
use std::alloc::Global;

/// The most bytes that are heard at once.
const PIECE: u32 = 4096;

/// The longest script, in bytes.
const LONGEST: u32 = 1 << 30;

/// How the hearing of a script ended.
#[derive(Clone, Copy, Debug, PartialEq, Eq)]
pub enum Ending {
    /// The input is at its end.
    AtEnd,
    /// As many bytes were heard as a script may have, and one more came.
    AtLimit,
}

/// Serves the input, a piece at a time.
pub fn serve_input<B: Board>(
    alloc: Global,
    board: &mut B,
    users: Users,
) -> Result<Ending, BoardFault>
    ensures keeps { Keeps board_fault.Failed (B.sight board.old) (B.sight board.new) result }
    ensures ends { IsTrue (B.sight board.old).told → (start : Sight) (first : List ℕ)
        → (B.sight board.old).world.input ≡ start.world.input
        → Serving start (B.sight board.old) first [] users
        → IfOk result (IsOutcome start (B.sight board.new) first) }
    ensures cut { IsTrue (B.sight board.old).told → (start : Sight) (first : List ℕ)
        → (B.sight board.old).world.input ≡ start.world.input
        → Serving start (B.sight board.old) first [] users
        → IfErr result (CutShort start (B.sight board.new) first) }
{
    let mut users = users;
    let mut line = PartialLine::new(alloc);
    let mut out = Vec::new(alloc);
    match hear_all(alloc, board, &mut users, &mut line, &mut out)? {
        Ending::AtEnd => {
            serve_last(alloc, board, &mut users, &line, &mut out)?;
            Ok(Ending::AtEnd)
        }
        Ending::AtLimit => Ok(Ending::AtLimit),
    }
}

/// Hears the input to its end, or to one byte more than a script may have, and serves each line
/// that is complete.
fn hear_all<B: Board>(
    alloc: Global,
    board: &mut B,
    users: &mut Users,
    line: &mut PartialLine,
    out: &mut Vec<u8>,
) -> Result<Ending, BoardFault>
    ensures keeps { Keeps board_fault.Failed (B.sight board.old) (B.sight board.new) result }
    ensures ends { IsTrue (B.sight board.old).told → (start : Sight) (first : List ℕ)
        → (B.sight board.old).world.input ≡ start.world.input → line.old ≡ []
        → Serving start (B.sight board.old) first [] users.old
        → IfOk result (IsEnding start (B.sight board.new) first users.new line.new) }
    ensures cut { IsTrue (B.sight board.old).told → (start : Sight) (first : List ℕ)
        → (B.sight board.old).world.input ≡ start.world.input → line.old ≡ []
        → Serving start (B.sight board.old) first [] users.old
        → IfErr result (CutShort start (B.sight board.new) first) }
{
    let mut piece = Vec::new(alloc);
    let mut left = LONGEST;
    while left > 0 {
        hear(alloc, board, left.min(PIECE), &mut piece)?;
        if piece.is_empty() {
            return Ok(Ending::AtEnd);
        }
        serve_piece(alloc, board, users, line, &piece, out)?;
        left -= piece.len() as u32;
    }
    hear(alloc, board, 1, &mut piece)?;
    if piece.is_empty() {
        Ok(Ending::AtEnd)
    } else {
        Ok(Ending::AtLimit)
    }
}

/// Hears at most so many bytes. There are none where the input is at its end.
fn hear<B: Board>(
    alloc: Global,
    board: &mut B,
    max: u32,
    piece: &mut Vec<u8>,
) -> Result<(), BoardFault>
    requires some { 1 ≤ max }
    ensures keeps { Keeps board_fault.Failed (B.sight board.old) (B.sight board.new) result }
    ensures few { OnOk result (length piece.new.items ≤ max) }
    ensures hears { IsTrue (B.sight board.old).told
        → Hears (B.sight board.old) max result piece.new.items (B.sight board.new) }
{
    let hear = Action::Hear { max };
    board.ready(alloc, 1, 0)?;
    board.act(&hear, piece)?;
    Ok(())
}

/// Serves each line that ends in this piece, and keeps what comes behind the last of them.
fn serve_piece<B: Board>(
    alloc: Global,
    board: &mut B,
    users: &mut Users,
    line: &mut PartialLine,
    piece: &[u8],
    out: &mut Vec<u8>,
) -> Result<(), BoardFault>
    ensures keeps { Keeps board_fault.Failed (B.sight board.old) (B.sight board.new) result }
    ensures input { IsTrue (B.sight board.old).told
        → (B.sight board.new).world.input ≡ (B.sight board.old).world.input }
    ensures served { IsTrue (B.sight board.old).told
        → (start : Sight) (first heard rest : List ℕ)
        → start.world.input ≡ heard ++ (piece.now ++ rest)
        → Progress start (B.sight board.old) first heard users.old line.old
        → OnOk result
        (Progress start (B.sight board.new) first (heard ++ piece.now) users.new line.new) }
    ensures cut { IsTrue (B.sight board.old).told
        → (start : Sight) (first heard rest : List ℕ)
        → start.world.input ≡ heard ++ (piece.now ++ rest)
        → Progress start (B.sight board.old) first heard users.old line.old
        → IfErr result (CutShort start (B.sight board.new) first) }
{
    for b in piece {
        serve_byte(alloc, board, users, line, *b, out)?;
    }
    Ok(())
}

/// Takes one byte of the script: a 0x0A ends a line, which is served.
fn serve_byte<B: Board>(
    alloc: Global,
    board: &mut B,
    users: &mut Users,
    line: &mut PartialLine,
    b: u8,
    out: &mut Vec<u8>,
) -> Result<(), BoardFault>
    ensures keeps { Keeps board_fault.Failed (B.sight board.old) (B.sight board.new) result }
    ensures input { IsTrue (B.sight board.old).told
        → (B.sight board.new).world.input ≡ (B.sight board.old).world.input }
    ensures served { IsTrue (B.sight board.old).told
        → (start : Sight) (first heard rest : List ℕ)
        → start.world.input ≡ heard ++ b ∷ rest
        → Progress start (B.sight board.old) first heard users.old line.old
        → OnOk result
        (Progress start (B.sight board.new) first (heard ++ b ∷ []) users.new line.new) }
    ensures cut { IsTrue (B.sight board.old).told
        → (start : Sight) (first heard rest : List ℕ)
        → start.world.input ≡ heard ++ b ∷ rest
        → Progress start (B.sight board.old) first heard users.old line.old
        → IfErr result (CutShort start (B.sight board.new) first) }
{
    if b == b'\n' {
        serve_line(alloc, board, users, line.as_slice(), out)?;
        line.clear();
    } else {
        line.push(b)?;
    }
    Ok(())
}

/// Serves what stands behind the last 0x0A, if there is something.
fn serve_last<B: Board>(
    alloc: Global,
    board: &mut B,
    users: &mut Users,
    line: &PartialLine,
    out: &mut Vec<u8>,
) -> Result<(), BoardFault>
    ensures keeps { Keeps board_fault.Failed (B.sight board.old) (B.sight board.new) result }
    ensures input { IsTrue (B.sight board.old).told
        → (B.sight board.new).world.input ≡ (B.sight board.old).world.input }
    ensures served { IsTrue (B.sight board.old).told → (start : Sight) (first : List ℕ)
        → Progress start (B.sight board.old) first start.world.input users.old line.now
        → OnOk result
        (Serving start (B.sight board.new) first (lines_of start.world.input) users.new) }
    ensures cut { IsTrue (B.sight board.old).told → (start : Sight) (first : List ℕ)
        → Progress start (B.sight board.old) first start.world.input users.old line.now
        → IfErr result (CutShort start (B.sight board.new) first) }
{
    let last = line.as_slice();
    if last.is_empty() {
        return Ok(());
    }
    serve_line(alloc, board, users, last, out)
}
