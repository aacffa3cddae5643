//! The script as it comes, in pieces.
ghost use Rattle.std.specs.Prelude.{◌≡◌, ◌≤◌, ◌+◌, ◌++◌, ◌∷◌, [], ℕ, List, length, take, IsTrue, OnOk, IfOk, OnErr, Ok};
ghost use Rattle.ls_board.specs.Keeping.{Keeps};
ghost use Rattle.ls_board.specs.declared.action.BoardFault.TheVariants as board_fault;
ghost use Rattle.ls_board.specs.Acts.{Sight};
ghost use Rattle.ls_serving.specs.Ending.{IsInputAt, IsEnding, IsOutcome};
ghost use Rattle.ls_lines.specs.Lines.{lines_of};
ghost use Rattle.ls_board.specs.Runs.{LeavesOnly};
ghost use Rattle.ls_serving.specs.Held.{SaysFront, IsHeld};
ghost use Rattle.ls_serving.specs.Machine.{replies_of};
ghost use Rattle.ls_serving.specs.Met.{NoChance};
ghost use Rattle.ls_serving.specs.Serving.{Serving, Begun, CutShort, Progress};
ghost use Rattle.ls_serving.specs.Turns.{CallsInTurn};

use crate::calls::{PIECE, hear};
use crate::partial_line::PartialLine;
use crate::service::Service;
use crate::serving::{finish, serve_line};
use ls_board::{Board, BoardFault};
use std::alloc::Global;

/// The longest script, in bytes.
const LONGEST: u32 = 1 << 30;

/// How the hearing of a script ended.
#[derive(Clone, Copy)]
pub enum Ending {
    /// The input is at its end.
    AtEnd,
    /// As many bytes were heard as a script may have, and one more came.
    AtLimit,
}

/// Serves the script that the input is, a piece at a time. At its end no file is left that serves no
/// more, and all is synced.
///
/// What is said of a board that tells its world holds of a run that was begun at the first world, in
/// which nothing matched by chance. The run may have begun before this call, by other calls.
pub fn serve_input<B: Board, S: Service>(
    alloc: Global,
    board: &mut B,
    service: &mut S,
) -> Result<Ending, BoardFault>
    requires can { S.can service.now (B.sight board.now) }
    // ---- A fault comes only where its part's count rose, and no other answer where a count grew.
    ensures keeps { Keeps board_fault.Failed (B.sight board.old) (B.sight board.new) result }
    // ---- Each image since the start, at every moment and within every call, stands for the state
    // after the first commands of the script: all whose reply was said in it, and at most those of one
    // line more.
    ensures held { IsTrue (B.sight board.old).told → (start : Sight) (first : S.machine.Stage)
        → Begun S.machine (S.agrees start.world service.old) start (B.sight board.old) first
        → NoChance S.machine first start (B.sight board.new)
        → LeavesOnly start (B.sight board.new) (IsHeld S.machine start.world first) }
    // ---- Whatever it answers, a front of the replies was said.
    ensures front { IsTrue (B.sight board.old).told → (start : Sight) (first : S.machine.Stage)
        → Begun S.machine (S.agrees start.world service.old) start (B.sight board.old) first
        → NoChance S.machine first start (B.sight board.new)
        → SaysFront S.machine start.world first (B.sight board.new).world }
    // ---- At the end exactly the replies were said.
    ensures all_said { IsTrue (B.sight board.old).told → result ≡ Ok Ending.AtEnd
        → (start : Sight) (first : S.machine.Stage)
        → Begun S.machine (S.agrees start.world service.old) start (B.sight board.old) first
        → NoChance S.machine first start (B.sight board.new)
        → (B.sight board.new).world.said
        ≡ start.world.said ++ replies_of S.machine first (lines_of start.world.input) }
    // ---- Each line is answered as soon as it is complete, each reply by one Say, and only once a
    // crash leaves what stands for the state after its line.
    ensures calls { IsTrue (B.sight board.old).told → (start : Sight) (first : S.machine.Stage)
        → Begun S.machine (S.agrees start.world service.old) start (B.sight board.old) first
        → NoChance S.machine first start (B.sight board.new)
        → CallsInTurn S.machine start (B.sight board.new) first }
    // ---- How it ended: AtEnd comes exactly where the input was heard to its end, AtLimit where one
    // byte more came than a script may have, whatever the world stands for.
    ensures input { IsTrue (B.sight board.old).told → IfOk result
        (IsInputAt (B.sight board.old).world (B.sight board.new).world) }
    // ---- Which lines are answered then, and that the service agrees with the stage after them.
    ensures ends { IsTrue (B.sight board.old).told → (start : Sight) (first : S.machine.Stage)
        → Begun S.machine (S.agrees start.world service.old) start (B.sight board.old) first
        → IfOk result (IsOutcome S.machine (S.agrees start.world service.new)
        start (B.sight board.new) first) }
    ensures none { result ≡ Ok Ending.AtEnd → S.left service.new ≡ 0 }
{
    serve_all(alloc, board, service)
}

/// Serves the input, a piece at a time.
fn serve_all<B: Board, S: Service>(
    alloc: Global,
    board: &mut B,
    service: &mut S,
) -> Result<Ending, BoardFault>
    requires can { S.can service.now (B.sight board.now) }
    ensures keeps { Keeps board_fault.Failed (B.sight board.old) (B.sight board.new) result }
    ensures none { result ≡ Ok Ending.AtEnd → S.left service.new ≡ 0 }
    ensures input { IsTrue (B.sight board.old).told → IfOk result
        (IsInputAt (B.sight board.old).world (B.sight board.new).world) }
    ensures ends { IsTrue (B.sight board.old).told → (start : Sight) (first : S.machine.Stage)
        → (B.sight board.old).world.input ≡ start.world.input
        → Serving S.machine (S.agrees start.world service.old)
        start (B.sight board.old) first []
        → IfOk result (IsOutcome S.machine (S.agrees start.world service.new)
        start (B.sight board.new) first) }
    ensures cut { IsTrue (B.sight board.old).told → (start : Sight) (first : S.machine.Stage)
        → (B.sight board.old).world.input ≡ start.world.input
        → Serving S.machine (S.agrees start.world service.old)
        start (B.sight board.old) first []
        → OnErr result (CutShort S.machine start (B.sight board.new) first) }
{
    let mut line = PartialLine::new(alloc);
    let mut out = Vec::new(alloc);
    match hear_all(alloc, board, service, &mut line, &mut out)? {
        Ending::AtEnd => {
            serve_last(alloc, board, service, &line, &mut out)?;
            finish(alloc, board, service, &mut out)?;
            Ok(Ending::AtEnd)
        }
        Ending::AtLimit => Ok(Ending::AtLimit),
    }
}

/// Hears the input to its end, or to one byte more than a script may have, and serves each line
/// that is complete.
fn hear_all<B: Board, S: Service>(
    alloc: Global,
    board: &mut B,
    service: &mut S,
    line: &mut PartialLine,
    out: &mut Vec<u8>,
) -> Result<Ending, BoardFault>
    requires can { S.can service.now (B.sight board.now) }
    ensures keeps { Keeps board_fault.Failed (B.sight board.old) (B.sight board.new) result }
    ensures can { OnOk result (S.can service.new (B.sight board.new)) }
    ensures input { IsTrue (B.sight board.old).told → IfOk result
        (IsInputAt (B.sight board.old).world (B.sight board.new).world) }
    ensures ends { IsTrue (B.sight board.old).told → (start : Sight) (first : S.machine.Stage)
        → (B.sight board.old).world.input ≡ start.world.input → line.old ≡ []
        → Serving S.machine (S.agrees start.world service.old)
        start (B.sight board.old) first []
        → IfOk result (IsEnding S.machine (S.agrees start.world service.new)
        start (B.sight board.new) first line.new) }
    ensures cut { IsTrue (B.sight board.old).told → (start : Sight) (first : S.machine.Stage)
        → (B.sight board.old).world.input ≡ start.world.input → line.old ≡ []
        → Serving S.machine (S.agrees start.world service.old)
        start (B.sight board.old) first []
        → OnErr result (CutShort S.machine start (B.sight board.new) first) }
{
    let mut piece = Vec::new(alloc);
    let mut left = LONGEST;
    while left > 0 {
        hear(alloc, board, left.min(PIECE), &mut piece)?;
        if piece.is_empty() {
            return Ok(Ending::AtEnd);
        }
        serve_piece(alloc, board, service, line, &piece, out)?;
        left -= piece.len() as u32;
    }
    hear(alloc, board, 1, &mut piece)?;
    if piece.is_empty() {
        Ok(Ending::AtEnd)
    } else {
        Ok(Ending::AtLimit)
    }
}

/// Serves each line that ends in this piece, and keeps what comes behind the last of them.
fn serve_piece<B: Board, S: Service>(
    alloc: Global,
    board: &mut B,
    service: &mut S,
    line: &mut PartialLine,
    piece: &[u8],
    out: &mut Vec<u8>,
) -> Result<(), BoardFault>
    requires can { S.can service.now (B.sight board.now) }
    ensures keeps { Keeps board_fault.Failed (B.sight board.old) (B.sight board.new) result }
    ensures can { OnOk result (S.can service.new (B.sight board.new)) }
    ensures input { IsTrue (B.sight board.old).told
        → (B.sight board.new).world.input ≡ (B.sight board.old).world.input }
    ensures served { IsTrue (B.sight board.old).told
        → (start : Sight) (first : S.machine.Stage) (heard rest : List ℕ)
        → start.world.input ≡ heard ++ (piece.now ++ rest)
        → Progress S.machine (S.agrees start.world service.old)
        start (B.sight board.old) first heard line.old
        → OnOk result
        (Progress S.machine (S.agrees start.world service.new)
        start (B.sight board.new) first (heard ++ piece.now) line.new) }
    ensures cut { IsTrue (B.sight board.old).told
        → (start : Sight) (first : S.machine.Stage) (heard rest : List ℕ)
        → start.world.input ≡ heard ++ (piece.now ++ rest)
        → Progress S.machine (S.agrees start.world service.old)
        start (B.sight board.old) first heard line.old
        → OnErr result (CutShort S.machine start (B.sight board.new) first) }
{
    for b in piece {
        serve_byte(alloc, board, service, line, *b, out)?;
    }
    Ok(())
}

/// Takes one byte of the script: a 0x0A ends a line, which is served.
fn serve_byte<B: Board, S: Service>(
    alloc: Global,
    board: &mut B,
    service: &mut S,
    line: &mut PartialLine,
    b: u8,
    out: &mut Vec<u8>,
) -> Result<(), BoardFault>
    requires can { S.can service.now (B.sight board.now) }
    ensures keeps { Keeps board_fault.Failed (B.sight board.old) (B.sight board.new) result }
    ensures can { OnOk result (S.can service.new (B.sight board.new)) }
    ensures input { IsTrue (B.sight board.old).told
        → (B.sight board.new).world.input ≡ (B.sight board.old).world.input }
    ensures served { IsTrue (B.sight board.old).told
        → (start : Sight) (first : S.machine.Stage) (heard rest : List ℕ)
        → start.world.input ≡ heard ++ b ∷ rest
        → Progress S.machine (S.agrees start.world service.old)
        start (B.sight board.old) first heard line.old
        → OnOk result
        (Progress S.machine (S.agrees start.world service.new)
        start (B.sight board.new) first (heard ++ b ∷ []) line.new) }
    ensures cut { IsTrue (B.sight board.old).told
        → (start : Sight) (first : S.machine.Stage) (heard rest : List ℕ)
        → start.world.input ≡ heard ++ b ∷ rest
        → Progress S.machine (S.agrees start.world service.old)
        start (B.sight board.old) first heard line.old
        → OnErr result (CutShort S.machine start (B.sight board.new) first) }
{
    if b == b'\n' {
        serve_line(alloc, board, service, line.as_slice(), out)?;
        line.clear();
    } else {
        line.push(b)?;
    }
    Ok(())
}

/// Serves what stands behind the last 0x0A, if there is something.
fn serve_last<B: Board, S: Service>(
    alloc: Global,
    board: &mut B,
    service: &mut S,
    line: &PartialLine,
    out: &mut Vec<u8>,
) -> Result<(), BoardFault>
    requires can { S.can service.now (B.sight board.now) }
    ensures keeps { Keeps board_fault.Failed (B.sight board.old) (B.sight board.new) result }
    ensures can { OnOk result (S.can service.new (B.sight board.new)) }
    ensures input { IsTrue (B.sight board.old).told
        → (B.sight board.new).world.input ≡ (B.sight board.old).world.input }
    ensures served { IsTrue (B.sight board.old).told → (start : Sight) (first : S.machine.Stage)
        → Progress S.machine (S.agrees start.world service.old)
        start (B.sight board.old) first start.world.input line.now
        → OnOk result
        (Serving S.machine (S.agrees start.world service.new)
        start (B.sight board.new) first (lines_of start.world.input)) }
    ensures cut { IsTrue (B.sight board.old).told → (start : Sight) (first : S.machine.Stage)
        → Progress S.machine (S.agrees start.world service.old)
        start (B.sight board.old) first start.world.input line.now
        → OnErr result (CutShort S.machine start (B.sight board.new) first) }
{
    let last = line.as_slice();
    if last.is_empty() {
        return Ok(());
    }
    serve_line(alloc, board, service, last, out)
}
