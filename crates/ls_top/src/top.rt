//! The top call.
ghost use Rattle.std.specs.Prelude.{◌≡◌, ◌≢◌, ◌≤◌, ◌<◌, ◌+◌, ◌^◌, ◌++◌, ◌⊎◌, ◌↔◌, [], ℕ, List, length, take, drop, map, string_bytes, IsTrue, IfOk, IfErr};
ghost use Rattle.ls_board.specs.Keeping.{Keeps};
ghost use Rattle.ls_board.specs.declared.action.BoardFault.TheVariants as board_fault;
ghost use Rattle.ls_board.specs.declared.action.Part.{Part as Parts};
ghost use Rattle.ls_board.specs.Acts.{Rose};
ghost use Rattle.ls_board.specs.Effect.{file_at};
ghost use Rattle.ls_top.specs.Runs.{StandsFor, HasForeignFile, SameButTouched, IsFault, Gives, SaysFront, HoldsFront, IsServed, CallsInTurn, EndsWithPut};
ghost use Rattle.ls_top.specs.RunEnds.{IsServeStatus, EndsAs, StopsAs};
ghost use Rattle.ls_lines.specs.Lines.{lines_of, parted};
ghost use Rattle.ls_top.specs.UsersFile.{settings_0};
ghost use Rattle.ls_top.specs.Words.{IsRun};

use crate::hearing::{Ending, serve_input};
use crate::opening::{Opening, open};
use crate::status::Status;
use crate::words::boot_of;
use ls_board::{Board, BoardFault};
use std::alloc::Global;

/// Serves the script that the board's input is, by the words behind the directory: `run --boot N`.
///
/// It syncs and reads `settings.0`, then hears pieces of at most 4,096 bytes and answers each line
/// as it is complete, at most 2^30 bytes.
pub fn run<B: Board>(alloc: Global, words: &[String], board: &mut B) -> Status
    // ---- Usage comes exactly where the words don't have the written form; then no action was made.
    ensures usage { (result ≡ Status.Usage) ↔ ¬ (IsRun (map string_bytes words.now)) }
    ensures formed { (result ≡ Status.Usage) ⊎ IsRun (map string_bytes words.now) }
    ensures no_action { result ≡ Status.Usage → board.new ≡ board.old }
    // ---- A fault comes only where its part's count rose in this run, and no other answer where a
    // count grew.
    ensures fault { (part : Parts) → result ≡ Status.Fault part
        → Rose ((B.sight board.old).faults part) ((B.sight board.new).faults part) }
    ensures quiet { IsFault result ⊎ ((B.sight board.new).faults ≡ (B.sight board.old).faults) }
    // ---- Foreign names `settings.0` and its first byte. Where the world is told, it comes exactly
    // where that file is there and isn't one of this program, and nothing was said or heard then.
    ensures foreign_name { (name : List ℕ) (at : ℕ) → result ≡ Status.Foreign name at
        → (name ≡ settings_0) × (at ≡ 0) }
    ensures foreign_cause { IsTrue (B.sight board.old).told
        → (name : List ℕ) (at : ℕ) → result ≡ Status.Foreign name at
        → HasForeignFile (B.sight board.old).world }
    ensures foreign { IsTrue (B.sight board.old).told → IsRun (map string_bytes words.now)
        → HasForeignFile (B.sight board.old).world
        → Gives (Status.Foreign settings_0 0) result
        × SameButTouched (B.sight board.old).world (B.sight board.new).world }
    // ---- TooLong comes exactly where 2^30 bytes were heard and one more came. What was said then
    // is the replies to the lines that were complete before.
    ensures too_long_cause { IsTrue (B.sight board.old).told → result ≡ Status.TooLong
        → (2 ^ 30 < length (B.sight board.old).world.input)
        × ((B.sight board.new).world.input
        ≡ drop (2 ^ 30 + 1) (B.sight board.old).world.input) }
    ensures too_long_said { IsTrue (B.sight board.old).told → result ≡ Status.TooLong
        → (users : List ℕ) → StandsFor (B.sight board.old).world users
        → IsServed (B.sight board.old).world (B.sight board.new).world users
        (parted (take (2 ^ 30) (B.sight board.old).world.input)).whole }
    ensures too_long { IsTrue (B.sight board.old).told → IsRun (map string_bytes words.now)
        → (users : List ℕ) → StandsFor (B.sight board.old).world users
        → 2 ^ 30 < length (B.sight board.old).world.input → Gives Status.TooLong result }
    // ---- Done comes exactly where the input was heard to its end and every reply was said.
    ensures done_cause { IsTrue (B.sight board.old).told → result ≡ Status.Done
        → (length (B.sight board.old).world.input ≤ 2 ^ 30)
        × ((B.sight board.new).world.input ≡ []) }
    ensures done { IsTrue (B.sight board.old).told → IsRun (map string_bytes words.now)
        → (users : List ℕ) → StandsFor (B.sight board.old).world users
        → length (B.sight board.old).world.input ≤ 2 ^ 30 → Gives Status.Done result }
    // ---- These two come only where the files stand for some users.
    ensures opened { IsTrue (B.sight board.old).told
        → (result ≡ Status.Done) ⊎ (result ≡ Status.TooLong)
        → (users : List ℕ) × StandsFor (B.sight board.old).world users }
    // ---- Where no count rose, a script that isn't too long is served, or memory ran out.
    ensures complete { IsTrue (B.sight board.old).told → IsRun (map string_bytes words.now)
        → (users : List ℕ) → StandsFor (B.sight board.old).world users
        → length (B.sight board.old).world.input ≤ 2 ^ 30
        → ((part : Parts)
        → ¬ (Rose ((B.sight board.old).faults part) ((B.sight board.new).faults part)))
        → (result ≡ Status.Done) ⊎ (result ≡ Status.Memory) }
    // ---- With Done exactly the replies of the vault machine were said, and the files stand for the
    // users after the script.
    ensures all_said { IsTrue (B.sight board.old).told → result ≡ Status.Done
        → (users : List ℕ) → StandsFor (B.sight board.old).world users
        → IsServed (B.sight board.old).world (B.sight board.new).world users
        (lines_of (B.sight board.old).world.input) }
    // ---- With every status a front of the replies was said.
    ensures front { IsTrue (B.sight board.old).told
        → (users : List ℕ) → StandsFor (B.sight board.old).world users
        → SaysFront (B.sight board.old).world (B.sight board.new).world users }
    // ---- The files stand for the users after all commands that were answered, and at most one
    // more. Only where the put of a changed file failed may it hold anything.
    ensures held { IsTrue (B.sight board.old).told
        → (users : List ℕ) → StandsFor (B.sight board.old).world users
        → ((result ≡ Status.Fault Parts.Files) × EndsWithPut (B.sight board.new).past)
        ⊎ HoldsFront (B.sight board.old).world (B.sight board.new).world users }
    // ---- No other file is changed.
    ensures others { IsTrue (B.sight board.old).told → (name : List ℕ) → name ≢ settings_0
        → file_at (B.sight board.new).world name ≡ file_at (B.sight board.old).world name }
    // ---- A line is answered as soon as it is complete, each reply by one Say, and only once the
    // change that it tells is on the disk.
    ensures calls { IsTrue (B.sight board.old).told
        → (users : List ℕ) → StandsFor (B.sight board.old).world users
        → CallsInTurn (B.sight board.old) (B.sight board.new) users }
{
    if boot_of(words).is_none() {
        return Status::Usage;
    }
    match serve(alloc, board) {
        Ok(status) => status,
        Err(BoardFault::Failed(part)) => Status::Fault(part),
        Err(BoardFault::Memory) => Status::Memory,
    }
}

/// Opens the directory and serves the script.
fn serve<B: Board>(alloc: Global, board: &mut B) -> Result<Status, BoardFault>
    ensures keeps { Keeps board_fault.Failed (B.sight board.old) (B.sight board.new) result }
    ensures status { IfOk result IsServeStatus }
    ensures ends { IsTrue (B.sight board.old).told
        → IfOk result (EndsAs (B.sight board.old) (B.sight board.new)) }
    ensures cut { IsTrue (B.sight board.old).told
        → IfErr result (StopsAs (B.sight board.old) (B.sight board.new)) }
{
    match open(alloc, board)? {
        Opening::Foreign(name) => Ok(Status::Foreign { name, at: 0 }),
        Opening::Found(users) => match serve_input(alloc, board, users)? {
            Ending::AtEnd => Ok(Status::Done),
            Ending::AtLimit => Ok(Status::TooLong),
        },
    }
}
