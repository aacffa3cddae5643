//! Calls of a board in memory, a letter each: what they answer, and what failed ones leave.
ghost use Rattle.std.specs.Prelude.{◌≡◌, ℕ, List, IsTrue, IfOk};
ghost use Rattle.ls_board.specs.declared.action.Action.TheVariants.{Put};
ghost use Rattle.ls_board.specs.declared.world.World.{World as Worlds};
ghost use Rattle.ls_board.specs.Effect.{Applies, IsSound};
ghost use Rattle.ls_board.specs.Runs.{AllSound, AllApply};
ghost use Rattle.ls_memboard.specs.Seen.{sight_of};

use crate::fault::RowFault;
use crate::words::{content_of, digits_of, failures_of};
use ls_board::{Action, Answer, Board, BoardFault, Part, Plan, World};
use ls_bytes::{Bytes, Memory, Name};
use ls_fixtures::{act_with_room, run_with_room};
use ls_memboard::{FailureList, MemBoard};
use std::alloc::Global;

/// The text `opened`, sealed by another program under the key that `K` puts.
const SEALED: &[u8; 34] =
    b"abcdefghijkl\x0b\x1f\x43\xa0\xfb\xd2\x63\x6e\x58\xb6\xea\xeb\xa9\x41\x5e\xaf\x5d\xc5\x3b\xe8\xb3\xad";

/// The calls that fail, the calls before, and the call: its answer and bytes, what the file `a`
/// holds then, and how many files are touched.
pub fn seen(alloc: Global, args: &[&str]) -> Result<String, RowFault> {
    match args {
        [failures, before, last] => {
            let mut board = board_of(alloc, failures_of(alloc, *failures)?, before.as_bytes())?;
            let last = last.as_bytes().first().copied().unwrap_or(b'?');
            let mut out = Vec::new(alloc);
            let answer = act(alloc, &mut board, last, &mut out)?;
            sight(alloc, answer_text(&answer), &out, &board)
        }
        _ => Err(RowFault::Form),
    }
}

/// What is seen behind a call.
fn sight(alloc: Global, answer: &str, out: &[u8], board: &MemBoard) -> Result<String, RowFault> {
    let world = board.world()?;
    let out = digits_of(alloc, out)?;
    let file = content_of(alloc, world.files.content(b"a"))?;
    let touched = world.touched.len();
    Ok(format!(in alloc; "{answer} {out} {file} {touched}")?)
}

/// A board that made these calls and begins again on a blank world: how many calls it made since,
/// and how many files there are.
pub fn restarted(alloc: Global, args: &[&str]) -> Result<String, RowFault> {
    match args {
        [letters] => {
            let mut board = board_of(alloc, FailureList::new(alloc), letters.as_bytes())?;
            board.restart(World::blank(alloc, 0)?)?;
            let files = board.world()?.files.len();
            let calls = board.moment();
            Ok(format!(in alloc; "{calls} {files}")?)
        }
        _ => Err(RowFault::Form),
    }
}

/// The calls that fail: how a plan that puts two files and syncs ends.
pub fn planned(alloc: Global, args: &[&str]) -> Result<String, RowFault> {
    match args {
        [failures] => {
            let mut board = board_of(alloc, failures_of(alloc, *failures)?, b"")?;
            run_puts(alloc, &mut board)
        }
        _ => Err(RowFault::Form),
    }
}

fn run_puts<B: Board>(alloc: Global, board: &mut B) -> Result<String, RowFault> {
    let plan = two_puts(alloc)?;
    match run_with_room(alloc, board, &plan)? {
        Ok(()) => Ok("done".to_string(alloc)?),
        Err(fault) => {
            let (at, part) = (fault.at, part_text(fault.part));
            Ok(format!(in alloc; "{part} {at}")?)
        }
    }
}

/// Puts two files and syncs.
fn two_puts(alloc: Global) -> Result<Plan, RowFault>
    ensures sound { IfOk result (λ plan. (slots : ℕ) → AllSound slots plan) }
    ensures applies { IfOk result (λ plan. (w : Worlds) → AllApply w plan) }
{
    let mut plan = Plan::new(alloc);
    plan.push(put_of(alloc, b"a")?)?;
    plan.push(put_of(alloc, b"b")?)?;
    plan.push(Action::Sync)?;
    Ok(plan)
}

fn put_of(alloc: Global, name: &[u8]) -> Result<Action, RowFault>
    ensures puts { IfOk result (λ a. (n : List ℕ) × (bytes : List ℕ) × (a ≡ Put n bytes)) }
{
    Ok(Action::Put {
        name: Name::of(alloc, name)?,
        bytes: Bytes::of(alloc, b"pq")?,
    })
}

/// A board that holds the file `a`, fails these calls, and has done these actions.
pub fn board_of(
    alloc: Global,
    failures: FailureList,
    letters: &[u8],
) -> Result<MemBoard, RowFault> {
    let mut start = World::blank(alloc, 0)?;
    start.put_file(&Name::of(alloc, b"a")?, b"wxyz")?;
    let mut board = MemBoard::new(alloc, start, failures)?;
    act_all(alloc, &mut board, letters)?;
    Ok(board)
}

/// Does the actions of these letters; `-` does nothing.
fn act_all(alloc: Global, board: &mut MemBoard, letters: &[u8]) -> Result<(), RowFault> {
    let mut out = Vec::new(alloc);
    for letter in letters {
        if *letter != b'-' {
            let _ = act(alloc, board, *letter, &mut out)?;
        }
    }
    Ok(())
}

/// Does the action of a letter.
fn act(
    alloc: Global,
    board: &mut MemBoard,
    letter: u8,
    out: &mut Vec<u8>,
) -> Result<Result<Answer, BoardFault>, RowFault> {
    let action = action_of(alloc, letter)?;
    if !applies(board, &action)? {
        return Err(RowFault::Form);
    }
    Ok(act_with_room(alloc, board, &action, out)?)
}

/// The action of a letter.
fn action_of(alloc: Global, letter: u8) -> Result<Action, RowFault>
    ensures sound { IfOk result (λ a. (slots : ℕ) → IsSound slots a) }
{
    match letter {
        b'S' => Ok(Action::Sync),
        b'L' => Ok(Action::List),
        b'G' => Ok(Action::GkEnroll { sid: 5 }),
        b'g' => Ok(Action::GkList),
        b'K' => Ok(Action::KeyPut {
            alias: 7,
            key: [1; 32],
        }),
        b'k' => Ok(Action::KeyList),
        b'O' => opening(alloc, SEALED),
        b'o' => opening(alloc, &SEALED[..33]),
        b'H' => Ok(Action::Hear { max: 3 }),
        b'D' => Ok(Action::Draw { len: 2 }),
        _ => file_action(alloc, letter),
    }
}

/// The action of a letter on the file `a`, and of a small letter on the file `b`.
fn file_action(alloc: Global, letter: u8) -> Result<Action, RowFault>
    ensures sound { IfOk result (λ a. (slots : ℕ) → IsSound slots a) }
{
    let small = letter.is_ascii_lowercase();
    let name = Name::of(alloc, if small { b"b" } else { b"a" })?;
    match letter {
        b'M' => Ok(Action::Make { name, len: 4 }),
        b'W' | b'w' => Ok(Action::Put {
            name,
            bytes: Bytes::of(alloc, b"pq")?,
        }),
        b'P' => Ok(Action::Poke {
            name,
            at: 1,
            bytes: Bytes::of(alloc, b"\xa5")?,
        }),
        b'R' => Ok(Action::Remove { name }),
        _ => Ok(Action::Read { name }),
    }
}

/// The opening of a sealed text with the key that `K` puts.
fn opening(alloc: Global, sealed: &[u8]) -> Result<Action, RowFault>
    ensures sound { IfOk result (λ a. (slots : ℕ) → IsSound slots a) }
{
    Ok(Action::KeyOpen {
        alias: 7,
        bytes: Bytes::of(alloc, sealed)?,
    })
}

/// Whether the range of a poke lies in its file.
fn applies(board: &MemBoard, a: &Action) -> Result<bool, Memory>
    ensures applies { IfOk result (λ b. IsTrue b → Applies (sight_of board.now).world a.now) }
{
    match a {
        Action::Poke { name, at, bytes } => {
            let world = board.world()?;
            match world.files.content(name.as_slice()) {
                Some(old) => Ok(u64::from(*at) + bytes.as_slice().len() as u64 <= old.len() as u64),
                None => Ok(false),
            }
        }
        _ => Ok(true),
    }
}

fn answer_text(answer: &Result<Answer, BoardFault>) -> &'static str {
    match answer {
        Ok(Answer::Done) => "done",
        Ok(Answer::Bytes) => "bytes",
        Ok(Answer::Absent) => "absent",
        Ok(Answer::BadTag) => "bad-tag",
        Ok(Answer::NoKey) => "no-key",
        Ok(Answer::End) => "end",
        Ok(_) => "other",
        Err(BoardFault::Failed(part)) => part_text(*part),
        Err(BoardFault::Memory) => "memory",
    }
}

/// The name of a part that failed.
pub fn part_text(part: Part) -> &'static str {
    match part {
        Part::Files => "fault-Files",
        Part::Input => "fault-Input",
        Part::Output => "fault-Output",
        _ => "fault",
    }
}
