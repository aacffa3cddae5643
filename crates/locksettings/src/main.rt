//! The program: a script on standard input, served over a board in memory.
#![tactic(auto)]

mod input;
mod report;

use input::take_script;
use ls_board::{Part, World};
use ls_bytes::{Bytes, Memory};
use ls_memboard::{FailureList, MemBoard};
use ls_top::{Status, run};
use report::report;
use std::alloc::Global;
use std::io::Write;
use std::process::ExitCode;
use std::rt::Env;
use std::{env, io};

/// The Weaver slots of the board.
const SLOTS: u32 = 64;

fn main(rt: HostRuntime) -> ExitCode {
    let status = match words(&rt) {
        Ok(words) => serve(&rt, &words),
        Err(_) => Status::Memory,
    };
    report(&rt, &status)
}

/// The words of the command line behind the program's name.
fn words(rt: &(impl Env + AllocGlobal)) -> io::Result<Vec<String>> {
    let mut words = Vec::new(rt.alloc());
    for word in env::args(rt)?.skip(1) {
        words.push(word)?;
    }
    Ok(words)
}

/// Runs the words behind the directory on the script, and prints what was said.
fn serve(rt: &HostRuntime, words: &[String]) -> Status {
    match words {
        [] => Status::Usage,
        [_, words @ ..] => match begun(rt) {
            Ok(mut board) => {
                let status = run(rt.alloc(), words, &mut board);
                printed(rt, &board, status)
            }
            Err(status) => status,
        },
    }
}

/// A board whose input is the script on standard input.
fn begun(rt: &HostRuntime) -> Result<MemBoard, Status> {
    let script = take_script(rt.alloc(), rt.stdin())?;
    board(rt.alloc(), script).map_err(|_| Status::Memory)
}

/// Prints what was said, and gives the status.
fn printed(rt: &HostRuntime, board: &MemBoard, status: Status) -> Status {
    match rt.stdout().write_all(board.said()) {
        Ok(()) => status,
        Err(_) => Status::Fault(Part::Output),
    }
}

/// A board on which nothing is stored, with this script as its input.
fn board(alloc: Global, script: Bytes) -> Result<MemBoard, Memory> {
    let mut world = World::blank(alloc, SLOTS)?;
    world.input = script;
    MemBoard::new(alloc, world, FailureList::new(alloc))
}

#[cfg(test)]
mod tests;
