//! A calculator of runs: scripts on the vault machine, calls of a board in memory and what a crash
//! leaves of them, settings and their commits, and whole runs of the program. Each line of its input
//! has a function and its arguments, and its output has the answer to each; a line that begins with
//! `#` is a heading, which is printed as it is. What it must print is from outside, as the headings
//! say.
//!
//! Behind ` : ` stands a script, in which `|` ends a line and `~` stands for 4,078 letters `a`. Bytes
//! are hex digits, or `-` for none; joined by `+`, and repeated by `*` and a number.
#![tactic(auto)]

mod calls;
mod commits;
mod fault;
mod images;
mod machine;
mod runs;
mod settings;
mod words;

use fault::RowFault;
use machine::Left;
use std::alloc::{AllocError, Global};
use std::io;
use words::script_of;

fn main(rt: HostRuntime) -> io::Result<()> {
    let mut left = Left::nobody(rt.alloc());
    for line in rt.lines(rt.alloc()) {
        let line = line?;
        let text = answered(rt.alloc(), &mut left, line.as_str())?;
        println!(rt; "{text}")?;
    }
    Ok(())
}

/// A heading as it is, else the answer to a row.
fn answered(alloc: Global, left: &mut Left, line: &str) -> Result<String, AllocError> {
    if line.starts_with('#') {
        return line.to_string(alloc);
    }
    match answer_to(alloc, left, line) {
        Ok(text) => Ok(text),
        Err(RowFault::Memory) => Err(AllocError),
        Err(RowFault::Form) => "no row".to_string(alloc),
    }
}

/// What the function that the first word names gives for the others and the script.
fn answer_to(alloc: Global, left: &mut Left, line: &str) -> Result<String, RowFault> {
    let (head, script) = line.split_once(" : ").unwrap_or((line, ""));
    let script = script_of(alloc, script)?;
    let mut words = head.split_whitespace();
    let name = words.next().unwrap_or("");
    let mut args = Vec::new(alloc);
    for word in words {
        args.push(word).map_err(|_| RowFault::Memory)?;
    }
    match name {
        "machine" => machine::answered(alloc, left, args.as_slice(), script.as_slice()),
        "run" => runs::ended(alloc, args.as_slice(), script.as_slice()),
        "plain" => runs::plain(alloc, script.as_slice()),
        _ => answer(alloc, name, args.as_slice()),
    }
}

/// What the function with this name gives for these arguments.
fn answer(alloc: Global, name: &str, args: &[&str]) -> Result<String, RowFault> {
    match name {
        "call" => calls::seen(alloc, args),
        "restart" => calls::restarted(alloc, args),
        "plan" => calls::planned(alloc, args),
        "image" => images::left(alloc, args),
        "load" => settings::loaded(alloc, args),
        "look" => settings::looked(alloc, args),
        "prepare" => settings::prepared(alloc, args),
        "commit" => commits::images(alloc, args),
        "written" => commits::written(alloc, args),
        _ => Err(RowFault::Form),
    }
}
