//! A reader of texts and bytes. Each line of its input has a function and its arguments, and its
//! output has the answer to each: what was read, or where and why it was refused. A line that begins
//! with `#` is a heading, which is printed as it is, and says where what must be printed comes from.
//!
//! An argument is bytes: hex digits, or `'` and a text in which `_` is a space, or `-` for none; with
//! `*` and a number so many times, and with `+` between them one behind another. A number is at most
//! eight bytes, the highest first.
#![tactic(auto)]

mod credentials;
mod fault;
mod fields;
mod files;
mod grammar;
mod lines;
mod naming;
mod records;
mod refusals;
mod replies;
mod words;

use fault::RowFault;
use std::alloc::{AllocError, Global};
use std::io;
use words::bytes_of;

fn main(rt: HostRuntime) -> io::Result<()> {
    for line in rt.lines(rt.alloc()) {
        let line = line?;
        let text = answered(rt.alloc(), line.as_str())?;
        println!(rt; "{text}")?;
    }
    Ok(())
}

/// A heading as it is, else the answer to a row.
fn answered(alloc: Global, line: &str) -> Result<String, AllocError> {
    if line.starts_with('#') {
        return line.to_string(alloc);
    }
    match answer_to(alloc, line) {
        Ok(text) => Ok(text),
        Err(RowFault::Memory) => Err(AllocError),
        Err(RowFault::Form) => "no row".to_string(alloc),
    }
}

/// What the function that the first word names gives for the others.
fn answer_to(alloc: Global, line: &str) -> Result<String, RowFault> {
    let mut words = line.split_whitespace();
    let name = words.next().unwrap_or("");
    let mut args = Vec::new(alloc);
    for word in words {
        put_arg(&mut args, bytes_of(alloc, word))?;
    }
    answer(alloc, name, args.as_slice())
}

fn put_arg(args: &mut Vec<Vec<u8>>, arg: Result<Vec<u8>, RowFault>) -> Result<(), RowFault> {
    match args.push(arg?) {
        Ok(()) => Ok(()),
        Err(_) => Err(RowFault::Memory),
    }
}

/// What the function with this name gives for these arguments.
fn answer(alloc: Global, name: &str, args: &[Vec<u8>]) -> Result<String, RowFault> {
    match name {
        "reader" => fields::read(alloc, args),
        "hex-upper" => fields::upper(alloc, args),
        "hex-lower" => fields::lower(alloc, args),
        "fields" => fields::put(alloc, args),
        "user-list" => fields::users(alloc, args),
        "name-list" => fields::names(alloc, args),
        "credential" => credentials::tested(alloc, args),
        "no-credential" => credentials::none(alloc, args),
        "metrics" => credentials::counted(alloc, args),
        "kind-code" => credentials::code(alloc, args),
        "kind-of-code" => credentials::kind(alloc, args),
        "number-word" => grammar::number(alloc, args),
        "credential-word" => grammar::credential(alloc, args),
        "hex-word" => grammar::digits(alloc, args),
        "column" => lines::column(alloc, args),
        "broken-rule" => lines::broken_rule(alloc, args),
        "commands" => lines::commands(alloc, args),
        "token-commands" => lines::token_commands(alloc, args),
        "change-token" | "token-user" | "reply-place" => lines::asked(alloc, name, args),
        _ => answer_of_layout(alloc, name, args),
    }
}

/// The same, of replies, files and records.
fn answer_of_layout(alloc: Global, name: &str, args: &[Vec<u8>]) -> Result<String, RowFault> {
    match name {
        "no-line" => refusals::no_line(alloc, args),
        "refusal" => refusals::refused(alloc, args),
        "reply" => replies::plain(alloc, args),
        "status" => replies::status(alloc, args),
        "users" => replies::users(alloc, args),
        "opened" => replies::opened(alloc, args),
        "resumed-size" => replies::resumed_size(alloc, args),
        "file-name" => files::named(alloc, args),
        "file" => files::fault(alloc, args),
        "opened-metrics" => files::metrics(alloc, args),
        "slot-file" => files::slot(alloc, args),
        "handle-file" => files::handle(alloc, args),
        "pwd-file" => files::cost(alloc, args),
        "record" => records::parsed(alloc, args),
        _ => records::asked(alloc, name, args),
    }
}
