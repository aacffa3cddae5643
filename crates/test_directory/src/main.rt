//! A board over a directory, asked by rows. Each argument of the program is a row, a function and its
//! arguments as words, and its output has the answer to each. A row that begins with `#` is a heading,
//! which is printed as it is, and says where what must be printed comes from.
//!
//! An argument is bytes: hex digits, or `'` and a text, or `-` for none. A number is bytes, the
//! highest first. A directory and a path are texts as they are.
#![tactic(auto)]

mod actions;
mod answers;
mod desk;
mod fault;
mod words;

use desk::Desk;
use fault::RowFault;
use std::io::ErrorKind;
use std::{env, io};

fn main(rt: HostRuntime) -> io::Result<()> {
    let mut desk = Desk { board: None };
    for row in env::args(&rt)?.skip(1) {
        match desk.answered(&rt, row.as_str()) {
            Ok(text) => println!(rt; "{text}")?,
            Err(RowFault::Form) => println!(rt; "no row")?,
            Err(RowFault::Memory) => return Err(ErrorKind::OutOfMemory.into()),
        }
    }
    Ok(())
}
