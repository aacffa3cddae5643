//! Worlds whose bytes another program made, worlds that plans build, and what `ls_checker` says of
//! them: whether a world stands for a vault, which file is at fault first, which actions are quiet
//! in it, and whether it keeps nothing beside.
//!
//! Each line of the input says something of the world, the vault and the record that are looked at,
//! or asks something. A question may have a change: it is asked of the world with this change, and
//! the world stays as it is. The output has the answer to each question, and `-` for what was said.
//! A line that begins with `#` is a heading, which is printed as it is. What must be printed is from
//! outside, as the headings say.
//!
//! An argument is bytes: hex digits, or `'` and a text, or `-` for none. A number is bytes, the
//! higher ones first.
#![tactic(auto)]

mod actions;
mod building;
mod devices;
mod fault;
mod files;
mod questions;
mod scene;
mod sweeping;
mod users;
mod words;

use fault::RowFault;
use scene::Scene;
use std::alloc::{AllocError, Global};
use std::io;
use words::cut;

fn main(rt: HostRuntime) -> io::Result<()> {
    let mut scene = Scene::blank(rt.alloc())?;
    for line in rt.lines(rt.alloc()) {
        let line = line?;
        let text = answered(rt.alloc(), &mut scene, line.as_str())?;
        println!(rt; "{text}")?;
    }
    Ok(())
}

/// A heading as it is, else the answer to a row.
fn answered(alloc: Global, scene: &mut Scene, line: &str) -> Result<String, AllocError> {
    if line.starts_with('#') {
        return line.to_string(alloc);
    }
    match answer(alloc, scene, line) {
        Ok(text) => Ok(text),
        Err(RowFault::Memory) => Err(AllocError),
        Err(RowFault::Form) => "no row".to_string(alloc),
    }
}

/// The answer to a question, or `-` for what is said.
fn answer(alloc: Global, scene: &mut Scene, line: &str) -> Result<String, RowFault> {
    let (name, rest) = cut(line);
    match name {
        "stands" => questions::stands(alloc, scene, rest),
        "first-foreign" => questions::first_foreign_place(alloc, scene, rest),
        "bare" => questions::bare(alloc, scene, &[], rest),
        "bare-with" => questions::bare_with(alloc, scene, rest),
        "swept" => questions::bare_and_stands_swept(alloc, scene, rest),
        "quiet" => questions::quiet(alloc, scene, rest),
        _ => {
            scene.say(alloc, name, rest)?;
            Ok("-".to_string(alloc)?)
        }
    }
}
