//! A calculator of hashes, ciphers, secrets, devices and what a board keeps. Each line of its input
//! has a function and its arguments, and its output has the answer to each; a line that begins with
//! `#` is a heading, which is printed as it is. What it must print is from outside, as the headings
//! say.
//!
//! An argument is bytes: hex digits, or `'` and a text in which `_` is a space, or `-` for none; with
//! `*` and a number so many times, and with `+` between them one behind another. `03%72` is 72 bytes
//! from 03 on, each 7 more than the one before. A number is one to eight bytes, the highest first. Where
//! an argument has another length than the function takes, the answer is `wrong length`.
//!
//! A row of a device has what it begins with, and then what it is asked in turn, in three words each:
//! a name and two arguments. The answer has those of the asks that have one.
#![tactic(auto)]

mod answer;
mod blobs;
mod chain;
mod ciphers;
mod handles;
mod hashes;
mod keys;
mod protectors;
mod retiring;
mod secrets;
mod slots;
mod tables;
mod tapes;
mod words;

use answer::{Answer, RowFault};
use std::alloc::Global;
use std::io;
use std::str::SplitWhitespace;
use words::bytes_of;

fn main(rt: HostRuntime) -> io::Result<()> {
    for line in rt.lines(rt.alloc()) {
        let line = line?;
        let mut to = Answer::new(rt.alloc());
        answer_line(rt.alloc(), &mut to, line.as_str());
        let text = to.line()?;
        println!(rt; "{text}")?;
    }
    Ok(())
}

/// A heading as it is, else what the function that the first word names gives for the others.
fn answer_line(alloc: Global, to: &mut Answer, line: &str) {
    if line.starts_with('#') {
        return to.word(line);
    }
    let mut words = line.split_whitespace();
    let name = words.next().unwrap_or("");
    match args_of(alloc, words) {
        Ok(args) => answer_to(alloc, to, name, args.as_slice()),
        Err(fault) => to.fails(fault),
    }
}

fn args_of(alloc: Global, words: SplitWhitespace<'_>) -> Result<Vec<Vec<u8>>, RowFault> {
    let mut args = Vec::new(alloc);
    for word in words {
        put_arg(&mut args, bytes_of(alloc, word))?;
    }
    Ok(args)
}

fn put_arg(args: &mut Vec<Vec<u8>>, arg: Result<Vec<u8>, RowFault>) -> Result<(), RowFault> {
    match args.push(arg?) {
        Ok(()) => Ok(()),
        Err(_) => Err(RowFault::Memory),
    }
}

/// What the function with this name gives for these arguments.
fn answer_to(alloc: Global, to: &mut Answer, name: &str, args: &[Vec<u8>]) {
    match name {
        "sha256" => hashes::sha256(to, args),
        "hmac256" => hashes::hmac(to, args),
        "hmac256-joined" => hashes::joined_hmac(to, args),
        "sp800" => hashes::derived(to, args),
        "phash" => hashes::personalised(to, args),
        "phash2" => hashes::personalised_pair(to, args),
        "pbkdf2-once" => hashes::pbkdf2(alloc, to, args),
        "stretch" => hashes::stretched(alloc, to, args),
        "xor" => hashes::xored(to, args),
        "aes256" => ciphers::encrypted(to, args),
        "times-h" => ciphers::multiplied(to, args),
        "seal" => ciphers::sealed(alloc, to, args),
        "seal-sevens" => ciphers::sealed_sevens(alloc, to, args),
        "open" => ciphers::opened(alloc, to, args),
        "seal-under" => blobs::sealed(alloc, to, args),
        "open-under" => blobs::opened(alloc, to, args),
        "spblob" => blobs::parsed(alloc, to, args),
        "create" => secrets::created(alloc, to, args),
        "join" => secrets::joined(alloc, to, args),
        "subkeys" => secrets::subkeys(alloc, to, args),
        "e0" => secrets::sealed_half(alloc, to, args),
        "open-e0" => secrets::opened_half(alloc, to, args),
        _ => answer_of_devices(alloc, to, name, args),
    }
}

/// The same, of devices and of what is taken of the outside.
fn answer_of_devices(alloc: Global, to: &mut Answer, name: &str, args: &[Vec<u8>]) {
    match name {
        "timeout" => slots::rest(to, args),
        "slot" => slots::slot(to, args),
        "weaver" => slots::weaver(alloc, to, args),
        "sign" => handles::signed(alloc, to, args),
        "gatekeeper" => handles::gatekeeper(alloc, to, args),
        "key-store" => keys::store(alloc, to, args),
        "resume-cell" => keys::cell(to, args),
        "moments" => tapes::moments(alloc, to, args),
        "noise" => tapes::noise(alloc, to, args),
        _ => answer_of_tables(alloc, to, name, args),
    }
}

/// The same, of what the board keeps.
fn answer_of_tables(alloc: Global, to: &mut Answer, name: &str, args: &[Vec<u8>]) {
    match name {
        "plan" => tables::plan(alloc, to, args),
        "world" => tables::world(alloc, to, args),
        "id-table" => tables::ids(alloc, to, args),
        "pushed-key" => tables::pushed_key(alloc, to, args),
        "pushed-record" => tables::pushed_record(alloc, to, args),
        "pushed-file" => tables::pushed_file(alloc, to, args),
        "touched" => tables::touched(alloc, to, args),
        _ => answer_of_seals(alloc, to, name, args),
    }
}

/// The same, of protectors.
fn answer_of_seals(alloc: Global, to: &mut Answer, name: &str, args: &[Vec<u8>]) {
    match name {
        "weaver-key" => chain::key(alloc, to, args),
        "default-weaver-key" => chain::default_key(to),
        "gatekeeper-password" => chain::password(to, args),
        "value-share" => chain::value(to, args),
        "discardable-share" => chain::discardable(to, args),
        "default-layered" => chain::sealed(alloc, to, args),
        "credential-plan" => chain::credential_weight(alloc, to, args),
        "token-plan" => chain::token_weight(alloc, to, args),
        "erase-plan" => retiring::erased(alloc, to, args),
        "erase-twice-plan" => retiring::erased_twice(alloc, to, args),
        "remove-plan" => retiring::removed(alloc, to, args),
        "put-own-plans" => retiring::own_put(alloc, to, args),
        "remove-own-plan" => retiring::own_removed(alloc, to, args),
        "seals" => protectors::decided(alloc, to, args),
        "seals-token" => protectors::token_decided(alloc, to, args),
        "held-slot" => protectors::slot(alloc, to, args),
        _ => to.is_no_row(),
    }
}
