//! Whole scripts on the vault machine, over several boots, with the noise of the bytes 0 to 63.

use crate::fault::RowFault;
use crate::words::{number_of, said_of};
use ls_arming::UserNumbers;
use ls_vault::{Books, SessionState, State, Table, Vault, replies, restart};
use std::alloc::Global;
use std::mem;

/// What a script leaves: the number of slots, and the state.
#[derive(Drop)]
pub struct Left {
    slots: u32,
    state: State,
}

impl Left {
    /// No slot and no user.
    pub fn nobody(alloc: Global) -> Left {
        Left {
            slots: 0,
            state: nobody(alloc, 0),
        }
    }
}

/// What the machine answers to a script: the slots, the number of its changes so far, the boot, and
/// the moments. It begins with no user; where the slots are `-` it goes on from what the script
/// before it left.
pub fn answered(
    alloc: Global,
    left: &mut Left,
    args: &[&str],
    script: &[u8],
) -> Result<String, RowFault> {
    match args {
        [slots, kept, boot, moments] => {
            if *slots != "-" {
                left.slots = small(*slots)?;
                left.state = nobody(alloc, number_of(*kept)?);
            }
            let boot = small(*boot)?;
            let moments = moments_of(alloc, *moments)?;
            reply(alloc, left, boot, moments.as_slice(), script)
        }
        _ => Err(RowFault::Form),
    }
}

/// Restarts at this boot, and serves the script.
fn reply(
    alloc: Global,
    left: &mut Left,
    boot: u32,
    moments: &[u64],
    script: &[u8],
) -> Result<String, RowFault> {
    let state = mem::replace(&mut left.state, nobody(alloc, 0));
    let books = books(alloc, state.books.kept);
    let begun = restart(alloc, state, boot, books);
    let noise = noise(alloc)?;
    let all = replies(alloc, left.slots, begun, script, moments, noise.as_slice())?;
    left.state = all.state;
    said_of(alloc, all.text.as_slice())
}

/// The bytes 0 to 63. Zeros come behind them.
fn noise(alloc: Global) -> Result<Vec<u8>, RowFault> {
    let mut bytes = Vec::new(alloc);
    for b in 0..64u8 {
        bytes.push(b).map_err(|_| RowFault::Memory)?;
    }
    Ok(bytes)
}

fn moments_of(alloc: Global, word: &str) -> Result<Vec<u64>, RowFault> {
    let mut moments = Vec::new(alloc);
    if word == "-" {
        return Ok(moments);
    }
    for moment in word.split(',') {
        moments
            .push(number_of(moment)?)
            .map_err(|_| RowFault::Memory)?;
    }
    Ok(moments)
}

/// A number of 32 bits.
fn small(word: &str) -> Result<u32, RowFault> {
    word.parse::<u32>().map_err(|_| RowFault::Form)
}

fn nobody(alloc: Global, kept: u64) -> State {
    State {
        vault: Vault {
            users: Table::new(alloc),
            arming: None,
        },
        books: books(alloc, kept),
        session: SessionState {
            boot: 0,
            opened: UserNumbers::new(alloc),
            pending: Table::new(alloc),
            prepared: false,
            captured: UserNumbers::new(alloc),
        },
    }
}

fn books(alloc: Global, kept: u64) -> Books {
    Books {
        kept,
        dead: UserNumbers::new(alloc),
    }
}
