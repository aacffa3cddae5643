//! What the rows say: the world, the vault and the record that questions are about.

use crate::building::built;
use crate::fault::RowFault;
use crate::users::{arming_of, user_of};
use crate::words::{args_of, cut};
use crate::{devices, files};
use ls_board::World;
use ls_record::Record;
use ls_vault::{Table, Vault};
use std::alloc::{AllocError, Global};

/// What the questions are about.
pub struct Scene {
    pub world: World,
    /// The world at the start, with which a bare one is compared.
    pub start: World,
    /// The record that names what is the service's.
    pub record: Record,
    pub vault: Vault,
}

// One call lets it go.
impl Drop for Scene {
    fn drop(self) {
        let Scene {
            world: _,
            start: _,
            record: _,
            vault: _,
        } = self;
    }
}

impl Scene {
    /// Blank worlds without slots, and nobody in the record and the vault.
    pub fn blank(alloc: Global) -> Result<Scene, AllocError> {
        match (World::blank(alloc, 0), World::blank(alloc, 0)) {
            (Ok(world), Ok(start)) => Ok(Scene {
                world,
                start,
                record: Record::new(alloc),
                vault: empty_vault(alloc),
            }),
            _ => Err(AllocError),
        }
    }

    /// Takes what a row says.
    pub fn say(&mut self, alloc: Global, name: &str, text: &str) -> Result<(), RowFault> {
        match name {
            "world" => change(alloc, &mut self.world, text),
            "start" => {
                self.start = World::blank(alloc, 0)?;
                change(alloc, &mut self.start, text)
            }
            "vault" => {
                self.vault = empty_vault(alloc);
                Ok(())
            }
            "build" => self.build(alloc),
            _ => self.say_bytes(alloc, name, &args_of(alloc, text)?),
        }
    }

    /// Builds the one user of the vault in the world, and commits the record.
    fn build(&mut self, alloc: Global) -> Result<(), RowFault> {
        match self.vault.users.as_slice() {
            [user] => {
                self.world = built(alloc, self.world.copy(alloc)?, user, &self.record)?;
                Ok(())
            }
            _ => Err(RowFault::Form),
        }
    }

    fn say_bytes(&mut self, alloc: Global, name: &str, args: &[Vec<u8>]) -> Result<(), RowFault> {
        match name {
            "blank" => {
                self.world = blank_world(alloc, args)?;
                Ok(())
            }
            "record" => {
                self.record = record_of(alloc, args)?;
                Ok(())
            }
            "user" => Ok(self.vault.users.push(user_of(alloc, args)?)?),
            "arming" => {
                self.vault.arming = arming_of(alloc, args)?;
                Ok(())
            }
            _ => Err(RowFault::Form),
        }
    }
}

fn empty_vault(alloc: Global) -> Vault {
    Vault {
        users: Table::new(alloc),
        arming: None,
    }
}

/// The blank world with so many slots.
fn blank_world(alloc: Global, args: &[Vec<u8>]) -> Result<World, RowFault> {
    match args {
        [slots] if slots.len() == 1 => Ok(World::blank(alloc, u32::from(slots[0]))?),
        _ => Err(RowFault::Form),
    }
}

fn record_of(alloc: Global, args: &[Vec<u8>]) -> Result<Record, RowFault> {
    match args {
        [bytes] => Ok(Record::parse(alloc, bytes)?),
        _ => Err(RowFault::Form),
    }
}

/// Changes one thing in a world, or nothing.
pub fn change(alloc: Global, world: &mut World, text: &str) -> Result<(), RowFault> {
    let (name, rest) = cut(text);
    let args = args_of(alloc, rest)?;
    match name {
        "" => Ok(()),
        "put" | "turn" | "longer" | "copy" | "drawn" | "seal" | "remove" => {
            files::change(alloc, &mut world.files, name, &args)
        }
        _ => devices::change(alloc, world, name, &args),
    }
}
