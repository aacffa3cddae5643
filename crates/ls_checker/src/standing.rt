//! Whether a world stands for a vault.
ghost use Rattle.std.specs.Prelude.{◌↔◌, IsTrue, IfOk};
ghost use Rattle.ls_formats.specs.declared.side.Side.TheVariants.{First, Second};
ghost use Rattle.ls_standing.specs.Standing.{Holds, StandsFor};
ghost use Rattle.ls_checker.specs.Wholes.{IsWholeIfOpen};

use crate::arming::is_arming_of;
use crate::opening::first_foreign;
use crate::settings::{current_record, open_files_are_whole};
use crate::user::holds_users;
use ls_board::World;
use ls_bytes::Memory;
use ls_record::Record;
use ls_vault::Vault;
use std::alloc::Global;

/// Whether the files, slots, keys and Gatekeeper records that a record names are those of the
/// vault.
pub fn holds(alloc: Global, world: &World, holder: &Record, vault: &Vault) -> Result<bool, Memory>
    ensures decided { IfOk result (λ holds. IsTrue holds ↔ Holds world.now holder.now vault.now) }
{
    let armed = &holder.armed;
    if !is_arming_of(armed, &world.cell, &vault.arming) {
        return Ok(false);
    }
    match first_foreign(alloc, world, holder)? {
        Some(_) => Ok(false),
        None => holds_users(
            alloc,
            world,
            armed,
            holder.users.as_slice(),
            vault.users.as_slice(),
        ),
    }
}

/// Whether the world stands for the vault, by settings with this record.
fn stands_by(alloc: Global, world: &World, holder: &Record, vault: &Vault) -> Result<bool, Memory>
    ensures decided { IfOk result (λ stands. IsTrue stands
        ↔ ((IsWholeIfOpen world.now First × IsWholeIfOpen world.now Second)
        × Holds world.now holder.now vault.now)) }
{
    if !open_files_are_whole(world) {
        return Ok(false);
    }
    holds(alloc, world, holder, vault)
}

/// Whether the world stands for the vault.
pub fn stands_for(alloc: Global, world: &World, vault: &Vault) -> Result<bool, Memory>
    ensures decided { IfOk result (λ stands. IsTrue stands ↔ StandsFor world.now vault.now) }
{
    match current_record(alloc, world)? {
        None => Ok(false),
        Some(holder) => stands_by(alloc, world, &holder, vault),
    }
}
