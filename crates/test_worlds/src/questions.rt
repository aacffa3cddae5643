//! What is asked of a world.

use crate::actions::action_of;
use crate::fault::RowFault;
use crate::scene::{Scene, change};
use crate::sweeping::swept;
use crate::words::{args_of, bytes_of, cut};
use ls_board::World;
use ls_bytes::Name;
use ls_checker::{first_foreign, is_bare, is_quiet, stands_for};
use std::alloc::{AllocError, Global};

/// The world of a scene after a change.
fn changed(alloc: Global, scene: &Scene, text: &str) -> Result<World, RowFault> {
    let mut world = scene.world.copy(alloc)?;
    change(alloc, &mut world, text)?;
    Ok(world)
}

fn said(alloc: Global, holds: bool) -> Result<String, AllocError> {
    if holds {
        "yes".to_string(alloc)
    } else {
        "no".to_string(alloc)
    }
}

/// Whether the world stands for the vault.
pub fn stands(alloc: Global, scene: &Scene, text: &str) -> Result<String, RowFault> {
    let world = changed(alloc, scene, text)?;
    Ok(said(alloc, stands_for(alloc, &world, &scene.vault)?)?)
}

/// The place in the first file at fault, or that there is none.
pub fn first_foreign_place(alloc: Global, scene: &Scene, text: &str) -> Result<String, RowFault> {
    let world = changed(alloc, scene, text)?;
    match first_foreign(alloc, &world, &scene.record)? {
        Some(foreign) => {
            let at = foreign.at;
            Ok(format!(in alloc; "{at}")?)
        }
        None => Ok("none".to_string(alloc)?),
    }
}

/// Whether the world is bare, where these files are retired.
pub fn bare(
    alloc: Global,
    scene: &Scene,
    retired: &[Name],
    text: &str,
) -> Result<String, RowFault> {
    let world = changed(alloc, scene, text)?;
    let bare = is_bare(alloc, &scene.start, &world, &scene.record, retired)?;
    Ok(said(alloc, bare)?)
}

/// Whether it is, where the file of the first word is retired.
pub fn bare_with(alloc: Global, scene: &Scene, text: &str) -> Result<String, RowFault> {
    let (word, rest) = cut(text);
    let name = Name::of(alloc, &bytes_of(alloc, word)?)?;
    bare(alloc, scene, &[name], rest)
}

/// Whether the world is bare once it was swept, and whether it stands for the vault then.
pub fn bare_and_stands_swept(alloc: Global, scene: &Scene, text: &str) -> Result<String, RowFault> {
    let world = swept(alloc, changed(alloc, scene, text)?, &scene.record)?;
    let bare = is_bare(alloc, &scene.start, &world, &scene.record, &[])?;
    let bare = said(alloc, bare)?;
    let stands = said(alloc, stands_for(alloc, &world, &scene.vault)?)?;
    Ok(format!(in alloc; "{bare} {stands}")?)
}

/// Whether an action is quiet.
pub fn quiet(alloc: Global, scene: &Scene, text: &str) -> Result<String, RowFault> {
    let (name, rest) = cut(text);
    let action = action_of(alloc, name, &args_of(alloc, rest)?)?;
    let quiet = is_quiet(alloc, &scene.world, &scene.record, &action)?;
    Ok(said(alloc, quiet)?)
}
