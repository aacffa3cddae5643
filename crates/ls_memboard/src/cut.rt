//! The image that a crash after some calls leaves.
ghost use Rattle.std.specs.Prelude.{◌≡◌, ◌≤◌, None, length, take, IfOk, OnOk};
ghost use Rattle.ls_board.specs.Effect.{with_file};
ghost use Rattle.ls_board.specs.Images.{Leaves};
ghost use Rattle.ls_board.specs.Runs.{ImageAt};
ghost use Rattle.ls_memboard.specs.Calls.{call_of};
ghost use Rattle.ls_memboard.specs.Cuts.{until, synced_after, held, contents, with_contents, cut_image};
ghost use Rattle.ls_memboard.specs.Synced.{synced_of};

use crate::call::{Entry, Kind};
use crate::memory::MemBoard;
use crate::pick::{Pick, Picker};
use crate::redo::redo;
use ls_board::{FileTable, TouchTable, World};
use ls_bytes::{Bytes, Memory, Name};
use std::alloc::Global;

/// Keeps the files, if the call was a sync and no file is touched after it.
fn note_sync(
    synced: &mut Option<FileTable>,
    world: &World,
    pool: &[u8],
    e: &Entry,
) -> Result<(), Memory>
    ensures kept { OnOk result (synced.new
        ≡ synced_after synced.old (call_of pool.now e.now.kept) world.now) }
{
    let _ = pool;
    match e.kept.kind {
        Kind::Sync => {
            if world.touched.len() == 0 {
                *synced = Some(world.files.copy()?);
            }
            Ok(())
        }
        _ => Ok(()),
    }
}

/// Makes the file hold this, or takes it away.
fn set_file(files: &mut FileTable, name: &Name, content: &Option<Bytes>) -> Result<(), Memory>
    ensures set { OnOk result (files.new ≡ with_file files.old name.now content.now) }
{
    match content {
        Some(bytes) => files.put(name, bytes.as_slice()),
        None => {
            files.remove(name.as_slice());
            Ok(())
        }
    }
}

/// The files of the image, each touched one as it is picked.
fn picked_files(
    alloc: Global,
    world: &World,
    synced: &Option<FileTable>,
    start: &World,
    mut picker: Picker,
) -> Result<FileTable, Memory>
    ensures files { IfOk result (λ files. files
        ≡ with_contents world.now.files
        (contents (held synced.now start.now) world.now picker world.now.touched)) }
{
    let mut files = world.files.copy()?;
    for at in 0..world.touched.len() {
        let Some(row) = world.touched.get(at) else {
            return Err(Memory);
        };
        let content = picker.choose(alloc, world, synced, start, row)?;
        set_file(&mut files, &row.name, &content)?;
    }
    Ok(files)
}

impl MemBoard {
    ghost use Rattle.ls_memboard.specs.Seen.{sight_of};

    /// The files at the last sync among the first calls, so many, if there was one.
    fn synced(&self, calls: usize) -> Result<Option<FileTable>, Memory>
        requires { calls ≤ length self.now.log.items }
        ensures files { IfOk result (λ synced. synced
            ≡ synced_of self.now.pool.items self.now.start None (take calls self.now.log.items)) }
    {
        let mut world = self.start.copy(self.alloc)?;
        let mut synced = None;
        for e in &self.log[..calls] {
            redo(self.alloc, &mut world, &self.pool, e)?;
            note_sync(&mut synced, &world, &self.pool, e)?;
        }
        Ok(synced)
    }

    /// The world that a crash leaves after so many calls of `act`, not more than were made, where the
    /// touched files are picked so.
    pub fn cut(&self, moment: u64, pick: Pick) -> Result<World, Memory>
        requires { moment ≤ length (sight_of self.now).past }
        ensures exact { IfOk result (λ image. image
            ≡ cut_image (sight_of self.now).past (sight_of self.now).world moment pick) }
        // It is one of the images that a crash may leave of the world at that moment, and so of the
        // run.
        ensures left { IfOk result (λ image. Leaves (until (sight_of self.now).past
            (sight_of self.now).world moment).0 image) }
        ensures allowed { IfOk result (λ image.
            ImageAt (sight_of self.now).past (sight_of self.now).world moment image) }
    {
        let mut world = self.world_after(moment as usize)?;
        let _ = world.files.len();
        let _ = world.touched.len();
        let synced = self.synced(moment as usize)?;
        let files = picked_files(self.alloc, &world, &synced, &self.start, Picker::of(pick))?;
        world.files = files;
        world.touched = TouchTable::new(self.alloc);
        Ok(world)
    }
}
