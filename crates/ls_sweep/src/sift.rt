//! All that is left over on a board.
ghost use Rattle.std.specs.Prelude.{◌≡◌, ◌↔◌, IsTrue, IfOk, None};
ghost use Rattle.ls_board.specs.Acts.{Sight};
ghost use Rattle.ls_reading.specs.Reading.{Reads};
ghost use Rattle.ls_sweep.specs.Sifted.{AreUnusedBelow};
ghost use Rattle.ls_sweep.specs.Swept.{AreLeftFiles, AreLeftEnrolled, AreLeftKeys, AreLeftOver};

use crate::files::unnamed_files;
use crate::ids::{unnamed_enrolled, unnamed_keys};
use crate::leftovers::Leftovers;
use crate::listed::{listed_enrolled, listed_files, listed_keys};
use crate::slots::unused_slots;
use ls_board::{Board, BoardFault};
use ls_bytes::{IdList, NameList};
use ls_record::Record;
use std::alloc::Global;

/// The names of files that are there and that the record doesn't name.
fn left_files<B: Board>(
    alloc: Global,
    board: &mut B,
    holder: &Record,
) -> Result<NameList, BoardFault>
    ensures reads { Reads (λ w names. AreLeftFiles w holder.now names)
        (B.sight board.old) result (B.sight board.new) }
{
    let weaver = board.slots() > 0;
    let names = listed_files(alloc, board)?;
    match unnamed_files(alloc, holder, weaver, &[], names.as_slice()) {
        Ok(files) => Ok(files),
        Err(_) => Err(BoardFault::Memory),
    }
}

/// The ids of Gatekeeper records that are there and that the record doesn't name.
fn left_enrolled<B: Board>(
    alloc: Global,
    board: &mut B,
    holder: &Record,
) -> Result<IdList, BoardFault>
    ensures reads { Reads (λ w ids. AreLeftEnrolled w holder.now ids)
        (B.sight board.old) result (B.sight board.new) }
{
    let weaver = board.slots() > 0;
    let ids = listed_enrolled(alloc, board)?;
    match unnamed_enrolled(alloc, holder, weaver, ids.as_slice()) {
        Ok(ids) => Ok(ids),
        Err(_) => Err(BoardFault::Memory),
    }
}

/// The aliases of keys that are there and that the record doesn't name.
fn left_keys<B: Board>(alloc: Global, board: &mut B, holder: &Record) -> Result<IdList, BoardFault>
    ensures reads { Reads (λ w aliases. AreLeftKeys w holder.now aliases)
        (B.sight board.old) result (B.sight board.new) }
{
    let aliases = listed_keys(alloc, board)?;
    match unnamed_keys(alloc, holder, aliases.as_slice()) {
        Ok(aliases) => Ok(aliases),
        Err(_) => Err(BoardFault::Memory),
    }
}

/// Whether the cell is left over: no arming is named.
fn is_cell_left(holder: &Record) -> bool
    ensures same { IsTrue result ↔ (holder.now.armed ≡ None) }
{
    holder.armed.is_none()
}

/// All that is left over on a board beside what the record names: the files of users and
/// protectors, the Gatekeeper records and the keys that it lists and that the record doesn't name;
/// the slots that aren't among the used ones, blank or not, since a look at a slot changes it; and
/// the cell where the record names no arming, whatever it holds. It makes the room for its calls,
/// and only reads.
pub fn unnamed<B: Board>(
    alloc: Global,
    board: &mut B,
    holder: &Record,
    used_slots: &[u32],
) -> Result<Leftovers, BoardFault>
    ensures reads { Reads (λ w left. AreLeftOver w holder.now used_slots.now left)
        (B.sight board.old) result (B.sight board.new) }
    // on every board
    ensures slots { IfOk result (λ left.
        AreUnusedBelow (B.sight board.old).slots used_slots.now left.slots) }
    ensures cell { IfOk result (λ left. IsTrue left.cell ↔ (holder.now.armed ≡ None)) }
{
    let slots = unused_slots(alloc, board.slots(), used_slots)?;
    let files = left_files(alloc, board, holder)?;
    let enrolled = left_enrolled(alloc, board, holder)?;
    let keys = left_keys(alloc, board, holder)?;
    Ok(Leftovers {
        files,
        slots,
        enrolled,
        keys,
        cell: is_cell_left(holder),
    })
}
