//! The checks of opening, before anything is changed.
ghost use Rattle.std.specs.Prelude.{◌≡◌, ◌⊎◌, [], None, Ok, IsTrue, IfOk};
ghost use Rattle.std.specs.Prelude.{map};
ghost use Rattle.std.specs.List.{AllZip};
ghost use Rattle.ls_board.specs.Acts.{Sight};
ghost use Rattle.ls_formats.specs.PartNames.{part_name_text};
ghost use Rattle.ls_settings.specs.declared.fault.OpenRefusal.TheVariants as refusal;
ghost use Rattle.ls_standing.specs.NamedProtectors.{named_protectors};
ghost use Rattle.ls_standing.specs.Opening.{first_foreign};
ghost use Rattle.ls_standing.specs.Standing.{NamedAreUntouched};
ghost use Rattle.ls_turn.specs.Agreeing.{parts_in};
ghost use Rattle.ls_turn.specs.Serving.{IsKeptAs};
ghost use Rattle.ls_session.specs.Checking.{Checks};

use crate::finding::find_all;
use crate::keeping::{PartsList, keep_rows};
use ls_board::Board;
use ls_formats::PartName;
use ls_opening::{first_foreign, part_text};
use ls_protector::Named;
use ls_record::Record;
use ls_settings::{OpenRefusal, Settings};
use std::alloc::Global;

/// Why a board isn't opened on which this file is at fault at this place.
fn refused(alloc: Global, name: &PartName, at: u32) -> OpenRefusal
    ensures either { (result ≡ refusal.Memory) ⊎ (result ≡ refusal.Foreign (part_name_text name.now) at) }
{
    match part_text(alloc, name) {
        Ok(name) => OpenRefusal::Foreign { name, at },
        Err(_) => OpenRefusal::Memory,
    }
}

/// Checks the files that a record names, in order, up to the first at fault.
fn check_files<B: Board>(alloc: Global, board: &mut B, holder: &Record) -> Result<(), OpenRefusal>
    ensures checks { Checks holder.now (B.sight board.old) result (B.sight board.new) }
{
    let found = match first_foreign(alloc, board, holder) {
        Ok(found) => found,
        Err(fault) => return Err(OpenRefusal::from(fault)),
    };
    match found {
        None => Ok(()),
        Some(foreign) => Err(refused(alloc, &foreign.name, foreign.at)),
    }
}

/// The parts of the protectors that a record names, in order, each with its slot.
fn keep_all<B: Board>(
    alloc: Global,
    board: &mut B,
    holder: &Record,
) -> Result<PartsList, OpenRefusal>
    requires none { IsTrue (B.sight board.old).told
        → first_foreign (B.sight board.old).world holder.now ≡ None }
    ensures checks { Checks holder.now (B.sight board.old) result (B.sight board.new) }
    ensures named { IsTrue (B.sight board.old).told → IfOk result (λ parts.
        parts ≡ map (parts_in (B.sight board.old).world) (named_protectors holder.now)) }
    ensures kept { IfOk result (λ parts.
        AllZip (IsKeptAs (B.sight board.old).slots) (named_protectors holder.now) parts) }
{
    let slots = board.slots();
    let none = Ok(PartsList::new(alloc));
    let kept = match keep_rows(alloc, board, slots, holder.users.as_slice(), none) {
        Ok(kept) => kept,
        Err(fault) => return Err(OpenRefusal::from(fault)),
    };
    match kept {
        Ok(parts) => Ok(parts),
        Err(name) => Err(refused(alloc, &name, 0)),
    }
}

/// Checks the files that the record of these settings names, and finds the protectors that it names.
pub(crate) fn known<B: Board>(
    alloc: Global,
    board: &mut B,
    settings: &Settings,
) -> Result<Vec<Named>, OpenRefusal>
    requires untouched { IsTrue (B.sight board.old).told
        → NamedAreUntouched (B.sight board.old).world settings.now.settled.rec }
    ensures checks { Checks settings.now.settled.rec (B.sight board.old) result (B.sight board.new) }
    ensures named { IsTrue (B.sight board.old).told → IfOk result (λ named.
        named.items ≡ map (parts_in (B.sight board.old).world)
        (named_protectors settings.now.settled.rec)) }
    ensures kept { IfOk result (λ named. AllZip (IsKeptAs (B.sight board.old).slots)
        (named_protectors settings.now.settled.rec) named.items) }
{
    let holder = settings.record();
    check_files(alloc, board, holder)?;
    let parts = match keep_all(alloc, board, holder) {
        Ok(parts) => parts,
        Err(refusal) => return Err(refusal),
    };
    match find_all(board, settings, parts, Vec::new(alloc)) {
        Ok(named) => Ok(named),
        Err(_) => Err(OpenRefusal::Memory),
    }
}
