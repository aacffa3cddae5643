//! What a board lists: names of files, aliases of keys, ids of Gatekeeper records.
ghost use Rattle.std.specs.Prelude.{◌≡◌, ◌<◌, ◌^◌, map, IfOk, IfErr};
ghost use Rattle.std.specs.List.{AllByRecursion, flat_map};
ghost use Rattle.ls_bytes.specs.Fields.{be64};
ghost use Rattle.ls_bytes.specs.Names.{IsName};
ghost use Rattle.ls_board.specs.Acts.{Sight};
ghost use Rattle.ls_board.specs.Listing.{line_of, IsFields, IsListing};
ghost use Rattle.ls_reading.specs.Reading.{Sees};

use crate::lists::{names_of, numbers_of};
use ls_board::{Action, Board, BoardFault};
use ls_bytes::{IdList, NameList};
use std::alloc::Global;

/// The names that these lines are.
fn names_in(alloc: Global, out: Vec<u8>) -> Result<NameList, BoardFault>
    requires listing { IsListing out.items }
    ensures lines { IfOk result (λ names. out.items ≡ flat_map line_of names) }
    ensures each { IfOk result (λ names. AllByRecursion IsName names) }
    ensures lacking { IfErr result (λ fault. fault ≡ BoardFault.Memory) }
{
    match names_of(alloc, &out) {
        Ok(names) => Ok(names),
        Err(_) => Err(BoardFault::Memory),
    }
}

/// The numbers that these fields are.
fn numbers_in(alloc: Global, out: Vec<u8>) -> Result<IdList, BoardFault>
    requires fields { IsFields out.items }
    ensures fields { IfOk result (λ numbers. out.items ≡ flat_map be64 numbers) }
    ensures each { IfOk result (λ numbers. AllByRecursion (λ n. n < 2 ^ 64) numbers) }
    ensures lacking { IfErr result (λ fault. fault ≡ BoardFault.Memory) }
{
    match numbers_of(alloc, &out) {
        Ok(numbers) => Ok(numbers),
        Err(_) => Err(BoardFault::Memory),
    }
}

/// The names of all files, ascending. It makes the room for its one call.
pub fn listed_files<B: Board>(alloc: Global, board: &mut B) -> Result<NameList, BoardFault>
    ensures sees { Sees (λ w. map (λ file. file.0) w.files)
        (B.sight board.old) result (B.sight board.new) }
{
    board.ready(alloc, 1, 0)?;
    let mut out = Vec::new(alloc);
    match board.act(&Action::List, &mut out) {
        Ok(_) => names_in(alloc, out),
        Err(fault) => Err(fault),
    }
}

/// The aliases of all keys, ascending. It makes the room for its one call.
pub fn listed_keys<B: Board>(alloc: Global, board: &mut B) -> Result<IdList, BoardFault>
    ensures sees { Sees (λ w. map (λ row. row.0) w.keys)
        (B.sight board.old) result (B.sight board.new) }
{
    board.ready(alloc, 1, 0)?;
    let mut out = Vec::new(alloc);
    match board.act(&Action::KeyList, &mut out) {
        Ok(_) => numbers_in(alloc, out),
        Err(fault) => Err(fault),
    }
}

/// The ids of all Gatekeeper records, ascending. It makes the room for its one call.
pub fn listed_enrolled<B: Board>(alloc: Global, board: &mut B) -> Result<IdList, BoardFault>
    ensures sees { Sees (λ w. map (λ row. row.0) w.gk)
        (B.sight board.old) result (B.sight board.new) }
{
    board.ready(alloc, 1, 0)?;
    let mut out = Vec::new(alloc);
    match board.act(&Action::GkList, &mut out) {
        Ok(_) => numbers_in(alloc, out),
        Err(fault) => Err(fault),
    }
}
