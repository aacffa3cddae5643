//! The protectors that a record names, as a board has them.
ghost use Rattle.std.specs.Prelude.{◌≡◌, ◌<◌, ◌++◌, ◌∷◌, [], ℕ, List, map, IfOk, IfSome, Some};
ghost use Rattle.std.specs.List.{AllByRecursion, AllZip, flat_map};
ghost use Rattle.ls_board.specs.Acts.{Sight};
ghost use Rattle.ls_formats.specs.declared.part.FilePart.TheVariants.{Weaver};
ghost use Rattle.ls_reading.specs.Reading.{Sees};
ghost use Rattle.ls_record.specs.Rows.{IsRow};
ghost use Rattle.ls_sealing.specs.Protectors.{Protector};
ghost use Rattle.ls_standing.specs.Named.{credential_of};
ghost use Rattle.ls_standing.specs.NamedProtectors.{row_protectors};
ghost use Rattle.ls_turn.specs.Serving.{IsKeptAs, FitsBoard};
ghost use Rattle.ls_session.specs.Keeping.{number_in, place_in, tokens_for, with_one, kept_behind};

use ls_board::{Board, BoardFault};
use ls_bytes::Rows;
use ls_formats::{FilePart, PartName, Parts};
use ls_opening::{named_slot, part_file};
use ls_protector::{parts_for_credential, parts_for_token};
use ls_record::UserRow;
use ls_sealing::Place;
use std::alloc::Global;

/// What protectors consist of.
pub(crate) type PartsList = Rows<Parts>;

/// The `weaver` file of a protector.
fn weaver_name(user: u32, id: u64) -> PartName
    requires id { 0 < id }
    ensures same { result ≡ record { user = user; id = id; part = Weaver } }
{
    PartName {
        user,
        id,
        part: FilePart::Weaver,
    }
}

/// The slot that the `weaver` file of a protector names.
fn number_of<B: Board>(
    alloc: Global,
    board: &mut B,
    user: u32,
    id: u64,
) -> Result<Option<u32>, BoardFault>
    requires id { 0 < id }
    ensures sees { Sees (number_in user id) (B.sight board.old) result (B.sight board.new) }
{
    let file = part_file(alloc, board, &weaver_name(user, id))?;
    match file {
        None => Ok(None),
        Some(bytes) => Ok(named_slot(bytes.as_slice())),
    }
}

/// Where a protector is. None where the board has slots and its `weaver` file names none of them.
fn place_of<B: Board>(
    alloc: Global,
    board: &mut B,
    slots: u32,
    user: u32,
    id: u64,
) -> Result<Option<Place>, BoardFault>
    requires id { 0 < id }
    ensures sees { Sees (place_in slots user id)
        (B.sight board.old) result (B.sight board.new) }
    ensures fits { IfOk result (λ place. IfSome place (λ p.
        (p.user ≡ user) × (p.id ≡ id) × FitsBoard slots p.slot)) }
{
    if slots == 0 {
        return Ok(Some(Place {
            user,
            id,
            slot: None,
        }));
    }
    match number_of(alloc, board, user, id)? {
        None => Ok(None),
        Some(slot) => {
            if slot < slots {
                Ok(Some(Place {
                    user,
                    id,
                    slot: Some(slot),
                }))
            } else {
                Ok(None)
            }
        }
    }
}

/// Keeps the protector of a row's credential behind those before, where each has its place.
fn keep_credential<B: Board>(
    alloc: Global,
    board: &mut B,
    slots: u32,
    row: &UserRow,
    kept: Result<PartsList, PartName>,
) -> Result<Result<PartsList, PartName>, BoardFault>
    requires id { 0 < row.now.protector }
    ensures sees { Sees (λ w. with_one (credential_of row.now) kept
        (place_in slots row.now.user row.now.protector w))
        (B.sight board.old) result (B.sight board.new) }
    ensures zip { (done : List Protector)
        → IfOk kept (λ parts. AllZip (IsKeptAs slots) done parts)
        → IfOk result (λ then. IfOk then (λ parts.
        AllZip (IsKeptAs slots) (done ++ credential_of row.now ∷ []) parts)) }
{
    let mut parts = match kept {
        Ok(parts) => parts,
        Err(name) => return Ok(Err(name)),
    };
    let Some(place) = place_of(alloc, board, slots, row.user, row.protector)? else {
        return Ok(Err(weaver_name(row.user, row.protector)));
    };
    let one = parts_for_credential(alloc, &place, row.kind)?;
    parts.push(one)?;
    Ok(Ok(parts))
}

/// Keeps the protector of a token.
fn keep_token<B: Board>(
    alloc: Global,
    board: &mut B,
    slots: u32,
    user: u32,
    id: u64,
    kept: Result<PartsList, PartName>,
) -> Result<Result<PartsList, PartName>, BoardFault>
    requires id { 0 < id }
    ensures sees { Sees (λ w. with_one (tokens_for user id) kept
        (place_in slots user id w))
        (B.sight board.old) result (B.sight board.new) }
    ensures zip { (done : List Protector)
        → IfOk kept (λ parts. AllZip (IsKeptAs slots) done parts)
        → IfOk result (λ then. IfOk then (λ parts. AllZip (IsKeptAs slots)
        (done ++ tokens_for user id ∷ []) parts)) }
{
    let mut parts = match kept {
        Ok(parts) => parts,
        Err(name) => return Ok(Err(name)),
    };
    let Some(place) = place_of(alloc, board, slots, user, id)? else {
        return Ok(Err(weaver_name(user, id)));
    };
    let one = parts_for_token(alloc, &place)?;
    parts.push(one)?;
    Ok(Ok(parts))
}

/// Keeps the protectors of these tokens of a user, in order.
fn keep_tokens<B: Board>(
    alloc: Global,
    board: &mut B,
    slots: u32,
    user: u32,
    tokens: &[u64],
    kept: Result<PartsList, PartName>,
) -> Result<Result<PartsList, PartName>, BoardFault>
    requires ids { AllByRecursion (λ id. 0 < id) tokens.now }
    ensures sees { Sees (kept_behind slots (map (tokens_for user) tokens.now) kept)
        (B.sight board.old) result (B.sight board.new) }
    ensures zip { (done : List Protector)
        → IfOk kept (λ parts. AllZip (IsKeptAs slots) done parts)
        → IfOk result (λ then. IfOk then (λ parts. AllZip (IsKeptAs slots)
        (done ++ map (tokens_for user) tokens.now) parts)) }
{
    match tokens {
        [] => Ok(kept),
        [id, rest @ ..] => {
            let kept = keep_token(alloc, board, slots, user, *id, kept)?;
            keep_tokens(alloc, board, slots, user, rest, kept)
        }
    }
}

/// Keeps the protectors of a row.
fn keep_row<B: Board>(
    alloc: Global,
    board: &mut B,
    slots: u32,
    row: &UserRow,
    kept: Result<PartsList, PartName>,
) -> Result<Result<PartsList, PartName>, BoardFault>
    requires row { IsRow row.now }
    ensures sees { Sees (kept_behind slots (row_protectors row.now) kept)
        (B.sight board.old) result (B.sight board.new) }
    ensures zip { (done : List Protector)
        → IfOk kept (λ parts. AllZip (IsKeptAs slots) done parts)
        → IfOk result (λ then. IfOk then (λ parts. AllZip (IsKeptAs slots)
        (done ++ row_protectors row.now) parts)) }
{
    let kept = keep_credential(alloc, board, slots, row, kept)?;
    keep_tokens(alloc, board, slots, row.user, row.tokens.as_slice(), kept)
}

/// Keeps the protectors that these rows name, in order, each with its slot; or else the first
/// `weaver` file that names no slot of the board.
pub(crate) fn keep_rows<B: Board>(
    alloc: Global,
    board: &mut B,
    slots: u32,
    rows: &[UserRow],
    kept: Result<PartsList, PartName>,
) -> Result<Result<PartsList, PartName>, BoardFault>
    requires rows { AllByRecursion IsRow rows.now }
    ensures sees { Sees (kept_behind slots (flat_map row_protectors rows.now) kept)
        (B.sight board.old) result (B.sight board.new) }
    ensures zip { (done : List Protector)
        → IfOk kept (λ parts. AllZip (IsKeptAs slots) done parts)
        → IfOk result (λ then. IfOk then (λ parts. AllZip (IsKeptAs slots)
        (done ++ flat_map row_protectors rows.now) parts)) }
{
    match rows {
        [] => Ok(kept),
        [row, rest @ ..] => {
            let kept = keep_row(alloc, board, slots, row, kept)?;
            keep_rows(alloc, board, slots, rest, kept)
        }
    }
}
