//! Named protectors, found by the settings that were loaded.
ghost use Rattle.std.specs.Prelude.{◌≡◌, ◌++◌, ◌∷◌, [], IsTrue, IfOk, OnOk};
ghost use Rattle.std.specs.List.{AllByRecursion};
ghost use Rattle.ls_board.specs.Acts.{Sight};
ghost use Rattle.ls_protector.specs.Clear.{NamesParts};
ghost use Rattle.ls_protector.specs.Settled.{IsSettled};

use crate::keeping::PartsList;
use ls_board::Board;
use ls_bytes::Memory;
use ls_formats::Parts;
use ls_protector::{Named, found};
use ls_settings::Settings;
use std::alloc::AllocError;

/// A protector, found behind those before.
fn push_found<B: Board>(
    board: &B,
    settings: &Settings,
    parts: Parts,
    named: &mut Vec<Named>,
) -> Result<(), Memory>
    requires named { NamesParts settings.now.settled.rec parts }
    requires settled { IsTrue (B.sight board.now).told
        → IsSettled (B.sight board.now).world parts }
    ensures pushed { OnOk result (named.new.items ≡ named.old.items ++ parts ∷ []) }
{
    let one = found(board, parts, settings);
    named.push(one).map_err(AllocError::from)?;
    Ok(())
}

/// All of these, found behind those before, in order.
pub(crate) fn find_all<B: Board>(
    board: &B,
    settings: &Settings,
    parts: PartsList,
    named: Vec<Named>,
) -> Result<Vec<Named>, Memory>
    requires named { AllByRecursion (NamesParts settings.now.settled.rec) parts }
    requires settled { IsTrue (B.sight board.now).told
        → AllByRecursion (IsSettled (B.sight board.now).world) parts }
    ensures same { IfOk result (λ all. all.items ≡ named.items ++ parts) }
{
    match parts.take_first() {
        Err(_) => Ok(named),
        Ok((one, behind)) => {
            let mut named = named;
            push_found(board, settings, one, &mut named)?;
            find_all(board, settings, behind.without_first(), named)
        }
    }
}
