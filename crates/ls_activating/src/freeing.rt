//! The ids of tokens are freed of what retired protectors have left.
ghost use Rattle.std.specs.Prelude.{◌≡◌, ℕ, true, false, List, IfOk, OnOk};
ghost use Rattle.std.specs.List.{Contains, list_any};
ghost use Rattle.ls_board.specs.Acts.{Sight};
ghost use Rattle.ls_record.specs.Rows.{has};
ghost use Rattle.ls_tidying.specs.Tidying.{OnlyTidies};
ghost use Rattle.ls_turn.specs.Agreeing.{files_of, retired_files};
ghost use Rattle.ls_turn.specs.Serving.{CanServe};
ghost use Rattle.ls_activating.specs.Activating.{SayNone};

use crate::choosing::has;
use ls_board::Board;
use ls_bytes::Memory;
use ls_placing::taken_ids;
use ls_protector::Retired;
use ls_tidying::tidy_id;
use ls_turn::{Pending, Session, Stop};
use std::alloc::Global;

/// Whether one of these ids is that of one of the tokens.
fn has_one(ids: &[u64], tokens: &[Pending]) -> bool
    ensures same { result ≡ list_any (λ p. has ids.now p.id) tokens.now }
{
    tokens.iter().any(|p| has(ids, p.id))
}

/// Whether a file that a retired protector has left says the id of one of the tokens.
pub(crate) fn is_said(
    alloc: Global,
    retired: &[Retired],
    tokens: &[Pending],
) -> Result<bool, Memory>
    ensures none { IfOk result (λ said. said ≡ false → SayNone (files_of retired.now) tokens.now) }
    ensures some { IfOk result (λ said. said ≡ true → ¬ SayNone (files_of retired.now) tokens.now) }
{
    match taken_ids(alloc, &[], retired) {
        Ok(taken) => Ok(has_one(taken.as_slice(), tokens)),
        Err(memory) => Err(memory),
    }
}

/// Removes all files that say the id of one of the tokens.
pub(crate) fn tidy_each<B: Board>(
    board: &mut B,
    x: &mut Session,
    tokens: &[Pending],
) -> Result<(), Stop>
    requires can { CanServe (B.sight board.old) x.old }
    ensures only { OnlyTidies (B.sight board.old) x.old result x.new (B.sight board.new) }
    ensures none { OnOk result (SayNone (retired_files x.new) tokens.now) }
    // and none is new
    ensures fewer { OnOk result ((n : List ℕ) → Contains (retired_files x.new) n
        → Contains (retired_files x.old) n) }
{
    match tokens {
        [] => Ok(()),
        [one, rest @ ..] => {
            match tidy_id(board, x, one.id) {
                Ok(()) => {}
                Err(why) => return Err(why),
            }
            tidy_each(board, x, rest)
        }
    }
}
