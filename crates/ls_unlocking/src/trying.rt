//! A credential or a token is tried, and what is told of the user where it opens.
ghost use Rattle.std.specs.Prelude.{◌≡◌, ◌<◌, IsTrue, IfSome, IfOk};
ghost use Rattle.ls_board.specs.Acts.{Sight};
ghost use Rattle.ls_chain.specs.Attempting.{IsOfKind};
ghost use Rattle.ls_chain.specs.Calling.{BeginsByReading};
ghost use Rattle.ls_chain.specs.Trying.{MayTry, OnAnswer};
ghost use Rattle.ls_unlocking.specs.Trying.{credential_tried, token_tried, IsLate};
ghost use Rattle.ls_unlocking.specs.Trying.{IsBehind, EndsLate};
ghost use Rattle.ls_unlocking.specs.Trying.{credential_ask, credential_look, token_ask, token_look};

use crate::ending::{Ending, Tried};
use ls_board::Board;
use ls_chain::{AttemptEnd, ChainFault, TokenEnd, attempt, open_token};
use ls_credential::{Credential, Kind};
use ls_formats::Parts;
use ls_record::UserRow;
use ls_revealing::reveal;
use ls_script::Refusal;
use std::alloc::Global;

/// What the end of an attempt with a credential of the stored kind comes to.
fn credential_tried(end: AttemptEnd) -> Tried
    requires of_kind { IsOfKind end }
    ensures same { result ≡ credential_tried end }
    ensures late { IsLate result }
{
    match end {
        AttemptEnd::Opened(secret) => Tried::Opened(secret),
        AttemptEnd::WrongKind(_) => unreachable!(),
        AttemptEnd::Wrong(rest) => Tried::Refused(Refusal::Wrong(rest)),
        AttemptEnd::Throttled(rest) => Tried::Refused(Refusal::Throttled(rest)),
    }
}

/// What the end of an attempt with a token comes to.
fn token_tried(end: TokenEnd) -> Tried
    ensures same { result ≡ token_tried end }
    ensures late { IsLate result }
{
    match end {
        TokenEnd::Opened(secret) => Tried::Opened(secret),
        TokenEnd::WrongToken => Tried::Refused(Refusal::WrongToken),
    }
}

/// Tries a credential of the kind that the protector is for, at this moment.
pub(crate) fn try_credential<B: Board>(
    alloc: Global,
    board: &mut B,
    parts: &Parts,
    kind: Kind,
    offered: &Credential,
    moment: u64,
) -> Result<Tried, ChainFault>
    requires id { 0 < parts.now.id }
    requires slot { IfSome parts.now.slot (λ slot. slot < (B.sight board.old).slots) }
    requires kind { offered.now.kind ≡ kind }
    ensures tries { MayTry (credential_ask parts.now kind offered.now.text moment)
        (credential_look parts.now kind offered.now.text moment)
        (B.sight board.old) result (B.sight board.new) }
    ensures late { IfOk result IsLate }
{
    match attempt(alloc, board, parts, kind, offered, moment) {
        Ok(end) => Ok(credential_tried(end)),
        Err(fault) => Err(fault),
    }
}

/// Tries the bytes of a token.
pub(crate) fn try_token<B: Board>(
    alloc: Global,
    board: &mut B,
    parts: &Parts,
    offered: &[u8],
) -> Result<Tried, ChainFault>
    requires id { 0 < parts.now.id }
    requires slot { IfSome parts.now.slot (λ slot. slot < (B.sight board.old).slots) }
    ensures tries { MayTry (token_ask parts.now) (token_look parts.now offered.now)
        (B.sight board.old) result (B.sight board.new) }
    // Its first call met the world.
    ensures met { IsTrue (B.sight board.old).told
        → OnAnswer result (BeginsByReading (B.sight board.old) (B.sight board.new)) }
    ensures late { IfOk result IsLate }
{
    match open_token(alloc, board, parts, offered) {
        Ok(end) => Ok(token_tried(end)),
        Err(fault) => Err(fault),
    }
}

/// Looks up what is told of the user, where it opened.
pub(crate) fn reveal_tried<B: Board>(
    alloc: Global,
    board: &mut B,
    row: &UserRow,
    tried: Result<Tried, ChainFault>,
) -> Result<Ending, ChainFault>
    requires id { 0 < row.now.protector }
    ensures behind { IsBehind row.now (B.sight board.old) tried result (B.sight board.new) }
    ensures late { IfOk tried IsLate → IfOk result EndsLate }
{
    match tried {
        Ok(Tried::Opened(secret)) => match reveal(alloc, board, row, &secret) {
            Ok(revealed) => Ok(Ending::Opened(secret, revealed)),
            Err(fault) => Err(fault),
        },
        Ok(Tried::Refused(why)) => Ok(Ending::Refused(why)),
        Err(fault) => Err(fault),
    }
}
