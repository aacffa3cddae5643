//! Why a token isn't added.
ghost use Rattle.std.specs.Prelude.{◌≡◌, ◌+◌, ℕ, List, length, nat_le};
ghost use Rattle.ls_record.specs.Rows.{IsRecord};
ghost use Rattle.ls_script.specs.declared.command.Command.TheVariants as command;
ghost use Rattle.ls_turn.specs.Refusing.{own_refusal, token_add_refusal};
ghost use Rattle.ls_vault.specs.Limits.{most_tokens};

use ls_record::UserRow;
use ls_script::Refusal;
use ls_turn::Session;

/// The most tokens of one user, active and pending.
const MOST_TOKENS: usize = 8;

/// Whether so many active tokens and so many pending ones are as many as there may be.
fn are_most(active: usize, pending: usize) -> bool
    ensures same { result ≡ nat_le most_tokens (active + pending) }
{
    active >= MOST_TOKENS || pending >= MOST_TOKENS - active
}

/// Why the user of a row gets no token more.
fn refusal_in(x: &Session, row: &UserRow) -> Option<Refusal>
    ensures same { result ≡ token_add_refusal x.now row.now }
{
    if !row.escrow {
        return Some(Refusal::NoEscrow);
    }
    if are_most(row.tokens.as_slice().len(), x.pending_count(row.user)) {
        return Some(Refusal::TokenLimit);
    }
    None
}

/// Why a user gets no token more, by the record and what the session knows.
pub(crate) fn refusal(x: &Session, user: u32) -> Option<Refusal>
    ensures same { (token : List ℕ) → result ≡ own_refusal x.now (command.TokenAdd user token) }
    ensures kept { IsRecord x.now.settings.settled.rec }
{
    match x.row(user) {
        None => Some(Refusal::NoUser),
        Some(row) => refusal_in(x, row),
    }
}
