//! Tokens that aren't active yet go.
ghost use Rattle.std.specs.Prelude.{◌≡◌};
ghost use Rattle.ls_removals.specs.Going.{goes};
ghost use Rattle.ls_removals.specs.Letting.{waiting_still};

use crate::going::Going;
use ls_turn::Pending;

/// Whether a token is one of these.
fn is_going(going: &Going, p: &Pending) -> bool
    ensures same { result ≡ goes going.now p.now.user p.now.id }
{
    going.takes(p.user, p.id)
}

/// Takes these out of the tokens that aren't active yet.
pub(crate) fn drop_waiting(pending: &mut Vec<Pending>, going: &Going)
    ensures same { pending.new.items ≡ waiting_still going.now pending.old.items }
{
    pending.retain(|p| !is_going(going, p));
}
