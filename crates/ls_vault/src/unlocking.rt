//! Users are unlocked and locked.
ghost use Rattle.std.specs.Prelude.{◌≡◌, IfOk, Some};
ghost use Rattle.ls_vault.specs.States.{on_user};
ghost use Rattle.ls_vault.specs.Unlocking.{opened, locked, attempted, token_attempted};
ghost use Rattle.ls_vault.specs.Users.{user_of};

use crate::revealed::revealed;
use crate::state::{Outcome, State};
use crate::users::{clear, count_failure, user_of};
use ls_bytes::Memory;
use ls_credential::Credential;
use ls_script::{Refusal, Reply};
use ls_weaver::timeout;

/// The user is opened, and captured while an arming is prepared.
fn opened(state: State, user: u32) -> Result<State, Memory>
    ensures same { IfOk result (λ s. s ≡ opened state user) }
{
    let mut state = state;
    state.session.opened.add(user)?;
    if state.session.prepared {
        state.session.captured.add(user)?;
    }
    Ok(state)
}

/// The user is closed. A captured user stays captured.
pub(crate) fn locked(state: State, user: u32) -> State
    ensures same { result ≡ locked state user }
{
    let mut state = state;
    state.session.opened.remove(user);
    state
}

/// A text is offered that is looked at.
pub(crate) fn attempted(
    state: State,
    user: u32,
    offered: &Credential,
    moment: u64,
) -> Result<Outcome, Memory>
    ensures same { IfOk result (λ o. o ≡
        on_user (user_of state.vault.users user) state (attempted state user offered.now moment)) }
{
    let mut state = state;
    let Some(u) = user_of(state.vault.users.as_slice(), user) else {
        return Ok(Outcome {
            reply: Reply::No(Refusal::NoUser),
            state,
        });
    };
    if offered.text.as_slice() == u.credential.text.as_slice() {
        let reply = Reply::Opened(revealed(u));
        clear(&mut state.vault.users, user);
        let state = opened(state, user)?;
        Ok(Outcome { reply, state })
    } else {
        let reply = Reply::No(Refusal::Wrong(timeout(u.fails.saturating_add(1))));
        count_failure(&mut state.vault.users, user, moment);
        Ok(Outcome { reply, state })
    }
}

/// The bytes of an active token are offered.
pub(crate) fn token_attempted(state: State, user: u32) -> Result<Outcome, Memory>
    ensures same { IfOk result (λ o. o ≡
        on_user (user_of state.vault.users user) state (token_attempted state user)) }
{
    let Some(u) = user_of(state.vault.users.as_slice(), user) else {
        return Ok(Outcome {
            reply: Reply::No(Refusal::NoUser),
            state,
        });
    };
    let reply = Reply::Opened(revealed(u));
    let state = opened(state, user)?;
    Ok(Outcome { reply, state })
}
