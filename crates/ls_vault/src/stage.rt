//! How far a run has come, and one command of it.
ghost use Rattle.std.specs.Prelude.{◌≡◌, IfOk};
ghost use Rattle.ls_vault.specs.Script.{has_kind, takes_moment, entry_of, stage_after, begun};
ghost use Rattle.ls_vault.specs.Users.{user_of};

use crate::drawn::drawn_len;
use crate::machine::step;
use crate::refusal::is_same_kind;
use crate::state::State;
use crate::users::user_of;
use ls_bytes::Memory;
use ls_credential::Kind;
use ls_script::{Command, Reply};
use ls_tape::{drawn, later_moments, later_noise, next_moment};
use std::alloc::Global;
use std::marker::Model;

/// How far a run has come: its state, and the moments and the noise that are left to it.
#[derive(Drop)]
pub(crate) struct Stage<'a> {
    pub(crate) state: State,
    moments: &'a [u64],
    noise: &'a [u8],
}

impl<'a> Model for Stage<'a> {
    ghost use Rattle.ls_vault.specs.Script.{Stage};

    ghost Value = { Stage };

    ghost view = { λ s. record { state = s.state; moments = s.moments.now; noise = s.noise.now } };
}

impl<'a> Stage<'a> {
    /// The begin of a run.
    pub(crate) fn new(state: State, moments: &'a [u64], noise: &'a [u8]) -> Stage<'a>
        ensures same { result ≡ begun state moments.now noise.now }
    {
        Stage {
            state,
            moments,
            noise,
        }
    }

    /// One command: its reply, and the stage after it.
    pub(crate) fn carry_out(
        self,
        alloc: Global,
        slots: u32,
        command: &Command,
    ) -> Result<(Reply, Stage<'a>), Memory>
        ensures reply { IfOk result (λ x. x.0 ≡ (entry_of slots self.entry command.now).reply) }
        ensures stage { IfOk result (λ x. x.1 ≡ stage_after slots self.entry command.now) }
    {
        let takes = takes_moment(&self.state, command);
        let moment = if takes { next_moment(self.moments) } else { 0 };
        let len = drawn_len(slots, &self.state, command, moment)?;
        let drawn = drawn(alloc, self.noise, len)?;
        let outcome = step(alloc, slots, self.state, command, moment, drawn.as_slice())?;
        let moments = if takes {
            later_moments(self.moments)
        } else {
            self.moments
        };
        let next = Stage {
            state: outcome.state,
            moments,
            noise: later_noise(self.noise, len),
        };
        Ok((outcome.reply, next))
    }
}

/// Whether a command takes a moment.
fn takes_moment(state: &State, command: &Command) -> bool
    ensures same { result ≡ takes_moment state.now command.now }
{
    match command {
        Command::Attempt { user, credential } => has_kind(state, *user, credential.kind),
        _ => false,
    }
}

/// Whether the user is there, and its credential is of this kind.
fn has_kind(state: &State, user: u32, kind: Kind) -> bool
    ensures same { result ≡ has_kind (user_of state.now.vault.users user) kind }
{
    let found = user_of(state.vault.users.as_slice(), user);
    found.is_some_and(|u| is_same_kind(kind, u.credential.kind))
}
