//! Limits that every state keeps.
ghost use Rattle.std.specs.Prelude.{◌≡◌, ℕ, Bool, false, List, [], None};
ghost use Rattle.ls_promises.specs.Soundness.{IsSound, IsOrdered};
ghost use Rattle.ls_script.specs.declared.command.Command.{Command as Commands};
ghost use Rattle.ls_script.specs.declared.command.Command.TheVariants as command;
ghost use Rattle.ls_script.specs.declared.reply.Reply.TheVariants.{Fine};
ghost use Rattle.ls_vault.specs.Histories.{Event, state_after};
ghost use Rattle.ls_vault.specs.Step.{step, restart};
ghost use Rattle.ls_arming.specs.Numbers.{contains};
ghost use Rattle.ls_vault.specs.declared.state.State.{State as States};
ghost use Rattle.ls_vault.specs.declared.vault.Books.{Books as Kept};

/// An empty vault keeps the limits, and each command and each restart leaves them kept. So every
/// state of a history keeps them. A new user is closed.
pub fn limits_are_kept()
    ensures command { (slots : ℕ) (s : States) (c : Commands) (moment : ℕ) (drawn : List ℕ)
        → IsSound slots s → IsSound slots (step slots s c moment drawn).state }
    ensures restart { (slots : ℕ) (s : States) (boot : ℕ) (books : Kept)
        → IsSound slots s → IsSound slots (restart s boot books) }
    ensures empty { (slots : ℕ) (s : States) → s.vault.users ≡ [] → s.vault.arming ≡ None
        → s.session.opened ≡ [] → s.session.captured ≡ [] → s.session.pending ≡ []
        → IsSound slots s }
    ensures history { (slots : ℕ) (s : States) (events : List Event)
        → IsSound slots s → IsSound slots (state_after slots s events) }
    ensures closed { (slots : ℕ) (s : States) (user : ℕ) (escrow : Bool) (moment : ℕ)
        → (drawn : List ℕ) → IsSound slots s
        → (step slots s (command.Add user escrow) moment drawn).reply ≡ Fine
        → contains (step slots s (command.Add user escrow) moment drawn).state.session.opened user
        ≡ false }
{}

/// The numbers of the opened, the captured and the armed users ascend, in every state of a history
/// that begins with none of these.
pub fn numbers_ascend()
    ensures empty { (s : States) → s.vault.arming ≡ None
        → s.session.opened ≡ [] → s.session.captured ≡ [] → IsOrdered s }
    ensures history { (slots : ℕ) (s : States) (events : List Event)
        → IsOrdered s → IsOrdered (state_after slots s events) }
{}
