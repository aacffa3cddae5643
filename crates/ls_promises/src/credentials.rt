//! Which credential of a user is the present one.
ghost use Rattle.std.specs.Prelude.{◌≡◌, ℕ, Bool, false, List, Some};
ghost use Rattle.std.specs.List.{list_any};
ghost use Rattle.ls_credential.specs.Rules.{KindAndText};
ghost use Rattle.ls_promises.specs.Credentials.{credential_of, no_credential, renews};
ghost use Rattle.ls_script.specs.declared.command.Command.{Command as Commands};
ghost use Rattle.ls_script.specs.declared.command.Command.TheVariants as command;
ghost use Rattle.ls_script.specs.declared.reply.Reply.TheVariants.{Fine};
ghost use Rattle.ls_vault.specs.Histories.{Event, history, state_after, passes};
ghost use Rattle.ls_vault.specs.Step.{step};
ghost use Rattle.ls_vault.specs.declared.state.State.{State as States};

/// A new user has no credential. A change that is answered so gives the user the new one. Every
/// other command leaves it, and so does a refused one: so over every history the present
/// credential is that of the last change, or none behind the adding.
pub fn credentials_stay()
    ensures added { (slots : ℕ) (s : States) (user : ℕ) (escrow : Bool) (moment : ℕ)
        → (drawn : List ℕ)
        → (step slots s (command.Add user escrow) moment drawn).reply ≡ Fine
        → credential_of (step slots s (command.Add user escrow) moment drawn).state user
        ≡ Some no_credential }
    ensures changed { (slots : ℕ) (s : States) (user : ℕ) (new : KindAndText) (moment : ℕ)
        → (drawn : List ℕ)
        → (step slots s (command.Change user new) moment drawn).reply ≡ Fine
        → credential_of (step slots s (command.Change user new) moment drawn).state user
        ≡ Some new }
    ensures command { (slots : ℕ) (s : States) (c : Commands) (moment : ℕ) (drawn : List ℕ)
        → (user : ℕ)
        → renews user c (step slots s c moment drawn).reply ≡ false
        → credential_of (step slots s c moment drawn).state user ≡ credential_of s user }
    ensures history { (slots : ℕ) (s : States) (events : List Event) (user : ℕ)
        → list_any (passes (renews user)) (history slots s events) ≡ false
        → credential_of (state_after slots s events) user ≡ credential_of s user }
{}
