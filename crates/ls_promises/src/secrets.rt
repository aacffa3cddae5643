//! A user's secret stays from the command that makes the user to the one that removes it.
ghost use Rattle.std.specs.Prelude.{◌≡◌, ℕ, Bool, false, List, take, drop, Some};
ghost use Rattle.std.specs.List.{list_any};
ghost use Rattle.ls_credential.specs.Rules.{KindAndText};
ghost use Rattle.ls_script.specs.declared.reply.Reply.TheVariants.{Fine};
ghost use Rattle.ls_secret.specs.Secrets.{SecretValue, new_secret};
ghost use Rattle.ls_secret.specs.declared.derived.Derived.{Derived as Keys};
ghost use Rattle.ls_script.specs.declared.command.Command.{Command as Commands};
ghost use Rattle.ls_script.specs.declared.command.Command.TheVariants as command;
ghost use Rattle.ls_promises.specs.Answers.{drops};
ghost use Rattle.ls_promises.specs.Secrets.{secret_of, derived_at, makes_or_removes};
ghost use Rattle.ls_vault.specs.Histories.{Event, history, state_after, passes};
ghost use Rattle.ls_vault.specs.Step.{step};
ghost use Rattle.ls_vault.specs.declared.state.State.{State as States};

/// A new user has the secret of the drawn bytes. No command but the one that makes a user and the
/// one that removes it changes its secret. So over every history it is the same in all states from
/// the one to the other, and so are the keys that are derived from it.
pub fn secrets_stay()
    ensures added { (slots : ℕ) (s : States) (user : ℕ) (escrow : Bool) (moment : ℕ)
        → (drawn : List ℕ)
        → (step slots s (command.Add user escrow) moment drawn).reply ≡ Fine
        → secret_of (step slots s (command.Add user escrow) moment drawn).state user
        ≡ Some (new_secret (take 32 drawn) (take 32 (drop 32 drawn))) }
    ensures command { (slots : ℕ) (s : States) (c : Commands) (moment : ℕ) (drawn : List ℕ)
        → (user : ℕ)
        → makes_or_removes user c ≡ false
        → secret_of (step slots s c moment drawn).state user ≡ secret_of s user }
    ensures change { (slots : ℕ) (s : States) (changed : ℕ) (new : KindAndText)
        → (moment : ℕ) (drawn : List ℕ) (user : ℕ)
        → derived_at (step slots s (command.Change changed new) moment drawn).state user
        ≡ derived_at s user }
    ensures history { (slots : ℕ) (s : States) (events : List Event)
        → (user : ℕ) (secret : SecretValue)
        → secret_of s user ≡ Some secret
        → list_any (passes (drops user)) (history slots s events) ≡ false
        → secret_of (state_after slots s events) user ≡ Some secret }
    ensures derived { (slots : ℕ) (s : States) (events : List Event) (user : ℕ) (keys : Keys)
        → derived_at s user ≡ Some keys
        → list_any (passes (drops user)) (history slots s events) ≡ false
        → derived_at (state_after slots s events) user ≡ Some keys }
{}
