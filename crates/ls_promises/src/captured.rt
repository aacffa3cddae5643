//! Armed users were captured, and captured users were unlocked.
ghost use Rattle.std.specs.Prelude.{◌≡◌, ℕ, false, List, [], Some};
ghost use Rattle.std.specs.List.{list_any};
ghost use Rattle.ls_promises.specs.Answers.{arms, unlocks};
ghost use Rattle.ls_promises.specs.Soundness.{armed_numbers};
ghost use Rattle.ls_script.specs.declared.command.Command.{Command as Commands};
ghost use Rattle.ls_script.specs.declared.command.Command.TheVariants as command;
ghost use Rattle.ls_script.specs.declared.reply.Reply.TheVariants.{Fine};
ghost use Rattle.ls_vault.specs.Histories.{Event, history, state_after, passes};
ghost use Rattle.ls_vault.specs.Step.{step, restart};
ghost use Rattle.ls_arming.specs.Numbers.{contains};
ghost use Rattle.ls_vault.specs.declared.state.State.{State as States};
ghost use Rattle.ls_vault.specs.declared.vault.Books.{Books as Kept};

/// The users of a new arming are the captured ones, at the boot of the session. Nobody becomes an
/// armed user otherwise: a user that isn't armed isn't behind a command either, but behind an
/// arming where it was captured.
pub fn armed_users_were_captured()
    ensures boot { (slots : ℕ) (s : States) (moment : ℕ) (drawn : List ℕ)
        → (step slots s command.Arm moment drawn).reply ≡ Fine
        → (step slots s command.Arm moment drawn).state.vault.arming
        ≡ Some (record { boot = s.session.boot; users = s.session.captured }) }
    ensures others { (slots : ℕ) (s : States) (c : Commands) (moment : ℕ) (drawn : List ℕ)
        → (user : ℕ) → contains (armed_numbers s.vault.arming) user ≡ false
        → arms c (step slots s c moment drawn).reply ≡ false
        → contains (armed_numbers (step slots s c moment drawn).state.vault.arming) user
        ≡ false }
    ensures captured { (slots : ℕ) (s : States) (c : Commands) (moment : ℕ) (drawn : List ℕ)
        → (user : ℕ) → contains (armed_numbers s.vault.arming) user ≡ false
        → contains s.session.captured user ≡ false
        → contains (armed_numbers (step slots s c moment drawn).state.vault.arming) user
        ≡ false }
{}

/// Nobody is captured behind a Prepare, an arming and a restart. From there on a user is captured
/// only where it was unlocked by its own credential or token. So over every history a closed user
/// that is neither captured nor armed stays so until it is unlocked itself: no resume opens it. A
/// user that is closed at a Prepare stays closed until it is unlocked itself.
pub fn captured_users_were_unlocked()
    ensures prepared { (slots : ℕ) (s : States) (moment : ℕ) (drawn : List ℕ)
        → (step slots s command.Prepare moment drawn).state.session.captured ≡ [] }
    ensures armed { (slots : ℕ) (s : States) (moment : ℕ) (drawn : List ℕ)
        → (step slots s command.Arm moment drawn).reply ≡ Fine
        → (step slots s command.Arm moment drawn).state.session.captured ≡ [] }
    ensures restarted { (s : States) (boot : ℕ) (books : Kept)
        → (restart s boot books).session.captured ≡ [] }
    ensures since { (slots : ℕ) (s : States) (events : List Event) (user : ℕ)
        → contains s.session.captured user ≡ false
        → list_any (passes (unlocks user)) (history slots s events) ≡ false
        → contains (state_after slots s events).session.captured user ≡ false }
    ensures unarmed { (slots : ℕ) (s : States) (events : List Event) (user : ℕ)
        → contains s.session.captured user ≡ false
        → contains (armed_numbers s.vault.arming) user ≡ false
        → list_any (passes (unlocks user)) (history slots s events) ≡ false
        → contains (armed_numbers (state_after slots s events).vault.arming) user ≡ false }
    ensures closed { (slots : ℕ) (s : States) (events : List Event) (user : ℕ)
        → contains s.session.opened user ≡ false
        → contains s.session.captured user ≡ false
        → contains (armed_numbers s.vault.arming) user ≡ false
        → list_any (passes (unlocks user)) (history slots s events) ≡ false
        → contains (state_after slots s events).session.opened user ≡ false }
    ensures behind_prepare { (slots : ℕ) (s : States) (moment : ℕ) (drawn : List ℕ)
        → (events : List Event) (user : ℕ)
        → contains s.session.opened user ≡ false
        → list_any (passes (unlocks user))
        (history slots (step slots s command.Prepare moment drawn).state events) ≡ false
        → contains (state_after slots (step slots s command.Prepare moment drawn).state
        events).session.opened user ≡ false }
{}
