//! What fits together in every state.
ghost use Rattle.std.specs.Prelude.{◌≡◌, ◌⊎◌, ℕ, false, List, [], None};
ghost use Rattle.std.specs.List.{AllByRecursion, list_any};
ghost use Rattle.ls_promises.specs.Consistency.{IsConsistent, IsSettled, FindsBooks};
ghost use Rattle.ls_promises.specs.Consistency.{KeepsRules, breaks_a_rule};
ghost use Rattle.ls_promises.specs.Soundness.{IsSound};
ghost use Rattle.ls_script.specs.declared.command.Command.{Command as Commands};
ghost use Rattle.ls_vault.specs.Histories.{Event, history, state_after, passes};
ghost use Rattle.ls_vault.specs.Step.{step, restart};
ghost use Rattle.ls_vault.specs.declared.state.State.{State as States};
ghost use Rattle.ls_vault.specs.declared.vault.Books.{Books as Kept};

/// A user has a secure id exactly where it has a credential; who may have no tokens has none; and
/// nobody is captured where nothing is prepared. This holds of an empty vault, and each command
/// and each restart leaves it so. So it holds in every state of a history.
pub fn states_stay_consistent()
    ensures empty { (s : States) → s.vault.users ≡ [] → s.session.captured ≡ []
        → IsConsistent s }
    ensures command { (slots : ℕ) (s : States) (c : Commands) (moment : ℕ) (drawn : List ℕ)
        → IsSound slots s → IsConsistent s → IsConsistent (step slots s c moment drawn).state }
    ensures restart { (s : States) (boot : ℕ) (books : Kept)
        → IsConsistent s → IsConsistent (restart s boot books) }
    ensures history { (slots : ℕ) (s : States) (events : List Event)
        → IsSound slots s → IsConsistent s → IsConsistent (state_after slots s events) }
{}

/// Users are never armed while others are dead. This holds where nothing is armed and prepared, and
/// each command leaves it so, and each restart whose books have no dead users while users are
/// armed. So it holds in every state of a history with such restarts.
pub fn armings_leave_nobody_dead()
    ensures empty { (s : States) → s.vault.arming ≡ None → s.session.prepared ≡ false
        → IsSettled s }
    ensures command { (slots : ℕ) (s : States) (c : Commands) (moment : ℕ) (drawn : List ℕ)
        → IsSettled s → IsSettled (step slots s c moment drawn).state }
    ensures restart { (s : States) (boot : ℕ) (books : Kept)
        → (s.vault.arming ≡ None) ⊎ (books.dead ≡ []) → IsSettled (restart s boot books) }
    ensures history { (slots : ℕ) (s : States) (events : List Event)
        → AllByRecursion FindsBooks (history slots s events)
        → IsSettled s → IsSettled (state_after slots s events) }
{}

/// The text of each user's credential keeps the rule of its kind, and without a credential nothing
/// failed. This holds of an empty vault, and in every state of a history whose commands offer
/// credentials that keep the rule of their kind.
pub fn credentials_keep_their_rules()
    ensures empty { (s : States) → s.vault.users ≡ [] → KeepsRules s }
    ensures command { (slots : ℕ) (s : States) (c : Commands) (moment : ℕ) (drawn : List ℕ)
        → breaks_a_rule c (step slots s c moment drawn).reply ≡ false
        → KeepsRules s → KeepsRules (step slots s c moment drawn).state }
    ensures history { (slots : ℕ) (s : States) (events : List Event)
        → list_any (passes breaks_a_rule) (history slots s events) ≡ false
        → KeepsRules s → KeepsRules (state_after slots s events) }
{}
