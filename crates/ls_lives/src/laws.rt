//! The laws of the vault machine over lives, with no code.
ghost use Rattle.std.specs.Prelude.{◌≡◌, ◌≤◌, ◌+◌, ◌++◌, ◌∷◌, ℕ, min, true, false, List};
ghost use Rattle.std.specs.Prelude.{count_by, Some};
ghost use Rattle.std.specs.List.{list_any};
ghost use Rattle.ls_promises.specs.Answers.{arms, resumes, drops, ends_token, adds_token};
ghost use Rattle.ls_promises.specs.Answers.{opens_by_token, forgives, misses};
ghost use Rattle.ls_promises.specs.Counters.{fails_of};
ghost use Rattle.ls_promises.specs.Secrets.{derived_at};
ghost use Rattle.ls_secret.specs.declared.derived.Derived.{Derived as Keys};
ghost use Rattle.ls_vault.specs.Histories.{Happening, history, passes};
ghost use Rattle.ls_vault.specs.Limits.{last_of_32};
ghost use Rattle.ls_vault.specs.declared.state.State.{State as States};
ghost use Rattle.ls_lives.specs.Lives.{Life, story, state_at_end};

use crate::histories::stretches_are_histories;
use ls_promises::{
    armings_open_once, removed_tokens_stay_removed, secrets_stay, wrong_texts_stay_counted,
};

/// In what happened in lives, as in every history: a user's keys stay until it is dropped; between two
/// armings at most one resume opens users; a token that was removed opens nothing until it is added
/// again; a wrong text stays counted until it is forgiven.
pub fn laws_hold_over_lives()
    ensures secrets { (slots : ℕ) (s : States) (lives : List Life)
        → (before stretch more : List Happening) (user : ℕ) (keys : Keys)
        → history slots s (story lives) ≡ before ++ (stretch ++ more)
        → derived_at (state_at_end s before) user ≡ Some keys
        → list_any (passes (drops user)) stretch ≡ false
        → derived_at (state_at_end s (before ++ stretch)) user ≡ Some keys }
    ensures armings { (slots : ℕ) (s : States) (lives : List Life)
        → (before stretch more : List Happening)
        → history slots s (story lives) ≡ before ++ (stretch ++ more)
        → list_any (passes arms) stretch ≡ false
        → count_by (passes resumes) stretch ≤ 1 }
    ensures tokens { (slots : ℕ) (s : States) (lives : List Life)
        → (before : List Happening) (h : Happening) (stretch more : List Happening)
        → (user id : ℕ) (bytes : List ℕ)
        → history slots s (story lives) ≡ before ++ (h ∷ (stretch ++ more))
        → passes (ends_token user id) h ≡ true
        → list_any (passes (adds_token user id bytes)) stretch ≡ false
        → list_any (passes (opens_by_token user id bytes)) stretch ≡ false }
    ensures wrong { (slots : ℕ) (s : States) (lives : List Life)
        → (before stretch more : List Happening) (user fails : ℕ)
        → history slots s (story lives) ≡ before ++ (stretch ++ more)
        → fails_of (state_at_end s before) user ≡ Some fails → fails ≤ last_of_32
        → list_any (passes (forgives user)) stretch ≡ false
        → fails_of (state_at_end s (before ++ stretch)) user
        ≡ Some (min (fails + count_by (passes (misses user)) stretch) last_of_32) }
{
    secrets_stay();
    armings_open_once();
    removed_tokens_stay_removed();
    wrong_texts_stay_counted();
    stretches_are_histories();
}
