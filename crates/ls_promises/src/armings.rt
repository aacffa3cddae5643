//! An arming opens its users once.
ghost use Rattle.std.specs.Prelude.{◌≡◌, ◌≤◌, ℕ, false, List, None, count_by};
ghost use Rattle.std.specs.List.{list_any};
ghost use Rattle.ls_promises.specs.Answers.{arms, resumes};
ghost use Rattle.ls_vault.specs.Histories.{Event, history, passes};
ghost use Rattle.ls_vault.specs.declared.state.State.{State as States};

/// Where no users are armed in a history, at most one resume in it opens users, and none where
/// nothing is armed at its beginning. So between two armings at most one does.
pub fn armings_open_once()
    ensures once { (slots : ℕ) (s : States) (events : List Event)
        → list_any (passes arms) (history slots s events) ≡ false
        → count_by (passes resumes) (history slots s events) ≤ 1 }
    ensures never { (slots : ℕ) (s : States) (events : List Event)
        → s.vault.arming ≡ None
        → list_any (passes arms) (history slots s events) ≡ false
        → count_by (passes resumes) (history slots s events) ≡ 0 }
{}
