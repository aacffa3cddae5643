//! What a script does is a history.
ghost use Rattle.std.specs.Prelude.{◌≡◌, ℕ, List, map, take, Some};
ghost use Rattle.ls_vault.specs.Histories.{history, state_after};
ghost use Rattle.ls_vault.specs.Script.{told, after, event_of};
ghost use Rattle.ls_vault.specs.declared.state.State.{State as States};

/// The commands of a script, at their moments and with their drawn bytes, are a history, with the
/// same replies and the same states. So what holds of every history holds of every script.
pub fn scripts_are_histories()
    ensures replies { (slots : ℕ) (s : States) (script moments noise : List ℕ)
        → map (λ h. h.reply) (history slots s (map event_of (told slots s script moments noise)))
        ≡ map (λ e. Some e.reply) (told slots s script moments noise) }
    ensures states { (slots : ℕ) (s : States) (script moments noise : List ℕ) (count : ℕ)
        → state_after slots s (map event_of (take count (told slots s script moments noise)))
        ≡ after s (told slots s script moments noise) count }
{}
