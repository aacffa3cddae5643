//! What happened in lives is a history, with no code.
ghost use Rattle.std.specs.Prelude.{◌≡◌, ◌++◌, ℕ, List, map, take};
ghost use Rattle.ls_vault.specs.Histories.{Event, Happening, history, state_after};
ghost use Rattle.ls_vault.specs.Script.{acknowledged};
ghost use Rattle.ls_vault.specs.declared.state.State.{State as States};
ghost use Rattle.ls_lives.specs.Lives.{Life, AreCounted, IsCounted, story, story_replies};
ghost use Rattle.ls_lives.specs.Lives.{vault_at_end, state_at_end, entries_of, kept_entries};
ghost use Rattle.ls_lives.specs.Lives.{first_state};

use ls_promises::scripts_are_histories;

/// What happened in lives, from a state with the first one's vault, is a history of the vault machine:
/// its replies are those of the commands that were kept, and it ends in the vault that the last life
/// left. Each command whose reply was said is in it.
pub fn lives_are_histories()
    ensures replies { (slots : ℕ) (s : States) (lives : List Life) → AreCounted slots s.vault lives
        → map (λ h. h.reply) (history slots s (story lives)) ≡ story_replies lives }
    ensures vault { (slots : ℕ) (s : States) (lives : List Life) → AreCounted slots s.vault lives
        → (state_after slots s (story lives)).vault ≡ vault_at_end s.vault lives }
    ensures acknowledged { (slots : ℕ) (l : Life) (life : IsCounted slots l)
        → let count = acknowledged life.said slots (first_state l) l.start.input l.start.moments
        l.start.noise in
        take count (kept_entries l) ≡ take count (entries_of l) }
{
    scripts_are_histories();
}

/// Each stretch of a history is a history, from the state before it.
pub fn stretches_are_histories()
    ensures { (slots : ℕ) (s : States) (events : List Event) (before stretch more : List Happening)
        → history slots s events ≡ before ++ (stretch ++ more)
        → stretch ≡ history slots (state_at_end s before) (map (λ h. h.event) stretch) }
{}
