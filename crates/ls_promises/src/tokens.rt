//! A token that was removed opens nothing any more, and one that gets active stays.
ghost use Rattle.std.specs.Prelude.{◌≡◌, ◌+◌, ℕ, true, false, List, length};
ghost use Rattle.std.specs.List.{list_any};
ghost use Rattle.ls_promises.specs.Answers.{adds_token, opens_by_token, ends_token};
ghost use Rattle.ls_promises.specs.Tokens.{all_tokens};
ghost use Rattle.ls_script.specs.declared.command.Command.{Command as Commands};
ghost use Rattle.ls_script.specs.declared.command.Command.TheVariants as command;
ghost use Rattle.ls_script.specs.declared.reply.Reply.TheVariants.{Fine};
ghost use Rattle.ls_vault.specs.Histories.{Event, history, passes};
ghost use Rattle.ls_vault.specs.Limits.{activated_count};
ghost use Rattle.ls_vault.specs.Step.{step};
ghost use Rattle.ls_vault.specs.Users.{tokens_of};
ghost use Rattle.ls_vault.specs.declared.state.State.{State as States};

/// After a token was dropped, or its user's escrow was ended, or its user was dropped, its bytes
/// don't open the user under its id, before these bytes become a token of the user with this id
/// again.
pub fn removed_tokens_stay_removed()
    ensures removed { (slots : ℕ) (s : States) (c : Commands) (moment : ℕ) (drawn : List ℕ)
        → (events : List Event) (user id : ℕ) (bytes : List ℕ)
        → ends_token user id c (step slots s c moment drawn).reply ≡ true
        → list_any (passes (adds_token user id bytes))
        (history slots (step slots s c moment drawn).state events) ≡ false
        → list_any (passes (opens_by_token user id bytes))
        (history slots (step slots s c moment drawn).state events) ≡ false }
{}

/// Activating drops no token: the tokens of each user, the active ones and then the pending ones,
/// are the same in the same order. As many of the user's become active as find a place.
pub fn activations_keep_tokens()
    ensures same { (slots : ℕ) (s : States) (user moment : ℕ) (drawn : List ℕ) (owner : ℕ)
        → all_tokens (step slots s (command.Activate user) moment drawn).state owner
        ≡ all_tokens s owner }
    ensures count { (slots : ℕ) (s : States) (user moment : ℕ) (drawn : List ℕ)
        → (step slots s (command.Activate user) moment drawn).reply ≡ Fine
        → length (tokens_of (step slots s (command.Activate user) moment drawn).state.vault.users
        user)
        ≡ length (tokens_of s.vault.users user) + activated_count slots s user }
{}
