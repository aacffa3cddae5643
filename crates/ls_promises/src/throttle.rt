//! Wrong texts are counted, and the count can't be evaded.
ghost use Rattle.std.specs.Prelude.{◌≡◌, ◌≤◌, ◌<◌, ◌+◌, ◌-◌, ℕ, min, false, true, List, Some};
ghost use Rattle.std.specs.Prelude.{count_by};
ghost use Rattle.std.specs.List.{list_any};
ghost use Rattle.ls_credential.specs.Rules.{KindAndText};
ghost use Rattle.ls_promises.specs.Answers.{forgives, misses};
ghost use Rattle.ls_promises.specs.Counters.{fails_of, until_of};
ghost use Rattle.ls_script.specs.declared.command.Command.TheVariants as command;
ghost use Rattle.ls_script.specs.declared.reply.Refusal.TheVariants.{Throttled, Wrong};
ghost use Rattle.ls_script.specs.declared.reply.Reply.TheVariants.{No};
ghost use Rattle.ls_vault.specs.Histories.{Event, history, state_after, passes};
ghost use Rattle.ls_vault.specs.Kinds.{same_kind};
ghost use Rattle.ls_vault.specs.Limits.{last_of_32, last_of_64};
ghost use Rattle.ls_vault.specs.States.{refused};
ghost use Rattle.ls_vault.specs.Step.{step};
ghost use Rattle.ls_vault.specs.Users.{user_of};
ghost use Rattle.ls_vault.specs.declared.state.State.{State as States};
ghost use Rattle.ls_vault.specs.declared.user.User.{User as Users};
ghost use Rattle.ls_weaver.specs.Throttle.{timeout};

/// Each wrong text of a user is counted, over restarts too, until the user is opened by its
/// credential, gets another one, or is dropped. The moment until which no text is looked at moves
/// with these alone, and before it a text of the stored kind is refused unseen.
pub fn wrong_texts_stay_counted()
    ensures counted { (slots : ℕ) (s : States) (events : List Event) (user fails : ℕ)
        → fails_of s user ≡ Some fails → fails ≤ last_of_32
        → list_any (passes (forgives user)) (history slots s events) ≡ false
        → fails_of (state_after slots s events) user
        ≡ Some (min (fails + count_by (passes (misses user)) (history slots s events))
        last_of_32) }
    ensures until { (slots : ℕ) (s : States) (events : List Event) (user until : ℕ)
        → until_of s user ≡ Some until
        → list_any (passes (forgives user)) (history slots s events) ≡ false
        → list_any (passes (misses user)) (history slots s events) ≡ false
        → until_of (state_after slots s events) user ≡ Some until }
    ensures missed { (slots : ℕ) (s : States) (user : ℕ) (offered : KindAndText)
        → (moment : ℕ) (drawn : List ℕ) (rest fails : ℕ)
        → (step slots s (command.Attempt user offered) moment drawn).reply ≡ No (Wrong rest)
        → fails_of s user ≡ Some fails
        → (rest ≡ timeout (min (fails + 1) last_of_32))
        × (until_of (step slots s (command.Attempt user offered) moment drawn).state user
        ≡ Some (min (moment + rest) last_of_64)) }
    ensures throttled { (slots : ℕ) (s : States) (user : ℕ) (offered : KindAndText)
        → (moment : ℕ) (drawn : List ℕ) (found : Users)
        → user_of s.vault.users user ≡ Some found
        → same_kind offered.kind found.credential.kind ≡ true
        → moment < found.until
        → step slots s (command.Attempt user offered) moment drawn
        ≡ refused s (Throttled (found.until - moment)) }
{}
