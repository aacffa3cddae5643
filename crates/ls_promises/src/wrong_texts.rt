//! A wrong text is answered so, and changes nothing but the counters of its user.
ghost use Rattle.std.specs.Prelude.{◌≡◌, ◌≢◌, ◌≤◌, ◌+◌, ℕ, min, false, true, List, Some};
ghost use Rattle.ls_credential.specs.Rules.{KindAndText};
ghost use Rattle.ls_promises.specs.Counters.{fails_of};
ghost use Rattle.ls_script.specs.declared.command.Command.TheVariants as command;
ghost use Rattle.ls_script.specs.declared.reply.Refusal.TheVariants.{WrongKind, Wrong};
ghost use Rattle.ls_script.specs.declared.reply.Reply.TheVariants.{No};
ghost use Rattle.ls_vault.specs.Kinds.{same_kind};
ghost use Rattle.ls_vault.specs.Limits.{last_of_32};
ghost use Rattle.ls_vault.specs.States.{with_users, refused};
ghost use Rattle.ls_vault.specs.Step.{step};
ghost use Rattle.ls_vault.specs.Unlocking.{failed};
ghost use Rattle.ls_vault.specs.Users.{user_of, changed};
ghost use Rattle.ls_vault.specs.declared.state.State.{State as States};
ghost use Rattle.ls_vault.specs.declared.user.User.{User as Users};
ghost use Rattle.ls_weaver.specs.Throttle.{timeout};

/// A credential of another kind is refused unseen. A wrong text of the stored kind that nothing
/// throttles is answered so, with the rest that it brings about. It is counted, and moves the
/// moment until which no text is looked at; nothing else of the state changes.
pub fn wrong_texts_are_answered()
    ensures unseen { (slots : ℕ) (s : States) (user : ℕ) (offered : KindAndText)
        → (moment : ℕ) (drawn : List ℕ) (found : Users)
        → user_of s.vault.users user ≡ Some found
        → same_kind offered.kind found.credential.kind ≡ false
        → step slots s (command.Attempt user offered) moment drawn
        ≡ refused s (WrongKind found.credential.kind) }
    ensures answered { (slots : ℕ) (s : States) (user : ℕ) (offered : KindAndText)
        → (moment : ℕ) (drawn : List ℕ) (found : Users)
        → user_of s.vault.users user ≡ Some found
        → same_kind offered.kind found.credential.kind ≡ true
        → found.until ≤ moment
        → offered ≢ found.credential
        → (step slots s (command.Attempt user offered) moment drawn).reply
        ≡ No (Wrong (timeout (min (found.fails + 1) last_of_32))) }
    ensures counted { (slots : ℕ) (s : States) (user : ℕ) (offered : KindAndText)
        → (moment : ℕ) (drawn : List ℕ) (found : Users)
        → user_of s.vault.users user ≡ Some found
        → same_kind offered.kind found.credential.kind ≡ true
        → found.until ≤ moment
        → offered ≢ found.credential
        → fails_of (step slots s (command.Attempt user offered) moment drawn).state user
        ≡ Some (min (found.fails + 1) last_of_32) }
    ensures else_same { (slots : ℕ) (s : States) (user : ℕ) (offered : KindAndText)
        → (moment : ℕ) (drawn : List ℕ) (found : Users)
        → user_of s.vault.users user ≡ Some found
        → same_kind offered.kind found.credential.kind ≡ true
        → found.until ≤ moment
        → offered ≢ found.credential
        → (step slots s (command.Attempt user offered) moment drawn).state
        ≡ with_users s (changed s.vault.users user (failed moment)) }
{}
