//! Locking closes a user.
ghost use Rattle.std.specs.Prelude.{◌≡◌, ◌≢◌, ℕ, true, false, List};
ghost use Rattle.ls_script.specs.declared.command.Command.TheVariants as command;
ghost use Rattle.ls_script.specs.declared.reply.Reply.TheVariants.{Fine};
ghost use Rattle.ls_vault.specs.Step.{step};
ghost use Rattle.ls_vault.specs.Users.{is_user};
ghost use Rattle.ls_arming.specs.Numbers.{contains};
ghost use Rattle.ls_vault.specs.declared.state.State.{State as States};

/// A user that is there can always be locked, and is closed then. Who else is opened, who is
/// captured, the pending tokens, and all that is kept stay as they were.
pub fn locks_close()
    ensures accepted { (slots : ℕ) (s : States) (user moment : ℕ) (drawn : List ℕ)
        → is_user s.vault.users user ≡ true
        → (step slots s (command.Lock user) moment drawn).reply ≡ Fine }
    ensures closed { (slots : ℕ) (s : States) (user moment : ℕ) (drawn : List ℕ)
        → (step slots s (command.Lock user) moment drawn).reply ≡ Fine
        → contains (step slots s (command.Lock user) moment drawn).state.session.opened user
        ≡ false }
    ensures others { (slots : ℕ) (s : States) (user moment : ℕ) (drawn : List ℕ) (other : ℕ)
        → other ≢ user
        → contains (step slots s (command.Lock user) moment drawn).state.session.opened other
        ≡ contains s.session.opened other }
    ensures captured { (slots : ℕ) (s : States) (user moment : ℕ) (drawn : List ℕ)
        → (step slots s (command.Lock user) moment drawn).state.session.captured
        ≡ s.session.captured }
    ensures pending { (slots : ℕ) (s : States) (user moment : ℕ) (drawn : List ℕ)
        → (step slots s (command.Lock user) moment drawn).state.session.pending
        ≡ s.session.pending }
    ensures vault { (slots : ℕ) (s : States) (user moment : ℕ) (drawn : List ℕ)
        → (step slots s (command.Lock user) moment drawn).state.vault ≡ s.vault }
    ensures books { (slots : ℕ) (s : States) (user moment : ℕ) (drawn : List ℕ)
        → (step slots s (command.Lock user) moment drawn).state.books ≡ s.books }
{}
