//! What ends an arming.
ghost use Rattle.std.specs.Prelude.{◌≡◌, ◌≢◌, ◌≤◌, ◌<◌, ◌+◌, ℕ, min, true, List, [], None, Some};
ghost use Rattle.ls_script.specs.declared.command.Command.TheVariants as command;
ghost use Rattle.ls_script.specs.declared.reply.Refusal.TheVariants.{Expired};
ghost use Rattle.ls_script.specs.declared.reply.Reply.TheVariants.{No, Resumed};
ghost use Rattle.ls_vault.specs.Limits.{last_of_32, last_of_64};
ghost use Rattle.ls_vault.specs.Revealed.{all_revealed};
ghost use Rattle.ls_vault.specs.Step.{step};
ghost use Rattle.ls_vault.specs.declared.state.State.{State as States};
ghost use Rattle.ls_arming.specs.declared.arming.Arming.{Arming as Armings};

/// A resume takes the arming away, whatever it answers; where that is that the arming expired, the
/// users and the session are as they were. The arming expired at a boot before its own and at one
/// more than five after it, and at no other. That it is gone is kept; where nothing can be kept
/// any more, its users are dead instead.
pub fn resumes_end_the_arming()
    ensures none { (slots : ℕ) (s : States) (moment : ℕ) (drawn : List ℕ)
        → (step slots s command.Resume moment drawn).state.vault.arming ≡ None }
    ensures users { (slots : ℕ) (s : States) (moment : ℕ) (drawn : List ℕ)
        → (step slots s command.Resume moment drawn).state.vault.users ≡ s.vault.users }
    ensures session { (slots : ℕ) (s : States) (moment : ℕ) (drawn : List ℕ) (armed boot : ℕ)
        → (step slots s command.Resume moment drawn).reply ≡ No (Expired armed boot)
        → (step slots s command.Resume moment drawn).state.session ≡ s.session }
    ensures early { (slots : ℕ) (s : States) (moment : ℕ) (drawn : List ℕ) (arming : Armings)
        → s.vault.arming ≡ Some arming → s.session.boot < arming.boot
        → (step slots s command.Resume moment drawn).reply
        ≡ No (Expired arming.boot s.session.boot) }
    ensures late { (slots : ℕ) (s : States) (moment : ℕ) (drawn : List ℕ) (arming : Armings)
        → s.vault.arming ≡ Some arming → min (arming.boot + 5) last_of_32 < s.session.boot
        → (step slots s command.Resume moment drawn).reply
        ≡ No (Expired arming.boot s.session.boot) }
    ensures good { (slots : ℕ) (s : States) (moment : ℕ) (drawn : List ℕ) (arming : Armings)
        → s.vault.arming ≡ Some arming
        → arming.boot ≤ s.session.boot → s.session.boot ≤ min (arming.boot + 5) last_of_32
        → (step slots s command.Resume moment drawn).reply
        ≡ Resumed (all_revealed s.vault.users arming.users) }
    ensures kept { (slots : ℕ) (s : States) (moment : ℕ) (drawn : List ℕ) (arming : Armings)
        → s.vault.arming ≡ Some arming → s.books.kept ≢ last_of_64
        → (step slots s command.Resume moment drawn).state.books
        ≡ record s.books { kept = s.books.kept + 1 } }
    ensures worn { (slots : ℕ) (s : States) (moment : ℕ) (drawn : List ℕ) (arming : Armings)
        → s.vault.arming ≡ Some arming → s.books.kept ≡ last_of_64
        → (step slots s command.Resume moment drawn).state.books
        ≡ record s.books { dead = arming.users } }
{}

/// A Prepare takes the arming away, and leaves users, who is opened, and pending tokens as they
/// were. From then on unlocked users are captured. Where somebody was armed or dead, nobody is dead
/// any more, and that is kept; where nothing can be kept any more, the armed users are dead, or the
/// dead ones stay so.
pub fn prepares_end_the_arming()
    ensures none { (slots : ℕ) (s : States) (moment : ℕ) (drawn : List ℕ)
        → (step slots s command.Prepare moment drawn).state.vault.arming ≡ None }
    ensures users { (slots : ℕ) (s : States) (moment : ℕ) (drawn : List ℕ)
        → (step slots s command.Prepare moment drawn).state.vault.users ≡ s.vault.users }
    ensures opened { (slots : ℕ) (s : States) (moment : ℕ) (drawn : List ℕ)
        → (step slots s command.Prepare moment drawn).state.session.opened ≡ s.session.opened }
    ensures pending { (slots : ℕ) (s : States) (moment : ℕ) (drawn : List ℕ)
        → (step slots s command.Prepare moment drawn).state.session.pending
        ≡ s.session.pending }
    ensures prepared { (slots : ℕ) (s : States) (moment : ℕ) (drawn : List ℕ)
        → (step slots s command.Prepare moment drawn).state.session.prepared ≡ true }
    ensures captured { (slots : ℕ) (s : States) (moment : ℕ) (drawn : List ℕ)
        → (step slots s command.Prepare moment drawn).state.session.captured ≡ [] }
    ensures ended { (slots : ℕ) (s : States) (moment : ℕ) (drawn : List ℕ) (arming : Armings)
        → s.vault.arming ≡ Some arming → s.books.kept ≢ last_of_64
        → (step slots s command.Prepare moment drawn).state.books
        ≡ record { kept = s.books.kept + 1; dead = [] } }
    ensures lost { (slots : ℕ) (s : States) (moment : ℕ) (drawn : List ℕ) (arming : Armings)
        → s.vault.arming ≡ Some arming → s.books.kept ≡ last_of_64
        → (step slots s command.Prepare moment drawn).state.books
        ≡ record s.books { dead = arming.users } }
    ensures forgotten { (slots : ℕ) (s : States) (moment : ℕ) (drawn : List ℕ)
        → s.vault.arming ≡ None → s.books.dead ≢ [] → s.books.kept ≢ last_of_64
        → (step slots s command.Prepare moment drawn).state.books
        ≡ record { kept = s.books.kept + 1; dead = [] } }
    ensures worn { (slots : ℕ) (s : States) (moment : ℕ) (drawn : List ℕ)
        → s.vault.arming ≡ None → s.books.kept ≡ last_of_64
        → (step slots s command.Prepare moment drawn).state.books ≡ s.books }
    ensures quiet { (slots : ℕ) (s : States) (moment : ℕ) (drawn : List ℕ)
        → s.vault.arming ≡ None → s.books.dead ≡ []
        → (step slots s command.Prepare moment drawn).state.books ≡ s.books }
{}
