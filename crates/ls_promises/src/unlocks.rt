//! What opens a user, what is revealed then, and what an unlock leaves.
ghost use Rattle.std.specs.Prelude.{◌≡◌, ◌↔◌, ℕ, true, false, List, Some};
ghost use Rattle.std.specs.List.{list_any};
ghost use Rattle.ls_credential.specs.Rules.{KindAndText};
ghost use Rattle.ls_promises.specs.Answers.{unlocks, opens};
ghost use Rattle.ls_promises.specs.Counters.{fails_of, until_of};
ghost use Rattle.ls_promises.specs.Soundness.{armed_numbers};
ghost use Rattle.ls_promises.specs.Unlocks.{OpensByCredential, OpensByToken, OpensByArming};
ghost use Rattle.ls_script.specs.declared.command.Command.{Command as Commands};
ghost use Rattle.ls_script.specs.declared.command.Command.TheVariants as command;
ghost use Rattle.ls_script.specs.declared.reply.Reply.TheVariants.{Opened, Resumed};
ghost use Rattle.ls_script.specs.declared.reply.Revealed.{Revealed};
ghost use Rattle.ls_vault.specs.Histories.{Event, history, state_after, passes};
ghost use Rattle.ls_vault.specs.Step.{step};
ghost use Rattle.ls_arming.specs.Numbers.{contains};
ghost use Rattle.ls_vault.specs.declared.state.State.{State as States};
ghost use Rattle.ls_arming.specs.declared.arming.Arming.{Arming as Armings};

/// An unlock reveals a user's keys exactly where the present credential is offered and nothing
/// throttles; one by a token exactly where an active token of the user has the offered id and
/// bytes; and a resume exactly where there is an arming that is still good.
pub fn unlocks_are_exact()
    ensures credential { (slots : ℕ) (s : States) (user : ℕ) (offered : KindAndText)
        → (moment : ℕ) (drawn : List ℕ) (r : Revealed)
        → ((step slots s (command.Attempt user offered) moment drawn).reply ≡ Opened r)
        ↔ OpensByCredential s user offered moment r }
    ensures token { (slots : ℕ) (s : States) (user id : ℕ) (offered : List ℕ)
        → (moment : ℕ) (drawn : List ℕ) (r : Revealed)
        → ((step slots s (command.TokenAttempt user id offered) moment drawn).reply ≡ Opened r)
        ↔ OpensByToken s user id offered r }
    ensures arming { (slots : ℕ) (s : States) (moment : ℕ) (drawn : List ℕ) (rows : List Revealed)
        → ((step slots s command.Resume moment drawn).reply ≡ Resumed rows) ↔ OpensByArming s rows }
{}

/// Nobody is opened but by an unlock or a resume that is answered so, a resume opens armed users
/// alone, and nobody is captured but by an unlock. So over every history a closed user stays
/// closed until one of these.
pub fn only_unlocks_open()
    ensures opened { (slots : ℕ) (s : States) (c : Commands) (moment : ℕ) (drawn : List ℕ)
        → (user : ℕ) → contains s.session.opened user ≡ false
        → opens user c (step slots s c moment drawn).reply ≡ false
        → contains (step slots s c moment drawn).state.session.opened user ≡ false }
    ensures captured { (slots : ℕ) (s : States) (c : Commands) (moment : ℕ) (drawn : List ℕ)
        → (user : ℕ) → contains s.session.captured user ≡ false
        → unlocks user c (step slots s c moment drawn).reply ≡ false
        → contains (step slots s c moment drawn).state.session.captured user ≡ false }
    ensures armed { (slots : ℕ) (s : States) (moment : ℕ) (drawn : List ℕ) (user : ℕ)
        → contains (armed_numbers s.vault.arming) user ≡ false
        → contains s.session.opened user ≡ false
        → contains (step slots s command.Resume moment drawn).state.session.opened user ≡ false }
    ensures history { (slots : ℕ) (s : States) (events : List Event) (user : ℕ)
        → contains s.session.opened user ≡ false
        → list_any (passes (opens user)) (history slots s events) ≡ false
        → contains (state_after slots s events).session.opened user ≡ false }
{}

/// Behind an unlock, by a credential or a token, the user is opened, and captured while an arming
/// is prepared. One by a credential clears the counters. Behind a resume that is answered so, each
/// armed user is opened.
pub fn unlocks_open()
    ensures opened { (slots : ℕ) (s : States) (c : Commands) (moment : ℕ) (drawn : List ℕ)
        → (user : ℕ) → unlocks user c (step slots s c moment drawn).reply ≡ true
        → contains (step slots s c moment drawn).state.session.opened user ≡ true }
    ensures captured { (slots : ℕ) (s : States) (c : Commands) (moment : ℕ) (drawn : List ℕ)
        → (user : ℕ) → unlocks user c (step slots s c moment drawn).reply ≡ true
        → s.session.prepared ≡ true
        → contains (step slots s c moment drawn).state.session.captured user ≡ true }
    ensures cleared { (slots : ℕ) (s : States) (user : ℕ) (offered : KindAndText)
        → (moment : ℕ) (drawn : List ℕ) (r : Revealed)
        → (step slots s (command.Attempt user offered) moment drawn).reply ≡ Opened r
        → (fails_of (step slots s (command.Attempt user offered) moment drawn).state user
        ≡ Some 0)
        × (until_of (step slots s (command.Attempt user offered) moment drawn).state user
        ≡ Some 0) }
    ensures armed { (slots : ℕ) (s : States) (moment : ℕ) (drawn : List ℕ) (arming : Armings)
        → (rows : List Revealed) (user : ℕ)
        → s.vault.arming ≡ Some arming → contains arming.users user ≡ true
        → (step slots s command.Resume moment drawn).reply ≡ Resumed rows
        → contains (step slots s command.Resume moment drawn).state.session.opened user ≡ true }
{}
