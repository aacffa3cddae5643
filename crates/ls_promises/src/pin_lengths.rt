//! When the length of a PIN is shown.
ghost use Rattle.std.specs.Prelude.{◌≡◌, ◌↔◌, ◌<◌, ◌≤◌, ℕ, List};
ghost use Rattle.ls_promises.specs.PinLengths.{ShowsLength};
ghost use Rattle.ls_script.specs.declared.command.Command.TheVariants as command;
ghost use Rattle.ls_script.specs.declared.reply.Reply.TheVariants.{PinLength};
ghost use Rattle.ls_vault.specs.Step.{step};
ghost use Rattle.ls_vault.specs.declared.state.State.{State as States};

/// A length is shown exactly where the user's credential is a PIN of 6 digits or more and the user
/// allows it. So one below 6 never is. 0 in a reply is no length.
pub fn pin_lengths_are_guarded()
    ensures shown { (slots : ℕ) (s : States) (user moment : ℕ) (drawn : List ℕ) (digits : ℕ)
        → 0 < digits
        → ((step slots s (command.PinLength user) moment drawn).reply ≡ PinLength digits)
        ↔ ShowsLength s user digits }
    ensures long { (slots : ℕ) (s : States) (user moment : ℕ) (drawn : List ℕ) (digits : ℕ)
        → 0 < digits
        → (step slots s (command.PinLength user) moment drawn).reply ≡ PinLength digits
        → 6 ≤ digits }
    ensures same { (slots : ℕ) (s : States) (user moment : ℕ) (drawn : List ℕ)
        → (step slots s (command.PinLength user) moment drawn).state ≡ s }
{}
