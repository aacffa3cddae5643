//! A refused command changes nothing.
ghost use Rattle.std.specs.Prelude.{◌≡◌, ℕ, false, List};
ghost use Rattle.ls_script.specs.declared.command.Command.{Command as Commands};
ghost use Rattle.ls_script.specs.declared.reply.Refusal.{Refusal};
ghost use Rattle.ls_script.specs.declared.reply.Reply.TheVariants.{No};
ghost use Rattle.ls_promises.specs.Answers.{tells_of_a_change};
ghost use Rattle.ls_vault.specs.Step.{step};
ghost use Rattle.ls_vault.specs.declared.state.State.{State as States};

/// Where a command is refused, the state is as it was, but for a wrong text, which is counted, and
/// an arming that isn't good any more, which is taken away.
pub fn refusals_change_nothing()
    ensures kept { (slots : ℕ) (s : States) (c : Commands) (moment : ℕ) (drawn : List ℕ)
        → (why : Refusal) → (step slots s c moment drawn).reply ≡ No why
        → tells_of_a_change why ≡ false
        → (step slots s c moment drawn).state ≡ s }
{}
