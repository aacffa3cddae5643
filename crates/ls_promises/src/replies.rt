//! How many users a reply tells of.
ghost use Rattle.std.specs.Prelude.{◌≤◌, ℕ, List};
ghost use Rattle.ls_promises.specs.Soundness.{IsSound, IsOrdered};
ghost use Rattle.ls_script.specs.ReplyText.{user_count};
ghost use Rattle.ls_script.specs.declared.command.Command.{Command as Commands};
ghost use Rattle.ls_vault.specs.Step.{step};
ghost use Rattle.ls_vault.specs.declared.state.State.{State as States};

/// A reply tells of at most 16 users, where the state keeps the limits and armed users ascend.
pub fn replies_are_small()
    ensures few { (slots : ℕ) (s : States) (c : Commands) (moment : ℕ) (drawn : List ℕ)
        → IsSound slots s → IsOrdered s
        → user_count (step slots s c moment drawn).reply ≤ 16 }
{}
