//! What a world with nothing in it stands for, with no code.
ghost use Rattle.std.specs.Prelude.{◌≡◌, ℕ, [], None};
ghost use Rattle.ls_board.specs.Worlds.{blank_world};
ghost use Rattle.ls_naming.specs.Current.{unsettled};
ghost use Rattle.ls_record.specs.Rows.{rec};
ghost use Rattle.ls_vault.specs.declared.vault.Vault.{Vault as Vaults};
ghost use Rattle.ls_standing.specs.Standing.{StandsDurably, StandsFor};
ghost use Rattle.ls_standing.specs.Bare.{IsBare};

/// A blank world stands for the empty vault and for no other, and keeps nothing.
pub fn a_blank_world_stands_for_the_empty_vault()
    ensures stands { (slots : ℕ) → StandsDurably (blank_world slots) unsettled
        (record { users = []; arming = None }) }
    ensures only { (slots : ℕ) (v : Vaults) → StandsFor (blank_world slots) v
        → v ≡ record { users = []; arming = None } }
    ensures bare { (slots : ℕ) → IsBare (blank_world slots) (blank_world slots) (rec [] None) [] }
{}
