//! What a world stands for is in its files and its devices, with no code.
ghost use Rattle.std.specs.Prelude.{ℕ, List};
ghost use Rattle.ls_board.specs.declared.world.World.{World as Worlds};
ghost use Rattle.ls_naming.specs.Current.{Settled};
ghost use Rattle.ls_record.specs.Rows.{Rec};
ghost use Rattle.ls_settings.specs.Loaded.{Loaded, IsReady};
ghost use Rattle.ls_vault.specs.declared.vault.Vault.{Vault};
ghost use Rattle.ls_standing.specs.Bare.{IsBare};
ghost use Rattle.ls_standing.specs.Same.{SameStorage};
ghost use Rattle.ls_standing.specs.Standing.{Holds, StandsBy, StandsDurably};

/// Worlds with the same files and the same devices stand for the same, and keep as little beside
/// their record; and a commit may begin in both. What is left to be heard, what was said, the clock
/// and the noise don't matter.
pub fn a_vault_stands_in_storage()
    ensures holds { (w mid : Worlds) (r : Rec) (v : Vault) → SameStorage w mid
        → Holds w r v → Holds mid r v }
    ensures stands { (w mid : Worlds) (s : Settled) (v : Vault) → SameStorage w mid
        → StandsBy w s v → StandsBy mid s v }
    ensures durably { (w mid : Worlds) (s : Settled) (v : Vault) → SameStorage w mid
        → StandsDurably w s v → StandsDurably mid s v }
    ensures ready { (w mid : Worlds) (l : Loaded) → SameStorage w mid
        → IsReady w l → IsReady mid l }
    // beside the files of a world, whatever is its storage
    ensures bare { (start w mid : Worlds) (r : Rec) (retired : List (List ℕ)) → SameStorage w mid
        → IsBare start w r retired → IsBare start mid r retired }
{}
