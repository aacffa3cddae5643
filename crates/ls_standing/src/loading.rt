//! That loading the settings keeps what a world stands for, with no code.
ghost use Rattle.std.specs.Prelude.{◌≡◌, ℕ, Bool, List, []};
ghost use Rattle.ls_board.specs.declared.action.Action.TheVariants.{Sync};
ghost use Rattle.ls_board.specs.declared.world.World.{World as Worlds};
ghost use Rattle.ls_board.specs.Effect.{after};
ghost use Rattle.ls_board.specs.Reach.{SameBut};
ghost use Rattle.ls_board.specs.Runs.{after_all, PlanImage};
ghost use Rattle.ls_naming.specs.Current.{Settled};
ghost use Rattle.ls_record.specs.Rows.{IsRecord};
ghost use Rattle.ls_settings.specs.Loaded.{Loaded, IsReady, AreUntouched, settings_reach};
ghost use Rattle.ls_settings.specs.Loading.{AreLoaded, IsLoadImage};
ghost use Rattle.ls_vault.specs.declared.vault.Vault.{Vault};
ghost use Rattle.ls_standing.specs.Bare.{IsBare};
ghost use Rattle.ls_standing.specs.Clearing.{sweeping, AreLeftovers};
ghost use Rattle.ls_standing.specs.Same.{SameSettings};
ghost use Rattle.ls_standing.specs.Standing.{StandsDurably};

/// Where a world stands durably for a vault, so does each image that a crash within the loading of
/// its settings leaves. The settings that are loaded are those by which it stands; the world that
/// is loaded stands for the vault by them, and a commit may begin in it.
pub fn loading_keeps_the_vault()
    ensures cut { (w image : Worlds) (s : Settled) (v : Vault) → StandsDurably w s v
        → IsLoadImage w image → StandsDurably image s v }
    ensures settings { (w mid : Worlds) (s : Settled) (v : Vault) (l : Loaded)
        → StandsDurably w s v → AreLoaded w l mid → l.settled ≡ s }
    ensures done { (w mid : Worlds) (s : Settled) (v : Vault) (l : Loaded)
        → StandsDurably w s v → AreLoaded w l mid → SameBut settings_reach w mid
        → StandsDurably mid s v }
    ensures ready { (w mid : Worlds) (l : Loaded) → AreUntouched w → AreLoaded w l mid
        → IsReady mid l }
    // while the settings files stay, a commit may begin
    ensures kept { (w mid : Worlds) (l : Loaded) → SameSettings w mid → IsReady w l → IsReady mid l }
{}

/// An opening syncs, loads the settings, and sweeps away all that the record doesn't name. It keeps
/// what the world stands for; a commit may begin then; and the world keeps nothing beside its record.
pub fn an_opening_keeps_the_vault()
    ensures stands { (start mid : Worlds) (s : Settled) (v : Vault) (l : Loaded)
        (names : List (List ℕ)) (slots sids aliases : List ℕ) (cell : Bool)
        → StandsDurably start s v → IsRecord s.rec
        → AreLoaded (after start Sync 0) l mid → SameBut settings_reach (after start Sync 0) mid
        → AreLeftovers mid s.rec names slots sids aliases cell
        → StandsDurably (after_all mid (sweeping names slots sids aliases cell)) s v }
    // a crash within the sweep leaves it too
    ensures cut { (mid image : Worlds) (s : Settled) (v : Vault)
        (names : List (List ℕ)) (slots sids aliases : List ℕ) (cell : Bool)
        → StandsDurably mid s v → IsRecord s.rec
        → AreLeftovers mid s.rec names slots sids aliases cell
        → PlanImage mid (sweeping names slots sids aliases cell) image → StandsDurably image s v }
    // in every world, whatever it stands for
    ensures ready { (start mid : Worlds) (l : Loaded)
        (names : List (List ℕ)) (slots sids aliases : List ℕ) (cell : Bool)
        → IsRecord l.settled.rec → AreLoaded (after start Sync 0) l mid
        → AreLeftovers mid l.settled.rec names slots sids aliases cell
        → IsReady (after_all mid (sweeping names slots sids aliases cell)) l }
    ensures bare { (start mid : Worlds) (l : Loaded)
        (names : List (List ℕ)) (slots sids aliases : List ℕ) (cell : Bool)
        → IsRecord l.settled.rec → SameBut settings_reach (after start Sync 0) mid
        → AreLeftovers mid l.settled.rec names slots sids aliases cell
        → IsBare start (after_all mid (sweeping names slots sids aliases cell)) l.settled.rec [] }
{}
