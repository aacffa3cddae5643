//! What keeps what a record names, and so what a world stands for.
ghost use Rattle.std.specs.Prelude.{◌≡◌};
ghost use Rattle.std.specs.List.{Contains};
ghost use Rattle.ls_board.specs.declared.world.World.{World as Worlds};
ghost use Rattle.ls_board.specs.Images.{Leaves};
ghost use Rattle.ls_board.specs.Reach.{SameBut};
ghost use Rattle.ls_formats.specs.PartNames.{PartOf};
ghost use Rattle.ls_naming.specs.Current.{Settled};
ghost use Rattle.ls_naming.specs.Named.{row_files};
ghost use Rattle.ls_record.specs.declared.row.UserRow.{UserRow};
ghost use Rattle.ls_record.specs.Rows.{Rec};
ghost use Rattle.ls_sealing.specs.Protectors.{has_weaver};
ghost use Rattle.ls_settings.specs.Loaded.{AreUntouched, settings_reach};
ghost use Rattle.ls_vault.specs.declared.vault.Vault.{Vault};
ghost use Rattle.ls_standing.specs.Named.{held_of_row};
ghost use Rattle.ls_standing.specs.Sound.{IsSoundFile};
ghost use Rattle.ls_standing.specs.Opening.{first_foreign};
ghost use Rattle.ls_standing.specs.Standing.{Holds, NamedAreUntouched, StandsDurably};
ghost use Rattle.ls_standing.specs.Quiet.{unnamed};
ghost use Rattle.ls_standing.specs.Same.{SameNamed, SameSettings};

/// Where all that a record names is the same in two worlds, they hold the same of its users, opening
/// finds the same in its files, and they stand for the same.
pub fn what_is_named_is_kept()
    ensures rows { (w mid : Worlds) (r : Rec) (row : UserRow) → SameNamed r w mid
        → Contains r.users row → held_of_row mid r.armed row ≡ held_of_row w r.armed row }
    ensures checks { (w mid : Worlds) (r : Rec) → SameNamed r w mid
        → first_foreign mid r ≡ first_foreign w r }
    ensures sound { (w mid : Worlds) (r : Rec) (row : UserRow) (name : PartOf) → SameNamed r w mid
        → Contains r.users row → Contains (row_files (has_weaver w) r.armed row) name
        → IsSoundFile w row name → IsSoundFile mid row name }
    ensures holds { (w mid : Worlds) (r : Rec) (v : Vault) → SameNamed r w mid
        → Holds w r v → Holds mid r v }
    ensures untouched { (w mid : Worlds) (r : Rec) → SameNamed r w mid
        → NamedAreUntouched w r → NamedAreUntouched mid r }
    ensures stands { (w mid : Worlds) (s : Settled) (v : Vault) → SameNamed s.rec w mid
        → SameSettings w mid → StandsDurably w s v → StandsDurably mid s v }
{}

/// All that a record names is the same in worlds that differ in what it doesn't name, or in the
/// settings files; and in the images of a world in which no named file is touched.
pub fn what_keeps_what_is_named()
    ensures unnamed { (w mid : Worlds) (r : Rec) → SameBut (unnamed w r) w mid → SameNamed r w mid }
    ensures unnamed_settings { (w mid : Worlds) (r : Rec) → SameBut (unnamed w r) w mid
        → SameSettings w mid }
    ensures settings { (w mid : Worlds) (r : Rec) → SameBut settings_reach w mid
        → SameNamed r w mid }
    ensures image { (w image : Worlds) (r : Rec) → NamedAreUntouched w r → Leaves w image
        → SameNamed r w image }
    ensures image_settings { (w image : Worlds) → AreUntouched w → Leaves w image
        → SameSettings w image }
    // it is kept by one change after another
    ensures joined { (u v w : Worlds) (r : Rec) → SameNamed r u v → SameNamed r v w
        → SameNamed r u w }
    ensures joined_settings { (u v w : Worlds) → SameSettings u v → SameSettings v w
        → SameSettings u w }
{}

/// Each image of a world that stands durably for a vault stands for it too, durably, by the same
/// settings.
pub fn durable_worlds_are_left()
    ensures { (w image : Worlds) (s : Settled) (v : Vault) → StandsDurably w s v → Leaves w image
        → StandsDurably image s v }
{}
