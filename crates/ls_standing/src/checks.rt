//! What it takes that opening finds no file at fault, with no code.
ghost use Rattle.std.specs.Prelude.{◌≡◌, None};
ghost use Rattle.std.specs.List.{Contains};
ghost use Rattle.ls_formats.specs.PartNames.{PartOf};
ghost use Rattle.ls_record.specs.declared.row.UserRow.{UserRow};
ghost use Rattle.ls_record.specs.Rows.{Rec, IsRecord};
ghost use Rattle.ls_naming.specs.Named.{row_files};
ghost use Rattle.ls_board.specs.declared.world.World.{World as Worlds};
ghost use Rattle.ls_sealing.specs.Protectors.{has_weaver};
ghost use Rattle.ls_standing.specs.Opening.{first_foreign};
ghost use Rattle.ls_standing.specs.Sound.{IsSoundFile, SlotsAreNamedOnce};

/// None of the files that a record names is at fault exactly where each passes its own checks and
/// no two of them name one slot.
pub fn sound_files_pass_the_checks()
    ensures alone { (w : Worlds) (r : Rec) → first_foreign w r ≡ None
        → (row : UserRow) (name : PartOf) → Contains r.users row
        → Contains (row_files (has_weaver w) r.armed row) name → IsSoundFile w row name }
    ensures once { (w : Worlds) (r : Rec) → first_foreign w r ≡ None → SlotsAreNamedOnce w r }
    ensures together { (w : Worlds) (r : Rec) → IsRecord r
        → ((row : UserRow) (name : PartOf) → Contains r.users row
        → Contains (row_files (has_weaver w) r.armed row) name → IsSoundFile w row name)
        → SlotsAreNamedOnce w r → first_foreign w r ≡ None }
{}
