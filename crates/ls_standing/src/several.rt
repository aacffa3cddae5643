//! Several protectors that are written one after the other, with no code.
ghost use Rattle.std.specs.Prelude.{◌≡◌, ◌++◌, ◌∷◌, [], ℕ, List, None};
ghost use Rattle.std.specs.List.{Contains};
ghost use Rattle.ls_board.specs.declared.action.Action.{Action as Actions};
ghost use Rattle.ls_board.specs.declared.action.Action.TheVariants.{Sync};
ghost use Rattle.ls_board.specs.declared.world.World.{World as Worlds};
ghost use Rattle.ls_board.specs.Effect.{touch_at};
ghost use Rattle.ls_board.specs.Reach.{AllTouchOnly};
ghost use Rattle.ls_board.specs.Runs.{after_all};
ghost use Rattle.ls_record.specs.Rows.{Rec, IsRecord};
ghost use Rattle.ls_sealing.specs.Protectors.{Protector, held};
ghost use Rattle.ls_sealing.specs.Sparing.{IsUntouched, Spares, reach_of};
ghost use Rattle.ls_settings.specs.Loaded.{AreUntouched};
ghost use Rattle.ls_standing.specs.Quiet.{unnamed, IsUnnamedProtector};
ghost use Rattle.ls_standing.specs.Several.{Written, writing_all, reach_of_all};
ghost use Rattle.ls_standing.specs.Standing.{NamedAreUntouched};

/// The writing of several protectors, one after the other, touches their parts alone. A protector
/// whose parts each of them spares stays as it was. Where a record names none of them, all of it
/// reaches nothing that the record names.
pub fn protectors_are_written_one_after_the_other()
    ensures touches { (all : List Written) → AllTouchOnly (reach_of_all all) (writing_all all) }
    ensures spared { (w : Worlds) (q : Protector) (all : List Written)
        → ((x : Written) → Contains all x → Spares (reach_of x.of x.slot) w q)
        → held (after_all w (writing_all all)) q ≡ held w q }
    ensures untouched { (w : Worlds) (q : Protector) (all : List Written)
        → ((x : Written) → Contains all x → Spares (reach_of x.of x.slot) w q)
        → IsUntouched w q → IsUntouched (after_all w (writing_all all)) q }
    ensures unnamed { (w : Worlds) (r : Rec) (all : List Written) → IsRecord r
        → ((x : Written) → Contains all x → IsUnnamedProtector w r x.of x.slot)
        → AllTouchOnly (unnamed w r) (writing_all all) }
{}

/// Behind a sync no file is touched: neither a settings file, nor one that any record names, nor one
/// of any protector.
pub fn what_is_synced_is_untouched()
    ensures file { (w : Worlds) (plan : List Actions) (n : List ℕ)
        → touch_at (after_all w (plan ++ Sync ∷ [])) n ≡ None }
    ensures settings { (w : Worlds) (plan : List Actions)
        → AreUntouched (after_all w (plan ++ Sync ∷ [])) }
    ensures named { (w : Worlds) (plan : List Actions) (r : Rec)
        → NamedAreUntouched (after_all w (plan ++ Sync ∷ [])) r }
    ensures protector { (w : Worlds) (plan : List Actions) (p : Protector)
        → IsUntouched (after_all w (plan ++ Sync ∷ [])) p }
{}
