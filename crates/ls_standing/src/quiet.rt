//! Actions that are quiet, and that they keep what a world stands for.
ghost use Rattle.std.specs.Prelude.{◌≡◌, ◌++◌, ℕ, List, take, slice_get, Option, Some};
ghost use Rattle.ls_board.specs.declared.action.Action.{Action as Actions};
ghost use Rattle.ls_board.specs.declared.world.World.{World as Worlds};
ghost use Rattle.ls_board.specs.Effect.{after};
ghost use Rattle.ls_board.specs.Images.{Within, LeavesWithin, LeavesWithinCall, changing};
ghost use Rattle.ls_board.specs.Reach.{TouchesOnly, AllTouchOnly};
ghost use Rattle.ls_board.specs.Runs.{after_all, PlanImage};
ghost use Rattle.ls_naming.specs.Current.{Settled};
ghost use Rattle.ls_naming.specs.Named.{NamesFile};
ghost use Rattle.ls_formats.specs.PartNames.{PartOf, IsPartOf, part_name_text};
ghost use Rattle.ls_record.specs.Rows.{Rec, IsRecord};
ghost use Rattle.ls_sealing.specs.Protectors.{Protector, has_weaver};
ghost use Rattle.ls_sealing.specs.Building.{Writing, writing_actions, erasing_actions, retiring_actions};
ghost use Rattle.ls_vault.specs.declared.vault.Vault.{Vault};
ghost use Rattle.ls_standing.specs.Standing.{StandsDurably};
ghost use Rattle.ls_standing.specs.Quiet.{IsUnnamed, unnamed, IsQuiet, AllQuiet};
ghost use Rattle.ls_standing.specs.Quiet.{IsUnnamedProtector};
ghost use Rattle.ls_standing.specs.Same.{SameNamed, SameSettings};

/// A quiet action keeps what the world stands for: done, failed with a part of its effect, or cut
/// by a crash.
pub fn quiet_actions_keep_the_vault()
    ensures within { (w mid : Worlds) (s : Settled) (v : Vault) (a : Actions)
        → StandsDurably w s v → IsQuiet w s.rec a → Within w a mid → StandsDurably mid s v }
    // whatever number of bytes a hearing took
    ensures done { (w : Worlds) (s : Settled) (v : Vault) (a : Actions) (count : ℕ)
        → StandsDurably w s v → IsQuiet w s.rec a → StandsDurably (after w a count) s v }
    ensures cut { (w image : Worlds) (s : Settled) (v : Vault) (a : Actions)
        → StandsDurably w s v → IsQuiet w s.rec a → LeavesWithin w a image
        → StandsDurably image s v }
    ensures cut_call { (w image : Worlds) (s : Settled) (v : Vault) (a : Actions)
        → StandsDurably w s v → IsQuiet w s.rec a → LeavesWithinCall w (changing a) image
        → StandsDurably image s v }
    // it keeps all that the record names, and the settings
    ensures named { (w mid : Worlds) (r : Rec) (a : Actions) → IsQuiet w r a → Within w a mid
        → SameNamed r w mid }
    ensures settings { (w mid : Worlds) (r : Rec) (a : Actions) → IsQuiet w r a → Within w a mid
        → SameSettings w mid }
{}

/// So do quiet actions in a row: done, failed at one of them, or cut by a crash at any moment.
pub fn quiet_plans_keep_the_vault()
    ensures done { (w : Worlds) (s : Settled) (v : Vault) (plan : List Actions)
        → StandsDurably w s v → AllQuiet w s.rec plan → StandsDurably (after_all w plan) s v }
    // at the action of this place, behind those before it
    ensures failed { (w mid : Worlds) (s : Settled) (v : Vault) (plan : List Actions) (n : ℕ)
        (a : Actions) → StandsDurably w s v → AllQuiet w s.rec plan → slice_get plan n ≡ Some a
        → Within (after_all w (take n plan)) a mid → StandsDurably mid s v }
    ensures cut { (w image : Worlds) (s : Settled) (v : Vault) (plan : List Actions)
        → StandsDurably w s v → AllQuiet w s.rec plan → PlanImage w plan image
        → StandsDurably image s v }
    // they keep all that the record names, and the settings
    ensures named { (w : Worlds) (r : Rec) (plan : List Actions) → AllQuiet w r plan
        → SameNamed r w (after_all w plan) }
    ensures settings { (w : Worlds) (r : Rec) (plan : List Actions) → AllQuiet w r plan
        → SameSettings w (after_all w plan) }
    // plans that are quiet one after the other are a quiet plan
    ensures joined { (w : Worlds) (r : Rec) (first second : List Actions) → AllQuiet w r first
        → AllQuiet (after_all w first) r second → AllQuiet w r (first ++ second) }
{}

/// Actions that touch nothing but what the record doesn't name are quiet, one after another. Such
/// are those that write, erase or retire a protector that it doesn't name.
pub fn what_touches_nothing_named_is_quiet()
    ensures one { (w : Worlds) (r : Rec) (a : Actions) → TouchesOnly (unnamed w r) a
        → IsQuiet w r a }
    ensures all { (w : Worlds) (r : Rec) (plan : List Actions) → AllTouchOnly (unnamed w r) plan
        → AllQuiet w r plan }
    // what isn't named stays so while all that is named stays
    ensures later { (w mid : Worlds) (r : Rec) (plan : List Actions) → SameNamed r w mid
        → AllTouchOnly (unnamed w r) plan → AllTouchOnly (unnamed mid r) plan }
    // a file is reached where it isn't named; and so are the parts of a protector
    ensures file { (w : Worlds) (r : Rec) (name : PartOf) → IsRecord r → IsPartOf name
        → ¬ NamesFile (has_weaver w) r name → IsUnnamed w r (part_name_text name) }
    ensures writing { (w : Worlds) (r : Rec) (p : Protector) (slot : Option ℕ) (m : Writing)
        → IsRecord r → IsUnnamedProtector w r p slot
        → AllTouchOnly (unnamed w r) (writing_actions p slot m) }
    ensures erasing { (w : Worlds) (r : Rec) (p : Protector) (slot : Option ℕ)
        → IsRecord r → IsUnnamedProtector w r p slot
        → AllTouchOnly (unnamed w r) (erasing_actions p slot) }
    ensures retiring { (w : Worlds) (r : Rec) (p : Protector) (slot : Option ℕ)
        → IsRecord r → IsUnnamedProtector w r p slot
        → AllTouchOnly (unnamed w r) (retiring_actions p slot) }
{}
