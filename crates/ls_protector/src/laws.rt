//! What is known of a protector's parts, whatever becomes of other protectors, with no code.
ghost use Rattle.std.specs.Prelude.{◌≡◌, ◌≤◌, ℕ, List, length, Option, is_some};
ghost use Rattle.ls_board.specs.declared.action.Action.{Action as Actions};
ghost use Rattle.ls_board.specs.declared.world.World.{World as Worlds};
ghost use Rattle.ls_board.specs.Images.{Within};
ghost use Rattle.ls_board.specs.Reach.{TouchesOnly, AllTouchOnly, SameBut};
ghost use Rattle.ls_board.specs.Runs.{after_all, PlanImage};
ghost use Rattle.ls_record.specs.Rows.{Rec, IsRecord};
ghost use Rattle.ls_standing.specs.Quiet.{IsUnnamedProtector, unnamed};
ghost use Rattle.ls_sealing.specs.Building.{Writing, writing_actions, erasing_actions};
ghost use Rattle.ls_sealing.specs.Protectors.{Protector};
ghost use Rattle.ls_formats.specs.declared.parts.Parts.{Parts as PartsOf};
ghost use Rattle.ls_protector.specs.Clear.{IsClear};
ghost use Rattle.ls_protector.specs.Parts.{parts_of, reach_of_parts, reach_beside_parts, erasing_of};
ghost use Rattle.ls_protector.specs.Settled.{IsSettled, SamePartsOf, IsErased, AreApart};

/// What writes a protector touches its parts alone, and they are erased as it is.
pub fn parts_are_those_of_a_protector()
    ensures writing { (p : Protector) (slot : Option ℕ) (m : Writing)
        → AllTouchOnly (reach_of_parts (parts_of (is_some slot) p slot)) (writing_actions p slot m) }
    ensures erasing { (p : Protector) (slot : Option ℕ)
        → erasing_of (parts_of (is_some slot) p slot) ≡ erasing_actions p slot }
    ensures erased { (p : PartsOf) → AllTouchOnly (reach_of_parts p) (erasing_of p) }
    ensures few { (p : PartsOf) → length (erasing_of p) ≤ 3 }
{}

/// A record that names nothing of a protector names nothing of its parts, and what touches those
/// alone touches nothing that it names.
pub fn unnamed_protectors_are_clear()
    ensures clear { (w : Worlds) (r : Rec) (p : Protector) (slot : Option ℕ) → IsRecord r
        → IsUnnamedProtector w r p slot → IsClear w r (parts_of (is_some slot) p slot) }
    ensures touches { (w : Worlds) (r : Rec) (p : PartsOf) (plan : List Actions) → IsClear w r p
        → AllTouchOnly (reach_of_parts p) plan → AllTouchOnly (unnamed w r) plan }
{}

/// While no action touches its parts, a protector stays as it is: its files, its slot, its key and
/// its Gatekeeper's record. Once it is settled it stays settled, and every image has it as it
/// stands.
pub fn what_is_settled_stays()
    // behind a plan
    ensures done { (w : Worlds) (p : PartsOf) (plan : List Actions)
        → AllTouchOnly (reach_beside_parts p) plan → SamePartsOf p w (after_all w plan) }
    ensures settled { (w : Worlds) (p : PartsOf) (plan : List Actions)
        → AllTouchOnly (reach_beside_parts p) plan → IsSettled w p
        → IsSettled (after_all w plan) p }
    // in each image of a plan, which a crash at any moment or within any action leaves
    ensures images { (w image : Worlds) (p : PartsOf) (plan : List Actions)
        → AllTouchOnly (reach_beside_parts p) plan → IsSettled w p → PlanImage w plan image
        → SamePartsOf p w image × IsSettled image p }
    // behind an action that failed
    ensures failed { (w mid : Worlds) (p : PartsOf) (a : Actions)
        → TouchesOnly (reach_beside_parts p) a → Within w a mid
        → SamePartsOf p w mid × (IsSettled w p → IsSettled mid p) }
    // behind whatever changes nothing of it
    ensures but { (w mid : Worlds) (p : PartsOf) → SameBut (reach_beside_parts p) w mid
        → SamePartsOf p w mid × (IsSettled w p → IsSettled mid p) }
{}

/// The parts of two protectors that have nothing in common are beside each other: a plan that
/// touches those of the one alone, and a call that leaves all but them, leaves the other.
pub fn protectors_stand_beside_each_other()
    ensures plan { (p q : PartsOf) (plan : List Actions) → AreApart p q
        → AllTouchOnly (reach_of_parts q) plan → AllTouchOnly (reach_beside_parts p) plan }
    ensures but { (w mid : Worlds) (p q : PartsOf) → AreApart p q
        → SameBut (reach_of_parts q) w mid → SameBut (reach_beside_parts p) w mid }
{}

/// What was erased stays so while no action touches its parts, also in every image.
pub fn what_is_erased_stays()
    ensures done { (w : Worlds) (p : PartsOf) (plan : List Actions)
        → AllTouchOnly (reach_beside_parts p) plan → IsErased w p → IsErased (after_all w plan) p }
    ensures images { (w image : Worlds) (p : PartsOf) (plan : List Actions)
        → AllTouchOnly (reach_beside_parts p) plan → IsErased w p → PlanImage w plan image
        → IsErased image p }
{}
