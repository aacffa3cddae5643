//! What the lists of what is named and of what is left over say of a world, with no code.
ghost use Rattle.std.specs.Prelude.{ℕ, List};
ghost use Rattle.ls_board.specs.declared.world.World.{World as Worlds};
ghost use Rattle.ls_record.specs.Rows.{Rec};
ghost use Rattle.ls_standing.specs.Clearing.{AreListedLeftovers};
ghost use Rattle.ls_sweep.specs.declared.leftovers.Leftovers.{Leftovers};
ghost use Rattle.ls_sweep.specs.NamedSlots.{slots_named, AreNamedSlots};
ghost use Rattle.ls_sweep.specs.Swept.{AreLeftOver};

/// The slots that are read of the files which a record names are those that it names.
pub fn the_slots_of_files_are_named()
    ensures { (w : Worlds) (r : Rec) → AreNamedSlots w r (slots_named w r) }
{}

/// Where the used slots are those that the record names, what is left over is all that a world
/// lists and the record doesn't name.
pub fn what_is_left_over_is_unnamed()
    ensures { (w : Worlds) (r : Rec) (used : List ℕ) (left : Leftovers) → AreNamedSlots w r used
        → AreLeftOver w r used left → AreListedLeftovers w r left.files left.slots left.enrolled
        left.keys left.cell }
{}
