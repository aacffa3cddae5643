//! What the session rests on, with no code.
ghost use Rattle.std.specs.Prelude.{◌≡◌, [], None, Ok, length, map};
ghost use Rattle.ls_board.specs.declared.world.World.{World as Worlds};
ghost use Rattle.ls_record.specs.Rows.{Rec};
ghost use Rattle.ls_standing.specs.NamedProtectors.{named_protectors};
ghost use Rattle.ls_standing.specs.Opening.{first_foreign};
ghost use Rattle.ls_turn.specs.Agreeing.{parts_in};
ghost use Rattle.ls_session.specs.Keeping.{kept_behind};

/// Where no file that a record names is at fault, each protector that it names is found, with the
/// slot that the world has of it.
pub fn named_protectors_are_found()
    ensures { (w : Worlds) (r : Rec) → first_foreign w r ≡ None
        → kept_behind (length w.slots) (named_protectors r) (Ok []) w
        ≡ Ok (map (parts_in w) (named_protectors r)) }
{}
