//! What keeps a world bare, and what makes it so, with no code.
ghost use Rattle.std.specs.Prelude.{◌≡◌, ℕ, Bool, List, [], ◌∷◌};
ghost use Rattle.ls_board.specs.declared.action.Action.{Action as Actions};
ghost use Rattle.ls_board.specs.declared.action.Action.TheVariants.{Remove};
ghost use Rattle.ls_board.specs.declared.world.World.{World as Worlds};
ghost use Rattle.ls_board.specs.Effect.{file_at, after};
ghost use Rattle.ls_board.specs.Reach.{AllTouchOnly, SameBut};
ghost use Rattle.ls_board.specs.Runs.{after_all};
ghost use Rattle.ls_formats.specs.PartNames.{PartOf, IsPartOf, part_name_text};
ghost use Rattle.ls_naming.specs.Named.{NamesFile};
ghost use Rattle.ls_record.specs.Rows.{Rec, IsRecord};
ghost use Rattle.ls_sealing.specs.Protectors.{Protector, has_weaver};
ghost use Rattle.ls_settings.specs.Loaded.{settings_reach};
ghost use Rattle.ls_standing.specs.Bare.{IsStrange, IsBare, named_by};
ghost use Rattle.ls_standing.specs.Clearing.{Clears, AddsNothing, AllAddNothing, Retires, LetsGo, sweeping, AreLeftovers, AreListedLeftovers};
ghost use Rattle.ls_standing.specs.Quiet.{unnamed};

/// A bare world stays so by writing settings files, and by an action that takes away what isn't
/// named, meets devices in what is named there, or changes nothing that is stored.
pub fn what_keeps_a_world_bare()
    ensures settings { (start w mid : Worlds) (r : Rec) (retired : List (List ℕ)) → IsRecord r
        → IsBare start w r retired → SameBut settings_reach w mid → IsBare start mid r retired }
    // whatever number of bytes a hearing took
    ensures done { (start w : Worlds) (r : Rec) (retired : List (List ℕ)) (a : Actions) (count : ℕ)
        → IsRecord r → IsBare start w r retired → AddsNothing w r a
        → IsBare start (after w a count) r retired }
    // so do such actions in a row
    ensures plan { (start w : Worlds) (r : Rec) (retired : List (List ℕ)) (plan : List Actions)
        → IsRecord r → IsBare start w r retired → AllAddNothing w r plan
        → IsBare start (after_all w plan) r retired }
{}

/// A world is bare once all is taken away that its record doesn't name, and that isn't retired.
pub fn a_sweep_leaves_a_world_bare()
    ensures swept { (start w : Worlds) (r : Rec) (retired : List (List ℕ)) (plan : List Actions)
        → IsRecord r → ((n : List ℕ) → IsStrange n → file_at w n ≡ file_at start n)
        → AllTouchOnly (unnamed w r) plan → Clears w plan (named_by w r retired)
        → IsBare start (after_all w plan) r retired }
    // one retired file less
    ensures tidied { (start w : Worlds) (r : Rec) (name : PartOf) (retired : List (List ℕ))
        → IsRecord r → IsPartOf name → ¬ NamesFile (has_weaver w) r name
        → IsBare start w r (part_name_text name ∷ retired)
        → IsBare start (after w (Remove (part_name_text name)) 0) r retired }
{}

/// A sweep of all that a record doesn't name touches nothing else, and leaves the world bare.
pub fn a_sweep_takes_what_is_left_over()
    ensures only { (w : Worlds) (r : Rec) (names : List (List ℕ)) (slots sids aliases : List ℕ)
        (cell : Bool) → IsRecord r → AreLeftovers w r names slots sids aliases cell
        → AllTouchOnly (unnamed w r) (sweeping names slots sids aliases cell) }
    ensures bare { (start w : Worlds) (r : Rec) (names : List (List ℕ))
        (slots sids aliases : List ℕ) (cell : Bool) → IsRecord r
        → ((n : List ℕ) → IsStrange n → file_at w n ≡ file_at start n)
        → AreLeftovers w r names slots sids aliases cell
        → IsBare start (after_all w (sweeping names slots sids aliases cell)) r [] }
{}

/// What is listed and isn't named is what is left over.
pub fn what_is_listed_is_left_over()
    ensures { (w : Worlds) (r : Rec) (names : List (List ℕ)) (slots sids aliases : List ℕ)
        (cell : Bool) → AreListedLeftovers w r names slots sids aliases cell
        → AreLeftovers w r names slots sids aliases cell }
{}

/// A change of the record leaves a world bare. Before the commit it reaches only what the next
/// record names; after it, what only the old one named is taken away, or its files are retired.
pub fn a_change_leaves_a_world_bare()
    ensures { (start w mid then : Worlds) (r next : Rec) (old new : List (List ℕ))
        (plan : List Actions) → IsRecord next → IsBare start w r old
        → SameBut (named_by mid next []) w mid → SameBut settings_reach mid then
        → AllTouchOnly (unnamed then next) plan → Retires w r old then next new plan
        → IsBare start (after_all then plan) next new }
{}

/// What is named by a record and no longer by the next one is retired where the protectors that are
/// let go are taken away, with their files, and so is all else that only the old record names.
pub fn what_is_let_go_is_retired()
    ensures { (w mid : Worlds) (r next : Rec) (old new : List (List ℕ)) (gone : List Protector)
        (plan : List Actions) → has_weaver mid ≡ has_weaver w
        → LetsGo w r old mid next new gone plan → Retires w r old mid next new plan }
{}
