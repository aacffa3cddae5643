//! That a new place is clear of all that is named and retired, with no code.
ghost use Rattle.std.specs.Prelude.{◌≡◌, ◌≢◌, ◌<◌, ◌^◌, ◌++◌, ◌∷◌, [], IsTrue, ℕ, Bool, true, false, List, length, Option, is_some};
ghost use Rattle.std.specs.List.{Contains};
ghost use Rattle.ls_board.specs.Acts.{Sight};
ghost use Rattle.ls_formats.specs.declared.parts.Parts.{Parts};
ghost use Rattle.ls_protector.specs.Clear.{IsClear};
ghost use Rattle.ls_protector.specs.Parts.{names_for, parts_of};
ghost use Rattle.ls_record.specs.Rows.{IsRecord, is_protector_id};
ghost use Rattle.ls_sealing.specs.Protectors.{Protector, HasNumbers, is_enrolled};
ghost use Rattle.ls_standing.specs.Quiet.{IsUnnamedProtector};
ghost use Rattle.ls_turn.specs.declared.session.Session.{Session};
ghost use Rattle.ls_turn.specs.Agreeing.{retired_files};
ghost use Rattle.ls_turn.specs.Refusing.{has_no_slot};
ghost use Rattle.ls_turn.specs.Serving.{CanServe, KeepOnce, KeepApart};
ghost use Rattle.ls_placing.specs.Placing.{AreTakenIds, HasNewPlace, IsFreeSlot, ids_of, slots_of};

/// Where the commands that need a slot aren't refused, fewer slots are taken than there are.
pub fn there_is_a_free_slot()
    ensures { (b : Sight) (x : Session) → CanServe b x → has_no_slot x ≡ false → x.slots ≢ 0
        → length (slots_of x.named.items) < x.slots }
{}

/// An id and a slot that aren't taken are a new place.
pub fn new_places_are_free()
    ensures { (parts : List Parts) (names : List (List ℕ)) (taken used : List ℕ) (slots id : ℕ)
        (slot : Option ℕ)
        → AreTakenIds names (ids_of parts) taken → ((other : ℕ) → Contains taken other → other ≢ id)
        → ((n : ℕ) → Contains (slots_of parts) n → Contains used n) → IsFreeSlot slots used slot
        → HasNewPlace parts names id slot }
{}

/// The record of a session, and the files that it names, name nothing of a protector in a new place.
pub fn a_new_place_is_clear()
    ensures unnamed { (b : Sight) (x : Session) (names : List (List ℕ)) (p : Protector) (slot : Option ℕ)
        → CanServe b x → IsTrue b.told → IsRecord x.settings.settled.rec → HasNumbers p
        → (is_enrolled (is_some slot) p.purpose ≡ true → is_protector_id p.id ≡ true)
        → HasNewPlace x.named.items names p.id slot
        → IsUnnamedProtector b.world x.settings.settled.rec p slot }
    ensures clear { (b : Sight) (x : Session) (names : List (List ℕ)) (p : Protector) (slot : Option ℕ)
        → CanServe b x → IsTrue b.told → IsRecord x.settings.settled.rec → HasNumbers p
        → (is_enrolled (is_some slot) p.purpose ≡ true → is_protector_id p.id ≡ true)
        → HasNewPlace x.named.items names p.id slot
        → IsClear b.world x.settings.settled.rec (parts_of (is_some slot) p slot) }
    // none of its files is one of these
    ensures files { (parts : List Parts) (names : List (List ℕ)) (p : Protector) (slot : Option ℕ)
        (weaver : Bool) → HasNumbers p → HasNewPlace parts names p.id slot
        → (n : List ℕ) → Contains (names_for weaver p) n → ¬ Contains names n }
{}

/// With it behind the others all of them have different ids, and different slots.
pub fn a_new_place_is_kept()
    ensures once { (parts : List Parts) (names : List (List ℕ)) (q : Parts) → KeepOnce parts
        → HasNewPlace parts names q.id q.slot → KeepOnce (parts ++ q ∷ []) }
    ensures apart { (parts : List Parts) (names : List (List ℕ)) (q : Parts) → KeepApart parts
        → HasNewPlace parts names q.id q.slot → KeepApart (parts ++ q ∷ []) }
{}
