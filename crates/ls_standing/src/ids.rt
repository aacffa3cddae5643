//! What a record doesn't name of ids that are none of its own, with no code.
ghost use Rattle.std.specs.Prelude.{◌≡◌, ◌≢◌, ◌<◌, ℕ, Bool, true, None, Some};
ghost use Rattle.std.specs.List.{Contains};
ghost use Rattle.ls_formats.specs.declared.part.FilePart.{FilePart};
ghost use Rattle.ls_record.specs.declared.row.UserRow.{UserRow};
ghost use Rattle.ls_record.specs.Rows.{Rec, IsRecord, is_odd};
ghost use Rattle.ls_naming.specs.Named.{NamesSlot, NamesKey, NamesEnrolled};
ghost use Rattle.ls_board.specs.declared.world.World.{World as Worlds};
ghost use Rattle.ls_board.specs.Effect.{file_at};
ghost use Rattle.ls_sealing.specs.Protectors.{Protector, HasNumbers, has_weaver, held_number, file_name};
ghost use Rattle.ls_standing.specs.NamedProtectors.{NamesProtector};
ghost use Rattle.ls_standing.specs.Quiet.{IsUnnamed};

/// A record names nothing by an id that none of its protectors has: no key, no file and no
/// Gatekeeper record. A slot that none of them has isn't named; nor is alias 0, where nobody is
/// armed.
pub fn other_ids_are_unnamed()
    ensures key { (r : Rec) (alias : ℕ) → 0 < alias
        → ((q : Protector) → NamesProtector r q → q.id ≢ alias) → ¬ NamesKey r alias }
    ensures unarmed { (r : Rec) → IsRecord r → r.armed ≡ None → ¬ NamesKey r 0 }
    ensures file { (w : Worlds) (r : Rec) (p : Protector) (part : FilePart) → IsRecord r
        → HasNumbers p → ((q : Protector) → NamesProtector r q → q.id ≢ p.id)
        → IsUnnamed w r (file_name p part) }
    ensures slot { (w : Worlds) (r : Rec) (slot : ℕ)
        → ((q : Protector) → NamesProtector r q → held_number w q ≢ Some slot)
        → ¬ NamesSlot (has_weaver w) r (file_at w) slot }
    // and no user has it for a secure id
    ensures counter { (weaver : Bool) (r : Rec) (sid : ℕ)
        → ((q : Protector) → NamesProtector r q → q.id ≢ sid)
        → ((row : UserRow) → Contains r.users row → row.secure ≢ sid)
        → ¬ NamesEnrolled weaver r sid }
    // a secure id is odd, and so it is no id of a credential's protector
    ensures secure { (weaver : Bool) (r : Rec) (sid : ℕ) → IsRecord r → is_odd sid ≡ true
        → ((row : UserRow) → Contains r.users row → row.secure ≢ sid)
        → ¬ NamesEnrolled weaver r sid }
{}
