//! Which slots are named in a world that stands for a vault, and by what, with no code.
ghost use Rattle.std.specs.Prelude.{◌≡◌, ◌≢◌, ◌<◌, ◌⊎◌, ℕ, true, length, Option, Some, is_some};
ghost use Rattle.ls_record.specs.Rows.{Rec, IsRecord, is_protector_id};
ghost use Rattle.ls_naming.specs.Named.{NamesSlot};
ghost use Rattle.ls_board.specs.declared.world.World.{World as Worlds};
ghost use Rattle.ls_board.specs.Effect.{file_at};
ghost use Rattle.ls_vault.specs.declared.vault.Vault.{Vault as Vaults};
ghost use Rattle.ls_sealing.specs.Protectors.{Protector, HasNumbers, has_weaver, held_number};
ghost use Rattle.ls_sealing.specs.Protectors.{is_enrolled};
ghost use Rattle.ls_sealing.specs.Sparing.{Spares, reach_of};
ghost use Rattle.ls_standing.specs.NamedProtectors.{NamesProtector, IsElsewhere};
ghost use Rattle.ls_standing.specs.Quiet.{IsUnnamedProtector};
ghost use Rattle.ls_standing.specs.Sound.{SlotsAreNamedOnce};
ghost use Rattle.ls_standing.specs.Standing.{Holds};

/// No two protectors of a record have one id.
pub fn protectors_have_their_own_ids()
    ensures { (r : Rec) → IsRecord r → (p q : Protector) → NamesProtector r p → NamesProtector r q
        → p.id ≡ q.id → p ≡ q }
{}

/// A slot is named by the `weaver` file of a protector that the record names, and by nothing else.
pub fn named_slots_are_those_of_protectors()
    ensures owned { (w : Worlds) (r : Rec) (slot : ℕ) → NamesSlot (has_weaver w) r (file_at w) slot
        → (p : Protector) × NamesProtector r p × (held_number w p ≡ Some slot) }
    ensures named { (w : Worlds) (r : Rec) (p : Protector) (slot : ℕ) → NamesProtector r p
        → held_number w p ≡ Some slot → NamesSlot (has_weaver w) r (file_at w) slot }
{}

/// A record names nothing of a protector where each that it names has another id and another slot.
pub fn other_protectors_are_unnamed()
    ensures { (w : Worlds) (r : Rec) → IsRecord r → (p : Protector) (slot : Option ℕ)
        → HasNumbers p
        → (is_enrolled (is_some slot) p.purpose ≡ true → is_protector_id p.id ≡ true)
        → ((q : Protector) → NamesProtector r q → IsElsewhere w p.id slot q)
        → IsUnnamedProtector w r p slot }
{}

/// Where a world stands for a vault, each named slot is one of the board's, and one file alone
/// names it. So what is a named protector's is no part of the others. Another record names nothing
/// of it that names in its place only the others, and new ones with other ids and slots.
pub fn standing_protectors_share_no_slot()
    ensures once { (w : Worlds) (r : Rec) (v : Vaults) → Holds w r v → SlotsAreNamedOnce w r }
    ensures within { (w : Worlds) (r : Rec) (v : Vaults) → Holds w r v → (slot : ℕ)
        → NamesSlot (has_weaver w) r (file_at w) slot → slot < length w.slots }
    ensures spared { (w : Worlds) (r : Rec) (v : Vaults) → IsRecord r → Holds w r v
        → (p q : Protector) → NamesProtector r p → NamesProtector r q → p ≢ q
        → Spares (reach_of p (held_number w p)) w q }
    ensures left_out { (w : Worlds) (r less : Rec) (v : Vaults) → IsRecord r → IsRecord less
        → Holds w r v → (p : Protector) → NamesProtector r p
        → ((q : Protector) → NamesProtector less q
        → (NamesProtector r q × (q ≢ p)) ⊎ IsElsewhere w p.id (held_number w p) q)
        → IsUnnamedProtector w less p (held_number w p) }
{}
