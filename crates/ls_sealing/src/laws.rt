//! What is so of all protectors, with no code.
ghost use Rattle.std.specs.Prelude.{◌↔◌, ◌^◌, IsTrue, false};
ghost use Rattle.std.specs.Prelude.{◌≡◌, ◌≢◌, ◌<◌, ℕ, true, List, length, replicate, slice_get};
ghost use Rattle.std.specs.Prelude.{Option, is_some, IfSome, IsSomeAnd};
ghost use Rattle.ls_board.specs.declared.action.Action.TheVariants.{WeaverRead, GkVerify};
ghost use Rattle.ls_board.specs.declared.devices.Counter.{Counter as Counters};
ghost use Rattle.ls_board.specs.Effect.{after, slot_at};
ghost use Rattle.ls_board.specs.Gatekeeper.{version_of, sid_of, is_signed, record_at};
ghost use Rattle.ls_board.specs.Gatekeeper.{counter_after};
ghost use Rattle.ls_weaver.specs.declared.slot.Slot.{Slot as Slots};
ghost use Rattle.ls_weaver.specs.Slots.{slot_after, same_key, blank_slot};
ghost use Rattle.ls_sealing.specs.Chain.{stretched, weaver_key, gatekeeper_password};
ghost use Rattle.ls_sealing.specs.Readings.{after_reading, with_record};
ghost use Rattle.ls_board.specs.declared.world.World.{World as Worlds};
ghost use Rattle.ls_board.specs.Runs.{after_all, AllPlanned, AllApply, AllSound};
ghost use Rattle.ls_credential.specs.declared.kind.Kind.TheVariants as Kind;
ghost use Rattle.ls_credential.specs.Counts.{metrics_of, IsSmall};
ghost use Rattle.ls_credential.specs.Rules.{KindAndText};
ghost use Rattle.ls_formats.specs.declared.part.FilePart.TheVariants.{Weaver, Pwd};
ghost use Rattle.ls_formats.specs.Contents.{AreBytes, pwd_of};
ghost use Rattle.ls_secret.specs.Secrets.{SecretValue, IsSecret};
ghost use Rattle.ls_sealing.specs.Protectors.{Protector, HasNumbers, Held, held, held_number};
ghost use Rattle.ls_sealing.specs.Protectors.{is_enrolled, has_weaver, nothing_held};
ghost use Rattle.ls_sealing.specs.Seals.{Seals, ShowsMetrics, SealsToken, CompletesTo, IsTokenSlot};
ghost use Rattle.ls_sealing.specs.HeldBytes.{AllHoldBytes};
ghost use Rattle.ls_sealing.specs.Sparing.{SameParts, IsUntouched, Spares, reach_of};
ghost use Rattle.ls_board.specs.Reach.{AllTouchOnly};
ghost use Rattle.ls_board.specs.Images.{Leaves};
ghost use Rattle.ls_sealing.specs.Apart.{IsApart, IsTokenApart};
ghost use Rattle.ls_sealing.specs.Draws.{credential_draw_size, token_draw_size};
ghost use Rattle.ls_sealing.specs.Building.{Writing, writing_actions, held_of, slot_file};
ghost use Rattle.ls_sealing.specs.Building.{FitsSlots, erasing_actions, erased, retiring_actions};
ghost use Rattle.ls_sealing.specs.Building.{for_credential, for_token, protector_for, writing_of};
ghost use Rattle.ls_sealing.specs.Building.{protector_actions, purpose_of};

/// After the actions that write a protector, in any world, the world holds of it exactly what was
/// written.
pub fn protectors_hold_what_was_written()
    ensures { (w : Worlds) (p : Protector) (slot : Option ℕ) (m : Writing)
        → FitsSlots slot w → m.content Weaver ≡ slot_file slot
        → held (after_all w (writing_actions p slot m)) p ≡ held_of p.purpose slot m w.gk_key }
{}

/// What is written for a credential seals the secret for it, and shows its metrics. What is written
/// for a token seals the first half of a secret for it.
pub fn what_is_written_seals()
    ensures credential { (id : ℕ) (slot : Option ℕ) (c : KindAndText) (s : SecretValue)
        (drawn gk_key : List ℕ)
        → IsSecret s → AreBytes (credential_draw_size (is_some slot) c.kind) drawn
        → let offer = for_credential c s in
        Seals id
        (held_of (purpose_of offer) slot (writing_of id slot offer drawn gk_key) gk_key) c s }
    ensures metrics { (id : ℕ) (slot : Option ℕ) (c : KindAndText) (s : SecretValue)
        (drawn gk_key : List ℕ)
        → IsSecret s → AreBytes (credential_draw_size (is_some slot) c.kind) drawn
        → let offer = for_credential c s in
        ShowsMetrics
        (held_of (purpose_of offer) slot (writing_of id slot offer drawn gk_key) gk_key) c s }
    ensures token { (id : ℕ) (slot : Option ℕ) (bytes p0 : List ℕ) (p1 : Option (List ℕ))
        (s : SecretValue) (drawn gk_key : List ℕ)
        → IsSecret s → length p0 ≡ 32 → IsSomeAnd p1 (CompletesTo s p0)
        → AreBytes (token_draw_size (is_some slot)) drawn
        → let offer = for_token bytes s.version p0 in
        SealsToken (held_of (purpose_of offer) slot (writing_of id slot offer drawn gk_key) gk_key)
        p1 bytes s p0 }
{}

/// What is written for a credential or a token are bytes, where what is drawn are bytes and the counts
/// of the credential, or the half of the secret, are too.
pub fn what_is_written_holds_bytes()
    ensures credential { (id : ℕ) (slot : Option ℕ) (c : KindAndText) (s : SecretValue)
        (drawn gk_key : List ℕ)
        → IsSecret s → (c.kind ≢ Kind.Empty → IsSmall (metrics_of c))
        → AreBytes (credential_draw_size (is_some slot) c.kind) drawn
        → let offer = for_credential c s in
        AllHoldBytes
        (held_of (purpose_of offer) slot (writing_of id slot offer drawn gk_key) gk_key) }
    ensures token { (id : ℕ) (slot : Option ℕ) (bytes p0 : List ℕ) (s : SecretValue)
        (drawn gk_key : List ℕ)
        → IsSecret s → AreBytes 32 p0 → AreBytes (token_draw_size (is_some slot)) drawn
        → let offer = for_token bytes s.version p0 in
        AllHoldBytes
        (held_of (purpose_of offer) slot (writing_of id slot offer drawn gk_key) gk_key) }
{}

/// After the actions that build a protector, in any world, it seals what was offered.
pub fn built_protectors_seal()
    ensures credential { (w : Worlds) (user id : ℕ) (slot : Option ℕ) (c : KindAndText)
        (s : SecretValue) (drawn : List ℕ)
        → FitsSlots slot w → IsSecret s
        → AreBytes (credential_draw_size (is_some slot) c.kind) drawn
        → let offer = for_credential c s in
        Seals id (held (after_all w (protector_actions user id slot offer drawn w.gk_key))
        (protector_for user id offer)) c s }
    ensures metrics { (w : Worlds) (user id : ℕ) (slot : Option ℕ) (c : KindAndText)
        (s : SecretValue) (drawn : List ℕ)
        → FitsSlots slot w → IsSecret s
        → AreBytes (credential_draw_size (is_some slot) c.kind) drawn
        → let offer = for_credential c s in
        ShowsMetrics (held (after_all w (protector_actions user id slot offer drawn w.gk_key))
        (protector_for user id offer)) c s }
    ensures token { (w : Worlds) (user id : ℕ) (slot : Option ℕ) (bytes p0 : List ℕ)
        (p1 : Option (List ℕ)) (s : SecretValue) (drawn : List ℕ)
        → FitsSlots slot w → IsSecret s → length p0 ≡ 32 → IsSomeAnd p1 (CompletesTo s p0)
        → AreBytes (token_draw_size (is_some slot)) drawn
        → let offer = for_token bytes s.version p0 in
        SealsToken (held (after_all w (protector_actions user id slot offer drawn w.gk_key))
        (protector_for user id offer)) p1 bytes s p0 }
{}

/// What is held fixes the kind of a credential that it seals a secret for; and with the text, or a
/// token's bytes, it fixes the secret.
pub fn what_is_held_fixes_the_secret()
    ensures kind { (id : ℕ) (h : Held) (c d : KindAndText) (s t : SecretValue)
        → Seals id h c s → Seals id h d t → c.kind ≡ d.kind }
    ensures secret { (id : ℕ) (h : Held) (c d : KindAndText) (s t : SecretValue)
        → Seals id h c s → Seals id h d t → c.text ≡ d.text → s ≡ t }
    ensures half { (h : Held) (p1 : Option (List ℕ)) (bytes p0 q0 : List ℕ) (s t : SecretValue)
        → SealsToken h p1 bytes s p0 → SealsToken h p1 bytes t q0 → p0 ≡ q0 }
    ensures token { (h : Held) (p1 : Option (List ℕ)) (bytes p0 q0 : List ℕ) (s t : SecretValue)
        → SealsToken h p1 bytes s p0 → SealsToken h p1 bytes t q0 → s ≡ t }
{}

/// Where nothing matches by chance, no other text of the same kind and no other bytes open what is
/// sealed.
pub fn only_what_is_equal_opens()
    ensures credential { (id : ℕ) (h : Held) (c d : KindAndText) (s t : SecretValue)
        → Seals id h c s → Seals id h d t → IsApart id h c d → d ≡ c }
    ensures token { (h : Held) (p1 : Option (List ℕ)) (bytes other p0 q0 : List ℕ)
        (s t : SecretValue)
        → SealsToken h p1 bytes s p0 → SealsToken h p1 other t q0
        → IsTokenApart h bytes other → other ≡ bytes }
{}

/// Worlds with the same parts of a protector hold the same of it. A crash leaves what a world holds
/// of it, where none of its files was touched.
pub fn what_is_held_follows_the_parts()
    ensures same { (p : Protector) (old new : Worlds)
        → SameParts p old new → held new p ≡ held old p }
    ensures left { (p : Protector) (w image : Worlds)
        → IsUntouched w p → Leaves w image → held image p ≡ held w p }
{}

/// The actions that write a protector touch its parts alone. A plan may hold them, and they ask
/// nothing of a world but that the slot is one of its slots.
pub fn protectors_are_written_by_plans()
    ensures touches { (p : Protector) (slot : Option ℕ) (m : Writing)
        → AllTouchOnly (reach_of p slot) (writing_actions p slot m) }
    ensures planned { (p : Protector) (slot : Option ℕ) (m : Writing)
        → AllPlanned (writing_actions p slot m) }
    ensures sound { (slots : ℕ) (p : Protector) (slot : Option ℕ) (m : Writing)
        → IfSome slot (λ n. n < slots) → AllSound slots (writing_actions p slot m) }
    ensures applies { (w : Worlds) (p : Protector) (slot : Option ℕ) (m : Writing)
        → AllApply w (writing_actions p slot m) }
{}

/// Asking the devices of a protector changes what a world holds of it in its slot alone, or in its
/// Gatekeeper's record, and what is sealed stays so. A token's slot stays as it was.
pub fn askings_keep_what_is_sealed()
    ensures reading { (w : Worlds) (p : Protector) (n : ℕ) (slot : Slots) (key : List ℕ)
        (moment : ℕ)
        → held_number w p ≡ Some n → slice_get w.slots n ≡ Some slot
        → held (after w (WeaverRead n key moment) 0) p ≡ after_reading (held w p) slot key moment }
    ensures check { (w : Worlds) (p : Protector) (handle password : List ℕ) (moment : ℕ)
        (counter : Counters)
        → is_enrolled (has_weaver w) p.purpose ≡ true → version_of handle ≡ 1
        → sid_of handle ≡ p.id → record_at w.gk p.id ≡ Some counter
        → held (after w (GkVerify handle password moment) 0) p ≡
        with_record (held w p) (counter_after counter (is_signed w.gk_key handle password) moment) }
    ensures slot_sealed { (id : ℕ) (h : Held) (c : KindAndText) (s : SecretValue) (slot : Slots)
        (key : List ℕ) (moment : ℕ)
        → Seals id h c s → h.slot ≡ Some slot → Seals id (after_reading h slot key moment) c s }
    ensures record_sealed { (id : ℕ) (h : Held) (c : KindAndText) (s : SecretValue)
        (counter : Counters)
        → Seals id h c s → Seals id (with_record h counter) c s }
    ensures token { (slot : Slots) (moment : ℕ)
        → IsTokenSlot slot → slot_after slot (replicate 16 0) moment ≡ slot }
{}

/// The actions that erase a protector touch its parts alone, a plan may hold them, and they ask
/// nothing of a world but that the slot is one of its slots. After them its files are as they were;
/// its slot is blank, and its key and its Gatekeeper's record are gone.
pub fn protectors_are_erased_by_plans()
    ensures touches { (p : Protector) (slot : Option ℕ)
        → AllTouchOnly (reach_of p slot) (erasing_actions p slot) }
    ensures planned { (p : Protector) (slot : Option ℕ) → AllPlanned (erasing_actions p slot) }
    ensures sound { (slots : ℕ) (p : Protector) (slot : Option ℕ)
        → IfSome slot (λ n. n < slots) → AllSound slots (erasing_actions p slot) }
    ensures applies { (w : Worlds) (p : Protector) (slot : Option ℕ)
        → AllApply w (erasing_actions p slot) }
    ensures left { (w : Worlds) (p : Protector) (slot : Option ℕ)
        → FitsSlots slot w → held_number w p ≡ slot
        → held (after_all w (erasing_actions p slot)) p ≡ erased (held w p) }
    ensures blank { (w : Worlds) (p : Protector) (n : ℕ) → n < length w.slots
        → slot_at (after_all w (erasing_actions p (Some n))) n ≡ blank_slot }
{}

/// The actions that take a protector away, as those that erase it. After them a world holds nothing
/// of it, and its slot is blank.
pub fn protectors_are_retired_by_plans()
    ensures touches { (p : Protector) (slot : Option ℕ)
        → AllTouchOnly (reach_of p slot) (retiring_actions p slot) }
    ensures planned { (p : Protector) (slot : Option ℕ) → AllPlanned (retiring_actions p slot) }
    ensures sound { (slots : ℕ) (p : Protector) (slot : Option ℕ)
        → IfSome slot (λ n. n < slots) → AllSound slots (retiring_actions p slot) }
    ensures applies { (w : Worlds) (p : Protector) (slot : Option ℕ)
        → AllApply w (retiring_actions p slot) }
    ensures gone { (w : Worlds) (p : Protector) (slot : Option ℕ) → FitsSlots slot w
        → held (after_all w (retiring_actions p slot)) p ≡ nothing_held (is_some slot) w.gk_key }
    ensures blank { (w : Worlds) (p : Protector) (n : ℕ) → n < length w.slots
        → slot_at (after_all w (retiring_actions p (Some n))) n ≡ blank_slot }
{}

/// What is a protector's is no part of one with another id that has another slot.
pub fn protectors_spare_each_other()
    ensures { (p q : Protector) (slot : Option ℕ) (w : Worlds)
        → HasNumbers p → HasNumbers q → p.id ≢ q.id
        → ((n : ℕ) → held_number w q ≡ Some n → slot ≢ Some n) → Spares (reach_of p slot) w q }
{}

/// Where nothing matches by chance, the devices of a protector know the text that it was sealed for
/// among those of its kind: its slot is read with the key of that text alone, and the handle in its
/// `pwd` file is that of its password alone. The handle is of the version 1 and of the protector's
/// id.
pub fn devices_know_what_was_sealed()
    ensures slot { (id : ℕ) (h : Held) (c d : KindAndText) (s : SecretValue) (slot : Slots)
        → Seals id h c s → IsApart id h c d → d.kind ≡ c.kind
        → h.weaver ≡ true → h.slot ≡ Some slot
        → IsTrue (same_key slot.key (weaver_key (stretched (h.files Pwd) d.text)))
        ↔ (d.text ≡ c.text) }
    ensures handle { (id : ℕ) (h : Held) (c d : KindAndText) (s : SecretValue)
        (file handle : List ℕ)
        → Seals id h c s → IsApart id h c d → d.kind ≡ c.kind → id < 2 ^ 64
        → h.weaver ≡ false → h.files Pwd ≡ Some file → (pwd_of file).handle ≡ Some handle
        → IsTrue (is_signed h.device handle
        (gatekeeper_password (stretched (h.files Pwd) d.text)))
        ↔ (d.text ≡ c.text) }
    ensures named { (id : ℕ) (h : Held) (c : KindAndText) (s : SecretValue)
        (file handle : List ℕ)
        → Seals id h c s → id < 2 ^ 64
        → h.weaver ≡ false → h.files Pwd ≡ Some file → (pwd_of file).handle ≡ Some handle
        → (version_of handle ≡ 1) × (sid_of handle ≡ id) }
{}
