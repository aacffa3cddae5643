//! Rows that may be put into the record of a world, with no code.
ghost use Rattle.std.specs.Prelude.{◌≡◌, ◌≢◌, ℕ, Bool, Option};
ghost use Rattle.std.specs.List.{Contains};
ghost use Rattle.ls_board.specs.declared.world.World.{World as Worlds};
ghost use Rattle.ls_formats.specs.PartNames.{PartOf};
ghost use Rattle.ls_naming.specs.Named.{row_files};
ghost use Rattle.ls_record.specs.declared.edit.Edit.TheVariants.{PutRow};
ghost use Rattle.ls_arming.specs.declared.arming.Arming.{Arming as Armings};
ghost use Rattle.ls_record.specs.declared.row.UserRow.{UserRow};
ghost use Rattle.ls_record.specs.Edits.{MayChange};
ghost use Rattle.ls_record.specs.Rows.{Rec, IsRecord, IsRow};
ghost use Rattle.ls_sealing.specs.Protectors.{Protector};
ghost use Rattle.ls_standing.specs.Named.{credential_of, token_of};
ghost use Rattle.ls_standing.specs.NamedProtectors.{row_protectors};
ghost use Rattle.ls_standing.specs.Sound.{IsSoundFile};
ghost use Rattle.ls_standing.specs.Standing.{Holds, NamedAreUntouched};
ghost use Rattle.ls_vault.specs.declared.vault.Vault.{Vault as Vaults};
ghost use Rattle.ls_edits.specs.Rows.{HasNoNewPart, HasSameCredential};
ghost use Rattle.ls_edits.specs.SoundRows.{IsSoundRow, RowIsUntouched, IsCheckedAlike};
ghost use Rattle.ls_edits.specs.SoundRows.{HasNewSlot, HasSoundUser, IsSoundProtector};
ghost use Rattle.ls_edits.specs.SoundRows.{HasSoundProtectors, IsTokenOf};
ghost use Rattle.ls_edits.specs.SoundRows.{IsOldOrNewToken, HaveOwnSlots};

/// A row may be put whose files pass their checks, and each of whose protectors is one that the
/// record names or has a slot of its own.
pub fn a_row_of_sound_protectors_is_sound()
    ensures { (w : Worlds) (r : Rec) (v : Vaults) (row : UserRow) → Holds w r v
        → MayChange r (PutRow row) → HasSoundProtectors w r row → IsSoundRow w r row }
{}

/// So may the row of a new credential, with tokens that the user has already.
pub fn a_row_with_a_new_credential_is_sound()
    ensures { (w : Worlds) (r : Rec) (v : Vaults) (row : UserRow) → IsRecord r → Holds w r v
        → MayChange r (PutRow row) → HasSoundUser w r row
        → IsSoundProtector w row (credential_of row) → HasNewSlot w r (credential_of row)
        → ((id : ℕ) → Contains row.tokens id → IsTokenOf w r row id)
        → IsSoundRow w r row }
{}

/// So may a row with new tokens beside those that the user has already.
pub fn a_row_with_new_tokens_is_sound()
    ensures { (w : Worlds) (r : Rec) (v : Vaults) (old row : UserRow) → Holds w r v
        → Contains r.users old → HasSameCredential old row → MayChange r (PutRow row)
        → ((id : ℕ) → Contains row.tokens id → IsOldOrNewToken w r old row id)
        → HaveOwnSlots w r row → IsSoundRow w r row }
{}

/// So may a row without a part that the user's row hasn't. It names no other file, and no other
/// protector.
pub fn a_row_without_new_parts_is_sound()
    ensures may { (r : Rec) (old row : UserRow) → IsRecord r → Contains r.users old
        → HasNoNewPart old row → IsRow row → MayChange r (PutRow row) }
    ensures sound { (w : Worlds) (r : Rec) (v : Vaults) (old row : UserRow) → Holds w r v
        → Contains r.users old → HasNoNewPart old row → MayChange r (PutRow row)
        → IsSoundRow w r row }
    ensures untouched { (w : Worlds) (r : Rec) (old row : UserRow) → Contains r.users old
        → HasNoNewPart old row → NamedAreUntouched w r → RowIsUntouched w r row }
    ensures files { (weaver : Bool) (armed : Option Armings) (old row : UserRow) (name : PartOf)
        → HasNoNewPart old row → Contains (row_files weaver armed row) name
        → Contains (row_files weaver armed old) name }
    ensures protectors { (old row : UserRow) (p : Protector) → HasNoNewPart old row
        → Contains (row_protectors row) p → Contains (row_protectors old) p }
{}

/// A file that is checked for the same in two rows passes the checks of both. So do those of a
/// token beside another credential, whose blob says the same version.
pub fn what_is_checked_alike_stays_sound()
    ensures alike { (w : Worlds) (old row : UserRow) (name : PartOf)
        → IsCheckedAlike w old row name → IsSoundFile w old name → IsSoundFile w row name }
    ensures token { (w : Worlds) (r : Rec) (v : Vaults) (row : UserRow) (id : ℕ) → IsRecord r
        → Holds w r v → id ≢ row.protector → IsTokenOf w r row id
        → IsSoundProtector w row (token_of row id) }
{}
