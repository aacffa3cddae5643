//! A new user without escrow and without a credential, with no code.
ghost use Rattle.std.specs.Prelude.{◌≡◌, ◌≢◌, ◌<◌, ◌^◌, ℕ, true, false};
ghost use Rattle.std.specs.Prelude.{List, [], ◌++◌, ◌∷◌, Option, None, is_some};
ghost use Rattle.std.specs.List.{Contains};
ghost use Rattle.ls_board.specs.declared.world.World.{World as Worlds};
ghost use Rattle.ls_record.specs.declared.edit.Edit.TheVariants.{PutRow, DropRow};
ghost use Rattle.ls_record.specs.declared.row.UserRow.{UserRow};
ghost use Rattle.ls_record.specs.Edits.{changed as edited, MayChange};
ghost use Rattle.ls_record.specs.Rows.{Rec, rec, IsRecord, is_protector_id};
ghost use Rattle.ls_sealing.specs.Protectors.{held, held_number, failures};
ghost use Rattle.ls_board.specs.Runs.{after_all};
ghost use Rattle.ls_board.specs.Worlds.{blank_world};
ghost use Rattle.ls_board.specs.declared.action.Action.TheVariants as Action;
ghost use Rattle.ls_credential.specs.declared.kind.Kind.TheVariants as Kind;
ghost use Rattle.ls_formats.specs.Contents.{AreBytes};
ghost use Rattle.ls_sealing.specs.Building.{FitsSlots, writing_actions, writing_of, for_credential};
ghost use Rattle.ls_sealing.specs.Building.{retiring_actions};
ghost use Rattle.ls_sealing.specs.Draws.{credential_draw_size};
ghost use Rattle.ls_secret.specs.Secrets.{IsSecret};
ghost use Rattle.ls_standing.specs.Quiet.{IsUnnamedProtector};
ghost use Rattle.ls_sealing.specs.Seals.{Seals, ShowsMetrics};
ghost use Rattle.ls_board.specs.Gatekeeper.{no_fails};
ghost use Rattle.ls_standing.specs.Named.{credential_of};
ghost use Rattle.ls_sealing.specs.HeldBytes.{AllHoldBytes};
ghost use Rattle.ls_standing.specs.Standing.{Holds, NamedAreUntouched};
ghost use Rattle.ls_vault.specs.declared.vault.Vault.{Vault as Vaults};
ghost use Rattle.ls_vault.specs.Users.{with_user, without_user};
ghost use Rattle.ls_vault.specs.UserChanges.{new_user};
ghost use Rattle.ls_arming.specs.Disarming.{disarmed};
ghost use Rattle.ls_edits.specs.Rows.{new_row};
ghost use Rattle.ls_edits.specs.SoundRows.{HasNewSlot};

/// A world that holds a record for a vault, and a new protector of no credential, holds the record
/// with a row for it for the vault with the new user, who has no escrow.
pub fn a_user_without_escrow_is_added()
    ensures { (w : Worlds) (r : Rec) (v : Vaults) (user id : ℕ) (drawn : List ℕ)
        → let row = new_row user id in
        let u = new_user user false drawn in
        let h = held w (credential_of row) in
        IsRecord r → Holds w r v
        → ((other : UserRow) → Contains r.users other → other.user ≢ user)
        → MayChange r (PutRow row)
        → Seals id h u.credential u.secret → ShowsMetrics h u.credential u.secret
        → failures h ≡ no_fails → AllHoldBytes h
        → HasNewSlot w r (credential_of row)
        → Holds w (edited r (PutRow row)) (record v { users = with_user v.users u }) }
{}

/// So it is once the new protector is written, in a world that holds the record for the vault.
pub fn a_user_without_escrow_is_readied()
    ensures { (w : Worlds) (r : Rec) (v : Vaults) (user id : ℕ) (slot : Option ℕ)
        (drawn bytes : List ℕ)
        → let row = new_row user id in
        let u = new_user user false drawn in
        let p = credential_of row in
        let m = writing_of id slot (for_credential u.credential u.secret) bytes w.gk_key in
        let staged = after_all w (writing_actions p slot m ++ Action.Sync ∷ []) in
        IsRecord r → Holds w r v
        → ((other : UserRow) → Contains r.users other → other.user ≢ user)
        → MayChange r (PutRow row) → IsUnnamedProtector w r p slot → FitsSlots slot w
        → IsSecret u.secret → AreBytes (credential_draw_size (is_some slot) Kind.Empty) bytes
        → Holds staged (edited r (PutRow row)) (record v { users = with_user v.users u })
        × NamedAreUntouched staged (edited r (PutRow row)) }
{}

/// With the user dropped again, and its protector erased and its files removed, it holds the record
/// for the vault without the user. On a blank world a first user can be added.
pub fn a_user_comes_and_goes()
    ensures gone { (w : Worlds) (r : Rec) (v : Vaults) (user id : ℕ) (slot : Option ℕ)
        (drawn bytes : List ℕ)
        → let row = new_row user id in
        let u = new_user user false drawn in
        let p = credential_of row in
        let m = writing_of id slot (for_credential u.credential u.secret) bytes w.gk_key in
        let staged = after_all w (writing_actions p slot m ++ Action.Sync ∷ []) in
        IsRecord r → Holds w r v
        → ((other : UserRow) → Contains r.users other → other.user ≢ user)
        → MayChange r (PutRow row) → IsUnnamedProtector w r p slot → FitsSlots slot w
        → IsSecret u.secret → AreBytes (credential_draw_size (is_some slot) Kind.Empty) bytes
        → Holds (after_all staged (retiring_actions p (held_number staged p)))
        (edited (edited r (PutRow row)) (DropRow user)) (record {
          users = without_user (with_user v.users u) user;
          arming = disarmed v.arming user;
        }) }
    ensures first { (slots user id : ℕ) (slot : Option ℕ) (drawn bytes : List ℕ)
        → let w = blank_world slots in
        let u = new_user user false drawn in
        let p = credential_of (new_row user id) in
        let m = writing_of id slot (for_credential u.credential u.secret) bytes w.gk_key in
        let staged = after_all w (writing_actions p slot m ++ Action.Sync ∷ []) in
        let next = edited (rec [] None) (PutRow (new_row user id)) in
        user < 2 ^ 32 → is_protector_id id ≡ true → id < 2 ^ 64 → FitsSlots slot w
        → IsSecret u.secret → AreBytes (credential_draw_size (is_some slot) Kind.Empty) bytes
        → Holds staged next (record { users = u ∷ []; arming = None })
        × NamedAreUntouched staged next }
{}
