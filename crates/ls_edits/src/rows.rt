//! A row put or dropped, and what a world holds of the next record, with no code.
ghost use Rattle.std.specs.Prelude.{◌≡◌, ◌≢◌, ◌⊎◌, ℕ, Some};
ghost use Rattle.std.specs.List.{Contains};
ghost use Rattle.ls_board.specs.declared.world.World.{World as Worlds};
ghost use Rattle.ls_record.specs.declared.edit.Edit.TheVariants.{PutRow, DropRow};
ghost use Rattle.ls_record.specs.declared.row.UserRow.{UserRow};
ghost use Rattle.ls_record.specs.Edits.{changed as edited, MayChange};
ghost use Rattle.ls_record.specs.Rows.{Rec, IsRecord};
ghost use Rattle.ls_standing.specs.Named.{held_of_row};
ghost use Rattle.ls_standing.specs.Standing.{Holds, HoldsUser, NamedAreUntouched};
ghost use Rattle.ls_vault.specs.declared.user.User.{User as Users};
ghost use Rattle.ls_vault.specs.declared.vault.Vault.{Vault as Vaults};
ghost use Rattle.ls_vault.specs.Users.{changed, with_user, without_user, user_of};
ghost use Rattle.ls_arming.specs.Disarming.{disarmed};
ghost use Rattle.ls_edits.specs.SoundRows.{IsSoundRow, RowIsUntouched};

/// The rows of a record with a row put are those of the other users, and the row.
pub fn a_put_row_is_among_the_rows()
    ensures of { (r : Rec) (row other : UserRow) → Contains (edited r (PutRow row)).users other
        → (Contains r.users other × (other.user ≢ row.user)) ⊎ (other ≡ row) }
    ensures its { (r : Rec) (row : UserRow) → Contains (edited r (PutRow row)).users row }
    ensures others { (r : Rec) (row other : UserRow) → Contains r.users other
        → other.user ≢ row.user → Contains (edited r (PutRow row)).users other }
{}

/// A world that holds a record for a vault holds the record with one row replaced for the vault
/// with this user changed, where it holds the new row for the changed user.
pub fn a_row_is_replaced()
    ensures holds { (w : Worlds) (r : Rec) (v : Vaults) (old row : UserRow)
        (change : Users → Users)
        → IsRecord r → Holds w r v → Contains r.users old → old.user ≡ row.user
        → IsSoundRow w r row
        → ((u : Users) → user_of v.users row.user ≡ Some u
        → HoldsUser old (held_of_row w r.armed old) u
        → HoldsUser row (held_of_row w r.armed row) (change u))
        → Holds w (edited r (PutRow row)) (record v { users = changed v.users row.user change }) }
    ensures untouched { (w : Worlds) (r : Rec) (row : UserRow) → NamedAreUntouched w r
        → RowIsUntouched w r row → NamedAreUntouched w (edited r (PutRow row)) }
{}

/// With a row put for a user who has none it holds the record for the vault with this user.
pub fn a_row_is_put_new()
    ensures holds { (w : Worlds) (r : Rec) (v : Vaults) (row : UserRow) (u : Users)
        → IsRecord r → Holds w r v
        → ((other : UserRow) → Contains r.users other → other.user ≢ row.user)
        → IsSoundRow w r row → HoldsUser row (held_of_row w r.armed row) u
        → Holds w (edited r (PutRow row)) (record v { users = with_user v.users u }) }
{}

/// Without a row it holds the record for the vault without this user, who is armed no longer.
pub fn a_row_is_dropped()
    ensures holds { (w : Worlds) (r : Rec) (v : Vaults) (user : ℕ)
        → IsRecord r → Holds w r v → MayChange r (DropRow user)
        → Holds w (edited r (DropRow user)) (record {
          users = without_user v.users user;
          arming = disarmed v.arming user;
        }) }
    ensures untouched { (w : Worlds) (r : Rec) (user : ℕ) → IsRecord r → NamedAreUntouched w r
        → NamedAreUntouched w (edited r (DropRow user)) }
{}
