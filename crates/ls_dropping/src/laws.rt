//! That a user can be dropped, with no code.
ghost use Rattle.std.specs.Prelude.{◌<◌, ℕ, Option, IfSome};
ghost use Rattle.std.specs.List.{Contains};
ghost use Rattle.ls_board.specs.declared.world.World.{World as Worlds};
ghost use Rattle.ls_board.specs.Runs.{AllSound};
ghost use Rattle.ls_record.specs.declared.edit.Edit.TheVariants.{DropRow};
ghost use Rattle.ls_arming.specs.declared.arming.Arming.{Arming as Armings};
ghost use Rattle.ls_record.specs.declared.row.UserRow.{UserRow};
ghost use Rattle.ls_record.specs.Edits.{changed as edited};
ghost use Rattle.ls_record.specs.Rows.{Rec, IsRecord};
ghost use Rattle.ls_sealing.specs.Protectors.{Protector, held_number};
ghost use Rattle.ls_standing.specs.NamedProtectors.{row_protectors};
ghost use Rattle.ls_standing.specs.Quiet.{IsUnnamedProtector};
ghost use Rattle.ls_standing.specs.Standing.{Holds};
ghost use Rattle.ls_retiring.specs.declared.built.Built.{Built as Builts};
ghost use Rattle.ls_dropping.specs.Dropping.{DroppedUser, dropping};
ghost use Rattle.ls_vault.specs.declared.vault.Vault.{Vault as Vaults};

/// Where a world holds a record for a vault, the record without a row names nothing of the
/// protectors that the row names, with the slots that they have. What takes the user away asks of a
/// board only that these are some of its slots.
pub fn users_can_be_dropped()
    ensures unnamed { (w : Worlds) (r : Rec) (v : Vaults) (row : UserRow) (p : Protector) → IsRecord r
        → Holds w r v → Contains r.users row → Contains (row_protectors row) p
        → IsUnnamedProtector w (edited r (DropRow row.user)) p (held_number w p) }
    ensures sound { (slots : ℕ) (armed : Option Armings) (u : DroppedUser)
        → ((b : Builts) → Contains u.gone b → IfSome b.place.slot (λ n. n < slots))
        → AllSound slots (dropping armed u) }
{}
