//! An arming set or cleared, and what a world holds of the next record, with no code.
ghost use Rattle.std.specs.Prelude.{◌≡◌, ℕ, true, List, Some, None, IsSomeAnd};
ghost use Rattle.std.specs.List.{Contains};
ghost use Rattle.ls_board.specs.declared.world.World.{World as Worlds};
ghost use Rattle.ls_board.specs.Effect.{touch_at};
ghost use Rattle.ls_formats.specs.PartNames.{part_name_text};
ghost use Rattle.ls_naming.specs.Named.{is_armed};
ghost use Rattle.ls_record.specs.declared.edit.Edit.TheVariants.{SetArmed, ClearArmed};
ghost use Rattle.ls_arming.specs.declared.arming.Arming.{Arming as Armings};
ghost use Rattle.ls_record.specs.declared.row.UserRow.{UserRow};
ghost use Rattle.ls_record.specs.Edits.{changed as edited, MayChange};
ghost use Rattle.ls_record.specs.Rows.{Rec, IsRecord, has};
ghost use Rattle.ls_edits.specs.Arming.{resume_name, AllHaveResume};
ghost use Rattle.ls_formats.specs.declared.part.FilePart.TheVariants.{Resume};
ghost use Rattle.ls_board.specs.Keys.{key_at};
ghost use Rattle.ls_standing.specs.Named.{user_file};
ghost use Rattle.ls_standing.specs.Standing.{Holds, NamedAreUntouched};
ghost use Rattle.ls_sealing.specs.Chain.{opened_resume};
ghost use Rattle.ls_vault.specs.declared.user.User.{User as Users};
ghost use Rattle.ls_vault.specs.declared.vault.Vault.{Vault as Vaults};
ghost use Rattle.ls_vault.specs.Users.{user_of};

/// A world that holds a record for a vault, and a `resume` file of each user of an arming that
/// opens by the key of alias 0 and by that of the cell, holds the record with this arming for the
/// vault with these users armed.
pub fn users_are_armed()
    ensures holds { (w : Worlds) (r : Rec) (v : Vaults) (a : Armings) (once : List ℕ)
        → IsRecord r → Holds w r v → MayChange r (SetArmed a) → w.cell ≡ Some once
        → AllHaveResume w r v a once
        → Holds w (edited r (SetArmed a)) (record v { arming = Some a }) }
    ensures untouched { (w : Worlds) (r : Rec) (a : Armings) → NamedAreUntouched w r
        → ((row : UserRow) → Contains r.users row → has a.users row.user ≡ true
        → touch_at w (part_name_text (resume_name row)) ≡ None)
        → NamedAreUntouched w (edited r (SetArmed a)) }
{}

/// With no arming it holds the record for the vault in which nobody is armed.
pub fn nobody_is_armed()
    ensures holds { (w : Worlds) (r : Rec) (v : Vaults) → IsRecord r → Holds w r v
        → v.arming ≡ None → Holds w (edited r ClearArmed) v }
    ensures cleared { (w : Worlds) (r : Rec) (v : Vaults) → IsRecord r → Holds w r v
        → Holds w (edited r ClearArmed) (record v { arming = None }) }
    ensures untouched { (w : Worlds) (r : Rec) → NamedAreUntouched w r
        → NamedAreUntouched w (edited r ClearArmed) }
{}

/// Where the cell has a key, the `resume` file of a user who is armed opens to the user's secret.
pub fn armed_users_have_a_resume_file()
    ensures { (w : Worlds) (r : Rec) (v : Vaults) (row : UserRow) (u : Users) (once : List ℕ)
        → IsRecord r → Holds w r v → Contains r.users row → user_of v.users row.user ≡ Some u
        → is_armed r.armed row.user ≡ true → w.cell ≡ Some once
        → IsSomeAnd (user_file w row Resume)
        (λ file. opened_resume (key_at w.keys 0) once file ≡ Some u.secret.sp) }
{}
