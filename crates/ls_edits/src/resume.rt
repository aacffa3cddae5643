//! The `resume` files of users, and what is written to arm them, with no code.
ghost use Rattle.std.specs.Prelude.{◌≡◌, ℕ, List, Some, None};
ghost use Rattle.ls_board.specs.declared.world.World.{World as Worlds};
ghost use Rattle.ls_record.specs.declared.edit.Edit.TheVariants.{SetArmed};
ghost use Rattle.ls_arming.specs.declared.arming.Arming.{Arming as Armings};
ghost use Rattle.ls_record.specs.declared.row.UserRow.{UserRow};
ghost use Rattle.ls_record.specs.Edits.{changed as edited, MayChange};
ghost use Rattle.ls_record.specs.Rows.{Rec, IsRecord};
ghost use Rattle.ls_edits.specs.Arming.{resume_bytes, HasResume};
ghost use Rattle.ls_edits.specs.Arming.{arming_actions, IsResumeFor, AllOpen};
ghost use Rattle.ls_formats.specs.declared.part.FilePart.TheVariants.{Resume};
ghost use Rattle.ls_board.specs.Keys.{key_at};
ghost use Rattle.ls_board.specs.Runs.{after_all};
ghost use Rattle.ls_formats.specs.Contents.{AreBytes};
ghost use Rattle.ls_secret.specs.Secrets.{IsSecret};
ghost use Rattle.ls_standing.specs.Named.{user_file};
ghost use Rattle.ls_standing.specs.Standing.{Holds, NamedAreUntouched};
ghost use Rattle.ls_vault.specs.declared.user.User.{User as Users};
ghost use Rattle.ls_vault.specs.declared.vault.Vault.{Vault as Vaults};

/// The text of a user's secret, sealed under the key that is used once, and that under the key of
/// alias 0, is a `resume` file of the user for these keys. So it is in a world.
pub fn a_resume_file_opens()
    ensures sealed { (row : UserRow) (u : Users) (key once inner_iv outer_iv : List ℕ)
        → AreBytes 32 key → AreBytes 32 once → AreBytes 12 inner_iv → AreBytes 12 outer_iv
        → IsSecret u.secret
        → IsResumeFor key once (resume_bytes key once inner_iv outer_iv u.secret.sp) row u }
    ensures there { (w : Worlds) (row : UserRow) (u : Users) (key once file : List ℕ)
        → key_at w.keys 0 ≡ Some key → user_file w row Resume ≡ Some file
        → IsResumeFor key once file row u → HasResume w once row u }
{}

/// Where a world holds a record for a vault and nobody is armed, it holds the record with an arming
/// for the vault with these users armed once the keys and the files of the arming are written.
pub fn users_are_readied_to_be_armed()
    ensures { (w : Worlds) (r : Rec) (v : Vaults) (a : Armings) (key once : List ℕ)
        (content : ℕ → List ℕ)
        → let staged = after_all w (arming_actions key once content a.users) in
        IsRecord r → Holds w r v → r.armed ≡ None → MayChange r (SetArmed a)
        → AllOpen r v a key once content
        → Holds staged (edited r (SetArmed a)) (record v { arming = Some a })
        × NamedAreUntouched staged (edited r (SetArmed a)) }
{}
