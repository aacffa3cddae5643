//! What the plan of an arming is good for, and what a resume finds, with no code.
ghost use Rattle.std.specs.Prelude.{◌≡◌, ℕ, true, false, List, length, None, Some};
ghost use Rattle.ls_arming.specs.declared.arming.Arming.{Arming as Armings};
ghost use Rattle.ls_board.specs.Runs.{AllSound, AllApply};
ghost use Rattle.ls_board.specs.declared.world.World.{World as Worlds};
ghost use Rattle.ls_edits.specs.Arming.{AllOpen};
ghost use Rattle.ls_formats.specs.Contents.{AreBytes};
ghost use Rattle.ls_record.specs.Rows.{Rec, IsRecord};
ghost use Rattle.ls_standing.specs.Standing.{Holds};
ghost use Rattle.ls_vault.specs.declared.vault.Vault.{Vault as Vaults};
ghost use Rattle.ls_vault.specs.Arming.{is_good};
ghost use Rattle.ls_resume.specs.declared.ending.ResumeEnd.TheVariants.{Resumed, NotArmed, Expired};
ghost use Rattle.ls_resume.specs.declared.secrets.SecretRow.{SecretRow as SecretRowValue};
ghost use Rattle.ls_resume.specs.Resuming.{resume_end};
ghost use Rattle.ls_resume.specs.Secrets.{users_of, AreSecretsOf};
ghost use Rattle.ls_resume.specs.Sealing.{arm_draw_size, once_key, store_key, file_of, arming_of};

/// The files that the plan of an arming puts open to the secrets of the vault's users, where it was
/// made of these.
pub fn armed_secrets_open()
    ensures { (r : Rec) (v : Vaults) (a : Armings) (rows : List SecretRowValue) (drawn : List ℕ)
        → AreBytes (arm_draw_size (length rows)) drawn → a.users ≡ users_of rows
        → AreSecretsOf v.users rows
        → AllOpen r v a (store_key drawn) (once_key drawn) (file_of drawn rows) }
{}

/// The plan of an arming asks nothing of a board or of its world.
pub fn what_arms_may_be_asked()
    ensures sound { (slots : ℕ) (drawn : List ℕ) (rows : List SecretRowValue)
        → AllSound slots (arming_of drawn rows) }
    ensures applies { (w : Worlds) (drawn : List ℕ) (rows : List SecretRowValue)
        → AllApply w (arming_of drawn rows) }
{}

/// In a world that holds a record for a vault a resume finds what is armed in the vault: the secret
/// of each armed user where the boot is good, and no file at fault.
pub fn armed_users_are_resumed()
    ensures unarmed { (w : Worlds) (r : Rec) (v : Vaults) (boot : ℕ) → IsRecord r → Holds w r v
        → v.arming ≡ None → resume_end r boot w ≡ NotArmed }
    ensures expired { (w : Worlds) (r : Rec) (v : Vaults) (boot : ℕ) (a : Armings) → IsRecord r
        → Holds w r v → v.arming ≡ Some a → is_good a.boot boot ≡ false
        → resume_end r boot w ≡ Expired a.boot boot }
    ensures resumed { (w : Worlds) (r : Rec) (v : Vaults) (boot : ℕ) (a : Armings) → IsRecord r
        → Holds w r v → v.arming ≡ Some a → is_good a.boot boot ≡ true
        → (rows : List SecretRowValue) × (resume_end r boot w ≡ Resumed rows)
        × (users_of rows ≡ a.users) × AreSecretsOf v.users rows }
{}
