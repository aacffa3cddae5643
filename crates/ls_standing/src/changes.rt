//! The calls that change the vault that a world stands for.
ghost use Rattle.std.specs.Prelude.{◌≡◌, ◌⊎◌, ℕ, true, List, slice_get, None, Some};
ghost use Rattle.std.specs.List.{Contains};
ghost use Rattle.ls_board.specs.declared.action.Action.{Action as Actions};
ghost use Rattle.ls_board.specs.declared.action.Action.TheVariants.{WeaverRead, GkVerify, ResumeTake};
ghost use Rattle.ls_board.specs.declared.world.World.{World as Worlds};
ghost use Rattle.ls_board.specs.declared.devices.Counter.{Counter};
ghost use Rattle.ls_board.specs.Effect.{after};
ghost use Rattle.ls_board.specs.Gatekeeper.{version_of, sid_of, is_signed, record_at, counter_after};
ghost use Rattle.ls_board.specs.Images.{Within, LeavesWithin};
ghost use Rattle.ls_board.specs.Reach.{SameBut};
ghost use Rattle.ls_naming.specs.Current.{Settled};
ghost use Rattle.ls_record.specs.declared.row.UserRow.{UserRow};
ghost use Rattle.ls_record.specs.Rows.{IsRecord};
ghost use Rattle.ls_sealing.specs.Protectors.{has_weaver, is_enrolled, held_number};
ghost use Rattle.ls_settings.specs.Loaded.{Loaded, IsReady, settings_reach};
ghost use Rattle.ls_settings.specs.Commits.{IsCommitImage};
ghost use Rattle.ls_vault.specs.declared.vault.Vault.{Vault};
ghost use Rattle.ls_weaver.specs.declared.slot.Slot.{Slot};
ghost use Rattle.ls_weaver.specs.Slots.{slot_after};
ghost use Rattle.ls_standing.specs.Named.{credential_of};
ghost use Rattle.ls_standing.specs.Asking.{failures_of, counted, IsAsking};
ghost use Rattle.ls_standing.specs.Standing.{Holds, NamedAreUntouched, StandsDurably};

/// Where a world stands durably for a vault, and what the next record names is that of another one
/// and is on the disk, each image of the commit stands for the one or the other. After the commit
/// the world stands for the other.
pub fn a_commit_leaves_one_vault_or_the_other()
    ensures cut { (w image : Worlds) (from to : Loaded) (actions : List Actions) (old new : Vault)
        → IsReady w from → StandsDurably w from.settled old
        → Holds w to.settled.rec new → NamedAreUntouched w to.settled.rec
        → IsCommitImage w from to actions image
        → StandsDurably image from.settled old ⊎ StandsDurably image to.settled new }
    ensures done { (w mid : Worlds) (to : Loaded) (new : Vault)
        → Holds w to.settled.rec new → NamedAreUntouched w to.settled.rec
        → SameBut settings_reach w mid → IsReady mid to → StandsDurably mid to.settled new }
{}

/// The taking of the resume key ends the arming, and changes nothing else. A crash within it leaves
/// the arming or ends it.
pub fn taking_the_resume_key_ends_the_arming()
    ensures done { (w : Worlds) (s : Settled) (v : Vault) → StandsDurably w s v
        → StandsDurably (after w ResumeTake 0) s (record v { arming = None }) }
    ensures within { (w mid : Worlds) (s : Settled) (v : Vault) → StandsDurably w s v
        → Within w ResumeTake mid
        → StandsDurably mid s v ⊎ StandsDurably mid s (record v { arming = None }) }
    ensures cut { (w image : Worlds) (s : Settled) (v : Vault) → StandsDurably w s v
        → LeavesWithin w ResumeTake image
        → StandsDurably image s v ⊎ StandsDurably image s (record v { arming = None }) }
{}

/// Asking the device of a user's credential changes the failures of this user, to those that the
/// device then counts, and changes nothing else. A crash within it leaves the failures as they were,
/// or these.
pub fn asking_a_device_counts_for_its_user()
    ensures reading { (w : Worlds) (s : Settled) (v : Vault) (row : UserRow) (n : ℕ) (slot : Slot)
        (key : List ℕ) (moment : ℕ)
        → IsRecord s.rec → StandsDurably w s v → Contains s.rec.users row
        → held_number w (credential_of row) ≡ Some n → slice_get w.slots n ≡ Some slot
        → StandsDurably (after w (WeaverRead n key moment) 0) s
        (counted v row.user (failures_of (slot_after slot key moment))) }
    ensures check { (w : Worlds) (s : Settled) (v : Vault) (row : UserRow)
        (handle password : List ℕ) (moment : ℕ) (counter : Counter)
        → IsRecord s.rec → StandsDurably w s v → Contains s.rec.users row
        → is_enrolled (has_weaver w) (credential_of row).purpose ≡ true
        → version_of handle ≡ 1 → sid_of handle ≡ row.protector
        → record_at w.gk row.protector ≡ Some counter
        → let then = counter_after counter (is_signed w.gk_key handle password) moment in
        StandsDurably (after w (GkVerify handle password moment) 0) s
        (counted v row.user then) }
    // each device's call is whole or absent
    ensures cut { (w image : Worlds) (s : Settled) (u v : Vault) (a : Actions) → IsAsking a
        → StandsDurably w s u → StandsDurably (after w a 0) s v → LeavesWithin w a image
        → StandsDurably image s u ⊎ StandsDurably image s v }
{}
