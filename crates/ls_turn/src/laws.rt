//! What keeps all that a session knows, and what such a session is, with no code.
ghost use Rattle.std.specs.Prelude.{◌≡◌, ℕ, List, [], length, IsTrue};
ghost use Rattle.ls_board.specs.declared.action.Action.{Action as Actions};
ghost use Rattle.ls_board.specs.declared.action.Action.TheVariants.{Now, Draw};
ghost use Rattle.ls_board.specs.declared.world.World.{World as Worlds};
ghost use Rattle.ls_board.specs.Acts.{Sight};
ghost use Rattle.ls_board.specs.Images.{Leaves, Within};
ghost use Rattle.ls_naming.specs.Current.{unsettled};
ghost use Rattle.ls_record.specs.Rows.{IsRecord};
ghost use Rattle.ls_serving.specs.Calls.{IsOuter, IsOuterMove};
ghost use Rattle.ls_settings.specs.Loaded.{IsReady, AreUntouched};
ghost use Rattle.ls_standing.specs.Bare.{IsBare};
ghost use Rattle.ls_standing.specs.Standing.{StandsDurably};
ghost use Rattle.ls_vault.specs.declared.state.State.{State};
ghost use Rattle.ls_vault.specs.declared.vault.Vault.{Vault as Vaults};
ghost use Rattle.ls_turn.specs.declared.session.Session.{Session};
ghost use Rattle.ls_turn.specs.Agreeing.{Agrees, AreNamed, retired_files};
ghost use Rattle.ls_turn.specs.Fresh.{IsFresh, HasZeros, opened_state, nothing_loaded};
ghost use Rattle.ls_turn.specs.Fresh.{empty_vault, empty_world};
ghost use Rattle.ls_turn.specs.Serving.{CanServe, KeepsStrange, StandsSomehow};

/// A hearing, a saying and a sync keep all that a session knows: done, or failed with a part of
/// their effect.
pub fn the_calls_of_the_loop_keep_a_session()
    ensures agrees { (w mid : Worlds) (x : Session) (s : State) (a : Actions) → IsOuter a
        → IsOuterMove w a mid → Agrees w x s → Agrees mid x s }
    ensures can { (old new : Sight) (x : Session) (a : Actions) → IsOuter a
        → new.told ≡ old.told → new.slots ≡ old.slots
        → (IsTrue old.told → IsOuterMove old.world a new.world)
        → CanServe old x → CanServe new x }
    ensures bare { (start w mid : Worlds) (x : Session) (a : Actions) → IsOuter a
        → IsOuterMove w a mid → IsBare start w x.settings.settled.rec (retired_files x)
        → IsBare start mid x.settings.settled.rec (retired_files x) }
    ensures strange { (w mid : Worlds) (a : Actions) → IsOuter a → IsOuterMove w a mid
        → KeepsStrange w mid }
{}

/// So do the taking of a moment and a drawing of noise.
pub fn a_moment_or_noise_keeps_a_session()
    ensures now { (w mid : Worlds) (x : Session) (s : State) → Within w Now mid → Agrees w x s
        → Agrees mid x s }
    ensures draw { (w mid : Worlds) (x : Session) (s : State) (len : ℕ) → Within w (Draw len) mid
        → Agrees w x s → Agrees mid x s }
{}

/// Each image of a world in which a session agrees stands for the vault of the state.
pub fn images_stand_for_the_vault_of_a_session()
    ensures { (w image : Worlds) (x : Session) (s : State) → Agrees w x s → Leaves w image
        → StandsSomehow image s.vault }
{}

/// A session as opening leaves it agrees with the vault for which its world stands, the books of
/// the world, and an empty session.
pub fn a_fresh_session_agrees()
    ensures { (w : Worlds) (x : Session) (boot slots : ℕ) (v : Vaults) → IsFresh boot slots x
        → length w.slots ≡ slots → IsRecord x.settings.settled.rec
        → StandsDurably w x.settings.settled v → IsReady w x.settings
        → AreNamed w x.settings.settled.rec x.named.items
        → Agrees w x (opened_state w x.settings.settled boot v) }
{}

/// A board on which nothing is kept but two settings files of 4,096 zeros stands for the empty
/// vault, and a commit may begin there. A session that was opened there agrees with the empty
/// vault, and its calls may be made.
pub fn a_session_of_an_empty_board_agrees()
    ensures stands { (w : Worlds) → HasZeros w → AreUntouched w
        → StandsDurably w unsettled empty_vault × IsReady w nothing_loaded }
    ensures agrees { (w : Worlds) (x : Session) (boot slots : ℕ) → HasZeros w → AreUntouched w
        → IsFresh boot slots x → length w.slots ≡ slots → x.settings ≡ nothing_loaded
        → x.named.items ≡ [] → Agrees w x (opened_state w unsettled boot empty_vault) }
    ensures can { (b : Sight) (x : Session) (boot : ℕ) → IsFresh boot b.slots x
        → x.settings ≡ nothing_loaded → x.named.items ≡ []
        → (IsTrue b.told → HasZeros b.world × AreUntouched b.world) → CanServe b x }
    // there is such a board
    ensures there { (slots : ℕ) → HasZeros (empty_world slots) × AreUntouched (empty_world slots)
        × (length (empty_world slots).slots ≡ slots) }
{}
