//! Laws of commits and of what is current, with no code.
ghost use Rattle.std.specs.Prelude.{◌≡◌, ◌<◌, ℕ, List, slice_index, IfSome, Ok};
ghost use Rattle.ls_formats.specs.declared.side.Side.{Side as Sides};
ghost use Rattle.ls_formats.specs.PartNames.{settings_text};
ghost use Rattle.ls_record.specs.Rows.{IsRecord};
ghost use Rattle.ls_naming.specs.Named.{Files};
ghost use Rattle.ls_naming.specs.Current.{Settled, current};
ghost use Rattle.ls_board.specs.declared.action.Action.{Action as Actions};
ghost use Rattle.ls_board.specs.Reach.{AllTouchOnly};
ghost use Rattle.ls_settings.specs.Commits.{IsCommit};
ghost use Rattle.ls_settings.specs.Loaded.{Loaded, settings_reach};

/// A commit touches settings files alone.
pub fn commits_touch_settings_files_alone()
    ensures { (from to : Loaded) (actions : List Actions) → IsCommit from to actions
        → AllTouchOnly settings_reach actions }
{}

/// Where the settings files hold bytes, the current record keeps its rules.
pub fn current_records_keep_their_rules()
    ensures { (files : Files) (s : Settled)
        → ((side : Sides) → IfSome (files (settings_text side)) (λ bytes. (i : ℕ)
        → slice_index bytes i < 256))
        → current files ≡ Ok s → IsRecord s.rec }
{}
