//! What plans that take away ask of a board, with no code.
ghost use Rattle.std.specs.Prelude.{◌<◌, ℕ, List, IfSome};
ghost use Rattle.std.specs.List.{Contains};
ghost use Rattle.ls_board.specs.Runs.{AllSound};
ghost use Rattle.ls_formats.specs.declared.part.FilePart.{FilePart as Parts};
ghost use Rattle.ls_retiring.specs.declared.built.Built.{Built as Builts};
ghost use Rattle.ls_retiring.specs.Retiring.{erasing_all, removing_of, own_removes};

/// The plan that erases protectors asks of a board only that their slots are some of its slots. The
/// plans that remove files ask nothing.
pub fn what_takes_away_may_be_asked()
    ensures erasing { (slots : ℕ) (all : List Builts)
        → ((b : Builts) → Contains all b → IfSome b.place.slot (λ n. n < slots))
        → AllSound slots (erasing_all all) }
    ensures removing { (slots : ℕ) (b : Builts) → AllSound slots (removing_of b) }
    ensures own { (slots user : ℕ) (parts : List Parts)
        → AllSound slots (own_removes user parts) }
{}
