//! Laws of grammars, with no code.

ghost use Rattle.std.specs.Prelude.{◌≡◌, ℕ, List};
ghost use Rattle.ls_grammar.specs.Words.{Row, Line, line_text, IsLine};
ghost use Rattle.ls_grammar.specs.Reads.{IsFurthest, IsLongestPrefix};

/// How far a text goes along with lines is the length of its longest prefix that begins one of
/// them.
pub fn furthest_is_longest()
    ensures { (rows : List Row) (text : List ℕ) (n : ℕ) → IsFurthest (IsLine rows) line_text text n
        → IsLongestPrefix (IsLine rows) line_text text n }
{}
