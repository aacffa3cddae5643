//! What the definitions of a script's lines come to, as laws.
ghost use Rattle.std.specs.Prelude.{◌≡◌, ◌++◌, ℕ, List, length};
ghost use Rattle.std.specs.List.{AllByRecursion, flat_map};
ghost use Rattle.ls_lines.specs.Lines.{ended, ended_count, HasNoEnd, parted};

/// A script is its whole lines, each with its 0x0A, and a rest. No line and no rest has a 0x0A, and
/// there is one such parting alone. There are as many whole lines as 0x0A.
pub fn scripts_are_parted()
    ensures joined { (script : List ℕ)
        → script ≡ flat_map ended (parted script).whole ++ (parted script).rest }
    ensures unended { (script : List ℕ)
        → AllByRecursion HasNoEnd (parted script).whole × HasNoEnd (parted script).rest }
    ensures only { (lines : List (List ℕ)) (rest : List ℕ)
        → AllByRecursion HasNoEnd lines → HasNoEnd rest
        → ((parted (flat_map ended lines ++ rest)).whole ≡ lines)
        × ((parted (flat_map ended lines ++ rest)).rest ≡ rest) }
    ensures count { (script : List ℕ) → ended_count script ≡ length (parted script).whole }
{}
