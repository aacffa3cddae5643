//! Fresh numbers are odd and the first that aren't taken.
ghost use Rattle.std.specs.Prelude.{◌≡◌, ◌<◌, ◌%◌, ◌^◌, ℕ, List, length};
ghost use Rattle.ls_promises.specs.FreshNumbers.{IsFirstFree};
ghost use Rattle.ls_vault.specs.Fresh.{odd, fresh};

/// A fresh number is odd, has 64 bits, and is the first that isn't taken, from the drawn one on.
pub fn fresh_numbers_are_first()
    ensures first { (d : ℕ) (taken : List ℕ) → d < 2 ^ 64 → length taken < 2 ^ 63
        → IsFirstFree (odd d) taken (fresh d taken) }
    ensures odd { (d : ℕ) (taken : List ℕ) → d < 2 ^ 64 → fresh d taken % 2 ≡ 1 }
    ensures small { (d : ℕ) (taken : List ℕ) → d < 2 ^ 64 → fresh d taken < 2 ^ 64 }
{}
