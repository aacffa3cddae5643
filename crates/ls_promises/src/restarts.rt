//! A restart begins an empty session.
ghost use Rattle.std.specs.Prelude.{◌≡◌, ℕ, false, []};
ghost use Rattle.ls_vault.specs.Step.{restart};
ghost use Rattle.ls_vault.specs.declared.state.State.{State as States};
ghost use Rattle.ls_vault.specs.declared.vault.Books.{Books as Kept};

/// A restart leaves the vault as it was. Behind it nobody is opened, no token waits, nothing is
/// prepared, and nobody is captured.
pub fn restarts_begin_anew()
    ensures vault { (s : States) (boot : ℕ) (books : Kept)
        → (restart s boot books).vault ≡ s.vault }
    ensures books { (s : States) (boot : ℕ) (books : Kept)
        → (restart s boot books).books ≡ books }
    ensures boot { (s : States) (boot : ℕ) (books : Kept)
        → (restart s boot books).session.boot ≡ boot }
    ensures opened { (s : States) (boot : ℕ) (books : Kept)
        → (restart s boot books).session.opened ≡ [] }
    ensures pending { (s : States) (boot : ℕ) (books : Kept)
        → (restart s boot books).session.pending ≡ [] }
    ensures prepared { (s : States) (boot : ℕ) (books : Kept)
        → (restart s boot books).session.prepared ≡ false }
    ensures captured { (s : States) (boot : ℕ) (books : Kept)
        → (restart s boot books).session.captured ≡ [] }
{}
