//! Lives whose worlds stand for their vaults, with no code.
ghost use Rattle.std.specs.Prelude.{◌≡◌, ◌++◌, ◌∷◌, ℕ, List, [], length};
ghost use Rattle.ls_board.specs.declared.world.World.{World as Worlds};
ghost use Rattle.ls_standing.specs.Standing.{StandsFor};
ghost use Rattle.ls_vault.specs.declared.vault.Books.{Books as Kept};
ghost use Rattle.ls_vault.specs.declared.vault.Vault.{Vault as Vaults};
ghost use Rattle.ls_lives.specs.Lives.{Life, AreCounted, first_state, vault_at_end};
ghost use Rattle.ls_lives.specs.Worlds.{HasBooks, IsLeft, IsLife, BeginsOn, AreLives};
ghost use Rattle.ls_lives.specs.Worlds.{image_at_end};

use ls_standing::a_vault_stands_in_storage;

/// What was left of a run is a life, where the run was begun on a world that stands for its vault and
/// has its books.
pub fn what_is_left_of_a_run_is_a_life()
    ensures { (slots : ℕ) (l : Life) → length l.start.slots ≡ slots
        → StandsFor l.start l.vault → HasBooks l.start l.books
        → IsLeft l.start (first_state l) l.image l.count → IsLife slots l }
{}

/// A world that begins on an image stands for the vault of the image, and has its books. So a life
/// that begins on the image of the last one, with the vault that it left, comes behind it.
pub fn lives_follow_each_other()
    ensures stands { (image start : Worlds) (v : Vaults) → BeginsOn image start
        → StandsFor image v → StandsFor start v }
    ensures books { (image start : Worlds) (kept : Kept) → BeginsOn image start
        → HasBooks image kept → HasBooks start kept }
    ensures more { (slots : ℕ) (v : Vaults) (lives : List Life) (l : Life)
        → AreLives slots v lives → IsLife slots l → l.vault ≡ vault_at_end v lives
        → BeginsOn (image_at_end l.start lives) l.start → AreLives slots v (lives ++ l ∷ []) }
{
    a_vault_stands_in_storage();
}

/// Lives are counted: each begins with the vault that the one before left, and each holds what it
/// said.
pub fn lives_are_counted()
    ensures { (slots : ℕ) (v : Vaults) (lives : List Life) → AreLives slots v lives
        → AreCounted slots v lives }
{}
