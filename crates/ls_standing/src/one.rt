//! That a world fixes the vault that it stands for, with no code.
ghost use Rattle.std.specs.Prelude.{◌≡◌};
ghost use Rattle.std.specs.List.{AllZip};
ghost use Rattle.ls_board.specs.declared.world.World.{World as Worlds};
ghost use Rattle.ls_vault.specs.declared.vault.Vault.{Vault as Vaults};
ghost use Rattle.ls_vault.specs.Revealed.{shown_length};
ghost use Rattle.ls_standing.specs.SameTexts.{HasSameTexts, TokensFixSecret};
ghost use Rattle.ls_standing.specs.Standing.{StandsFor};
ghost use Rattle.ls_standing.specs.Texts.{AreSameButTexts};

/// A world stands for one vault but for texts, and shows the length of the same PINs. The text of a
/// user's credential leads to one secret, and so do the bytes of each token. With the same texts it
/// is one vault.
pub fn a_world_stands_for_one_vault()
    ensures parts { (w : Worlds) (u v : Vaults) → StandsFor w u → StandsFor w v
        → AreSameButTexts u v }
    ensures shown { (w : Worlds) (u v : Vaults) → StandsFor w u → StandsFor w v
        → AllZip (λ p q. shown_length q ≡ shown_length p) u.users v.users }
    ensures tokens { (w : Worlds) (u v : Vaults) → StandsFor w u → StandsFor w v
        → AllZip TokensFixSecret u.users v.users }
    ensures whole { (w : Worlds) (u v : Vaults) → StandsFor w u → StandsFor w v
        → AllZip HasSameTexts u.users v.users → v ≡ u }
{}
