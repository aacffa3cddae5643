//! A user who keeps its credential: with other tokens, without escrow, with another length shown.
ghost use Rattle.std.specs.Prelude.{◌≡◌, ℕ, Bool, true, List, map, Option};
ghost use Rattle.ls_board.specs.declared.world.World.{World as Worlds};
ghost use Rattle.ls_arming.specs.declared.arming.Arming.{Arming as Armings};
ghost use Rattle.ls_record.specs.declared.row.UserRow.{UserRow};
ghost use Rattle.ls_record.specs.Rows.{IsRow, is_shown_length};
ghost use Rattle.ls_standing.specs.Named.{held_of_row};
ghost use Rattle.ls_standing.specs.Standing.{HoldsUser};
ghost use Rattle.ls_vault.specs.declared.user.User.{User as Users};
ghost use Rattle.ls_vault.specs.Revealed.{shown_length};
ghost use Rattle.ls_vault.specs.TokenChanges.{plain, with_tokens};
ghost use Rattle.ls_vault.specs.declared.token.Token.{Token};
ghost use Rattle.ls_edits.specs.Rows.{with_pin, with_tokens_of, with_its_tokens_of};
ghost use Rattle.ls_edits.specs.Rows.{with_more_tokens, without_escrow};
ghost use Rattle.ls_edits.specs.SoundRows.{SealTheHalf};

/// A row keeps its rules with another length that may be shown, with fewer tokens, and without
/// escrow.
pub fn a_row_keeps_its_rules()
    ensures pin { (row : UserRow) (auto : Bool) (pin : ℕ) → IsRow row
        → is_shown_length row.kind auto pin ≡ true → IsRow (with_pin auto pin row) }
    ensures tokens { (row : UserRow) (keeps : ℕ → Bool) → IsRow row
        → IsRow (with_tokens_of keeps row) }
    ensures escrow { (row : UserRow) → IsRow row → IsRow (without_escrow row) }
{}

/// A world that holds a row for a user holds such a row for the user changed likewise.
pub fn a_user_keeps_what_it_has()
    ensures pin { (w : Worlds) (armed : Option Armings) (row : UserRow) (u : Users) (auto : Bool)
        (pin : ℕ) → pin ≡ shown_length (record u { auto = auto })
        → HoldsUser row (held_of_row w armed row) u
        → HoldsUser (with_pin auto pin row) (held_of_row w armed (with_pin auto pin row))
        (record u { auto = auto }) }
    ensures tokens { (w : Worlds) (armed : Option Armings) (row : UserRow) (u : Users)
        (keeps : ℕ → Bool) → HoldsUser row (held_of_row w armed row) u
        → HoldsUser (with_tokens_of keeps row) (held_of_row w armed (with_tokens_of keeps row))
        (with_its_tokens_of keeps u) }
    // further tokens, which seal the half of the secret that the old ones seal
    ensures more { (w : Worlds) (armed : Option Armings) (row : UserRow) (u : Users)
        (more : List Token) → u.escrow ≡ true → HoldsUser row (held_of_row w armed row) u
        → SealTheHalf w armed row u more
        → let longer = with_more_tokens (map (λ t. t.id) more) row in
        HoldsUser longer (held_of_row w armed longer) (with_tokens more u) }
    ensures escrow { (w : Worlds) (armed : Option Armings) (row : UserRow) (u : Users)
        → HoldsUser row (held_of_row w armed row) u
        → HoldsUser (without_escrow row) (held_of_row w armed (without_escrow row)) (plain u) }
{}
