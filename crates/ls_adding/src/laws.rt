//! That a user can be added, with no code.
ghost use Rattle.std.specs.Prelude.{◌≡◌, ◌<◌, ◌^◌, true, [], None, is_some};
ghost use Rattle.ls_board.specs.declared.world.World.{World as Worlds};
ghost use Rattle.ls_credential.specs.declared.kind.Kind.TheVariants.{Empty};
ghost use Rattle.ls_formats.specs.Contents.{AreBytes};
ghost use Rattle.ls_record.specs.declared.edit.Edit.TheVariants.{PutRow};
ghost use Rattle.ls_record.specs.Edits.{changed as edited};
ghost use Rattle.ls_record.specs.Rows.{rec, is_protector_id};
ghost use Rattle.ls_sealing.specs.Building.{FitsSlots};
ghost use Rattle.ls_sealing.specs.Draws.{credential_draw_size};
ghost use Rattle.ls_secret.specs.Secrets.{IsSecret};
ghost use Rattle.ls_settings.specs.Commits.{Prepared};
ghost use Rattle.ls_settings.specs.Loaded.{Loaded, IsReady};
ghost use Rattle.ls_adding.specs.Adding.{NewUser, AddsUser, row_of, user_of, written};

/// In every world in which a commit may begin and whose record has no user, a first user can be
/// added: with any numbers that have their sizes, any slot of the board, and any drawn bytes.
pub fn a_first_user_can_be_added()
    ensures { (w : Worlds) (s : Loaded) (c : Prepared) (n : NewUser) → IsReady w s
        → s.settled.rec ≡ rec [] None
        → c.to.settled.rec ≡ edited (rec [] None) (PutRow (row_of n))
        → n.user < 2 ^ 32 → is_protector_id n.id ≡ true → n.id < 2 ^ 64 → FitsSlots n.slot w
        → IsSecret (user_of n).secret
        → AreBytes (credential_draw_size (is_some n.slot) Empty) n.bytes
        → AddsUser w s (record { before = written w n; commit = c; after = [] }) n }
{}
