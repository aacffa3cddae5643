//! What attempts end with, with no code.
ghost use Rattle.std.specs.Prelude.{◌≡◌, ◌≢◌, ℕ, List, Option, Ok, is_some, bytes_eq};
ghost use Rattle.std.specs.List.{AllZip, Contains};
ghost use Rattle.ls_credential.specs.declared.kind.Kind.TheVariants as Kind;
ghost use Rattle.ls_credential.specs.Counts.{metrics_of};
ghost use Rattle.ls_credential.specs.Rules.{KindAndText};
ghost use Rattle.ls_formats.specs.Contents.{metrics_bytes};
ghost use Rattle.ls_record.specs.declared.row.UserRow.{UserRow};
ghost use Rattle.ls_record.specs.Rows.{Rec, IsRecord};
ghost use Rattle.ls_board.specs.declared.world.World.{World as Worlds};
ghost use Rattle.ls_sealing.specs.Apart.{IsApart, IsTokenApart};
ghost use Rattle.ls_sealing.specs.Protectors.{held, held_number};
ghost use Rattle.ls_vault.specs.declared.token.Token.{Token};
ghost use Rattle.ls_vault.specs.declared.user.User.{User};
ghost use Rattle.ls_vault.specs.declared.vault.Vault.{Vault};
ghost use Rattle.ls_standing.specs.Named.{credential_of, token_of};
ghost use Rattle.ls_standing.specs.Standing.{Holds};
ghost use Rattle.ls_chain.specs.Attempting.{attempt_end};
ghost use Rattle.ls_chain.specs.HandleFile.{check_end};
ghost use Rattle.ls_chain.specs.Links.{links_at};
ghost use Rattle.ls_chain.specs.MetricsFile.{metrics_chain};
ghost use Rattle.ls_chain.specs.SealedEnds.{sealed_end, sealed_token_end};
ghost use Rattle.ls_chain.specs.TokenAttempts.{token_end};
ghost use Rattle.ls_attempts.specs.StandingRows.{HoldsRow, failures_of};

/// In a world that stands for a vault, an attempt on a user's credential with a text of its kind, or
/// on a token, with the slot of its protector, ends as the vault says, where nothing matches by
/// chance: while the user rests no text is looked at; the user's own text, and the token's own bytes,
/// open with the user's secret; any other text is one failure more, and other bytes are wrong. No
/// file is found at fault.
pub fn attempts_end_as_the_user_is()
    ensures credential { (w : Worlds) (r : Rec) (row : UserRow) (u : User) (d : KindAndText)
        (slot : Option ℕ) (moment : ℕ)
        → IsRecord r → HoldsRow w r row u
        → IsApart row.protector (held w (credential_of row)) u.credential d → d.kind ≡ row.kind
        → slot ≡ held_number w (credential_of row)
        → attempt_end row.user row.protector (is_some slot) slot row.kind d.text moment w
        ≡ Ok (sealed_end (failures_of u) u.secret (bytes_eq d.text u.credential.text) moment) }
    ensures token { (w : Worlds) (r : Rec) (row : UserRow) (u : User) (t : Token)
        (offered : List ℕ) (slot : Option ℕ)
        → HoldsRow w r row u → Contains u.tokens t
        → IsTokenApart (held w (token_of row t.id)) t.bytes offered
        → slot ≡ held_number w (token_of row t.id)
        → token_end row.user t.id (is_some slot) slot offered w
        ≡ Ok (sealed_token_end u.secret (bytes_eq offered t.bytes)) }
    // the metrics of a user with a credential are shown under its secret
    ensures metrics { (w : Worlds) (r : Rec) (row : UserRow) (u : User)
        → HoldsRow w r row u → row.kind ≢ Kind.Empty
        → metrics_chain (links_at w row.user row.protector) u.secret
        ≡ Ok (metrics_bytes (metrics_of u.credential)) }
    // the handle of a user with a secure id is confirmed, at moment 0
    ensures handle { (w : Worlds) (r : Rec) (row : UserRow) (u : User)
        → IsRecord r → HoldsRow w r row u → u.secure ≢ 0
        → check_end row.user u.secure u.secret w ≡ Ok u.secure }
    // the rows of a record, each with its user
    ensures rows { (w : Worlds) (r : Rec) (v : Vault) → Holds w r v
        → AllZip (HoldsRow w r) r.users v.users }
{}
