//! That what seals passes the checks of opening, with no code.
ghost use Rattle.std.specs.Prelude.{◌≡◌, ◌≢◌, ◌<◌, ◌^◌, ℕ, true, List, Option, Some};
ghost use Rattle.ls_board.specs.declared.world.World.{World as Worlds};
ghost use Rattle.ls_credential.specs.Rules.{KindAndText};
ghost use Rattle.ls_formats.specs.declared.part.FilePart.{FilePart};
ghost use Rattle.ls_record.specs.declared.row.UserRow.{UserRow};
ghost use Rattle.ls_sealing.specs.Protectors.{held, has_weaver, has_part};
ghost use Rattle.ls_sealing.specs.Seals.{Seals, ShowsMetrics, SealsToken};
ghost use Rattle.ls_secret.specs.Secrets.{SecretValue};
ghost use Rattle.ls_standing.specs.Named.{credential_of, token_of, user_file};
ghost use Rattle.ls_standing.specs.Opening.{version_in};
ghost use Rattle.ls_sealing.specs.HeldBytes.{AllHoldBytes};
ghost use Rattle.ls_standing.specs.Sound.{IsSoundFile, IsOwnFile};

/// Each file of a protector that seals passes the checks of opening, where its files hold bytes. A
/// credential's blob says the version of the secret.
pub fn what_seals_passes_the_checks()
    ensures version { (w : Worlds) (row : UserRow) (c : KindAndText) (s : SecretValue)
        → Seals row.protector (held w (credential_of row)) c s → version_in w row ≡ s.version }
    ensures credential { (w : Worlds) (row : UserRow) (c : KindAndText) (s : SecretValue)
        → let p = credential_of row in
        Seals row.protector (held w p) c s → ShowsMetrics (held w p) c s → AllHoldBytes (held w p)
        → c.kind ≡ row.kind → row.protector < 2 ^ 64
        → (part : FilePart) → has_part (has_weaver w) p.purpose part ≡ true
        → IsSoundFile w row (record { user = row.user; id = row.protector; part = part }) }
    ensures token { (w : Worlds) (row : UserRow) (id : ℕ) (p1 : Option (List ℕ))
        (bytes : List ℕ) (s : SecretValue) (p0 : List ℕ)
        → let p = token_of row id in
        SealsToken (held w p) p1 bytes s p0 → AllHoldBytes (held w p)
        → id ≢ row.protector → version_in w row ≡ s.version
        → (part : FilePart) → has_part (has_weaver w) p.purpose part ≡ true
        → IsSoundFile w row (record { user = row.user; id = id; part = part }) }
{}

/// So does each file of a user itself that is as its format and its checks have it.
pub fn own_files_pass_the_checks()
    ensures { (w : Worlds) (row : UserRow) (part : FilePart) (bytes : List ℕ)
        → user_file w row part ≡ Some bytes → IsOwnFile row part bytes
        → IsSoundFile w row (record { user = row.user; id = 0; part = part }) }
{}
