//! What is true of chains, with no code.
ghost use Rattle.std.specs.Prelude.{◌≡◌, ◌<◌, ◌^◌, ℕ, false, List, Option, Some, Ok, is_some};
ghost use Rattle.std.specs.Prelude.{bytes_eq};
ghost use Rattle.std.specs.Option.{option_and_then};
ghost use Rattle.ls_credential.specs.declared.kind.Kind.{Kind as Kinds};
ghost use Rattle.ls_credential.specs.Rules.{KindAndText};
ghost use Rattle.ls_secret.specs.Secrets.{SecretValue, IsSecret};
ghost use Rattle.ls_secret.specs.Escrow.{opened_e0};
ghost use Rattle.ls_formats.specs.declared.part.FilePart.TheVariants.{Pwd, Secdis, Weaver, E0, P1};
ghost use Rattle.ls_board.specs.declared.world.World.{World as Worlds};
ghost use Rattle.ls_sealing.specs.Chain.{stretched};
ghost use Rattle.ls_sealing.specs.Apart.{IsApart, IsTokenApart};
ghost use Rattle.ls_sealing.specs.Protectors.{Held, held, held_number, failures, credential, token};
ghost use Rattle.ls_sealing.specs.Seals.{Seals, SealsToken};
ghost use Rattle.ls_chain.specs.Links.{Links, links_at};
ghost use Rattle.ls_chain.specs.Credentials.{credential_chain};
ghost use Rattle.ls_chain.specs.Rows.{by_row, first_row, credential_rows, credential_secret};
ghost use Rattle.ls_chain.specs.Linked.{AreLinks, AreTokenLinks, HasForm, IsInForm, weaver_value};
ghost use Rattle.ls_chain.specs.Linked.{AreOfferLinks, AreTokenFiles, offered_to};
ghost use Rattle.ls_chain.specs.Offers.{offer_chain};
ghost use Rattle.ls_chain.specs.declared.token.TokenFiles.{TokenFiles as FilesOfToken};
ghost use Rattle.ls_chain.specs.declared.token.TokenEnd.TheVariants.{Opened};
ghost use Rattle.ls_chain.specs.Tokens.{token_files, token_chain};
ghost use Rattle.ls_chain.specs.Attempting.{attempt_end};
ghost use Rattle.ls_chain.specs.TokenAttempts.{token_end};
ghost use Rattle.ls_chain.specs.TokenRows.{token_answer, token_table};
ghost use Rattle.ls_chain.specs.SealedEnds.{protector_of, sealed_end, sealed_token_end};

/// A chain answers the first row of its table that fails, and else the secret that the blob holds.
/// So does an attempt with a token; where none of its rows fails, the token is wrong where the blob
/// doesn't open by its bytes, and else the rows of the user's halves follow.
pub fn the_first_check_that_fails_is_answered()
    ensures credential { (l : Links) (stretched : List ℕ) (value : Option (List ℕ))
        → credential_chain l stretched value ≡ by_row
        (first_row (credential_rows l stretched value)) (credential_secret l stretched value) }
    ensures token { (w : Worlds) (user id : ℕ) (slot : Option ℕ) (token : List ℕ)
        → token_end user id (is_some slot) slot token w ≡
        token_table (links_at w user id) (token_answer slot w) token }
{}

/// Where what is held of a protector seals a secret for a credential or a token, its text is offered
/// to the device and leads to that secret, and no file is at fault.
pub fn what_seals_leads_to_the_secret()
    ensures credential { (id : ℕ) (h : Held) (c : KindAndText) (s : SecretValue) (l : Links)
        (value : Option (List ℕ))
        → Seals id h c s → AreLinks h l value → (h.weaver ≡ false → HasForm h Secdis)
        → credential_chain l (stretched (h.files Pwd) c.text) value ≡ Ok s }
    ensures linked { (w : Worlds) (user id : ℕ) (kind : Kinds)
        → let h = held w (record { user = user; id = id; purpose = credential kind }) in
        AreLinks h (links_at w user id) (weaver_value h) }
    ensures token { (h : Held) (l : Links) (token : List ℕ) (s : SecretValue) (p0 : List ℕ)
        (files : FilesOfToken) (value : Option (List ℕ))
        → SealsToken h (l.files P1) token s p0 → IsSecret s → AreTokenLinks h s p0 l files value
        → token_chain l token files value ≡ Ok (Opened s) }
    ensures offered { (id : ℕ) (h : Held) (c : KindAndText) (s : SecretValue) (l : Links)
        → Seals id h c s → AreOfferLinks h l
        → offer_chain l h.weaver c.kind c.text ≡ Ok (offered_to h c.text) }
    ensures files { (h : Held) (l : Links) (token : List ℕ) (s : SecretValue) (p0 : List ℕ)
        (files : FilesOfToken) → SealsToken h (l.files P1) token s p0 → AreTokenFiles h l files
        → token_files l h.weaver ≡ Ok files }
{}

/// How an attempt ends on a protector that seals, with its slot, where nothing matches by chance and
/// each file that is read on the way is in its format. A text of the kind of the credential that it
/// was sealed for opens exactly where it is that of the credential and the device doesn't rest, and
/// then leads to the secret; where it rests, or the text is another one, the end says for how long
/// the device rests. A token opens exactly by the bytes that it was sealed for, where the user's
/// sealed half opens under the secret to the half that the token seals, and is wrong by all others.
/// No file is found at fault.
pub fn attempts_open_what_is_sealed()
    ensures credential { (w : Worlds) (user id : ℕ) (c d : KindAndText) (s : SecretValue)
        (slot : Option ℕ) (moment : ℕ)
        → let p = protector_of user id (credential c.kind) in
        let h = held w p in
        Seals id h c s → IsApart id h c d → d.kind ≡ c.kind → id < 2 ^ 64
        → HasForm h Pwd → HasForm h Secdis → HasForm h Weaver → slot ≡ held_number w p
        → attempt_end user id (is_some slot) slot c.kind d.text moment w
        ≡ Ok (sealed_end (failures h) s (bytes_eq d.text c.text) moment) }
    ensures token { (w : Worlds) (user id : ℕ) (bytes offered : List ℕ) (s : SecretValue)
        (p0 : List ℕ) (slot : Option ℕ)
        → let p = protector_of user id token in
        let h = held w p in
        let l = links_at w user id in
        SealsToken h (l.files P1) bytes s p0 → IsTokenApart h bytes offered → IsSecret s
        → option_and_then (opened_e0 s) (l.files E0) ≡ Some p0
        → HasForm h Secdis → HasForm h Weaver
        → IsInForm P1 (l.files P1) → IsInForm E0 (l.files E0) → slot ≡ held_number w p
        → token_end user id (is_some slot) slot offered w
        ≡ Ok (sealed_token_end s (bytes_eq offered bytes)) }
{}
