//! The verbs: a line's first words.
ghost use Rattle.std.specs.Prelude.{◌≡◌, map};
ghost use Rattle.std.specs.Option.{option_map};
ghost use Rattle.ls_grammar.specs.Reading.{find_row, verbs_along};
ghost use Rattle.ls_script.specs.Grammar.{grammar, row_of};

use ls_grammar::shared_len;

/// The first word of a line.
#[derive(Clone, Copy, Debug, PartialEq, Eq)]
pub enum Verb {
    UserAdd,
    UserDrop,
    Unlock,
    Change,
    Lock,
    Status,
    Users,
    TokenAdd,
    TokenDrop,
    TokenState,
    UnlockToken,
    ChangeToken,
    EscrowOff,
    ResumePrepare,
    ResumeArm,
    Resume,
    AutoPin,
    PinLength,
}

/// All verbs.
const ALL_VERBS: [Verb; 18] = [
    Verb::UserAdd,
    Verb::UserDrop,
    Verb::Unlock,
    Verb::Change,
    Verb::Lock,
    Verb::Status,
    Verb::Users,
    Verb::TokenAdd,
    Verb::TokenDrop,
    Verb::TokenState,
    Verb::UnlockToken,
    Verb::ChangeToken,
    Verb::EscrowOff,
    Verb::ResumePrepare,
    Verb::ResumeArm,
    Verb::Resume,
    Verb::AutoPin,
    Verb::PinLength,
];

/// The word that the verb is.
fn name_of(verb: Verb) -> &'static [u8]
    ensures { result.now ≡ (row_of verb).verb }
{
    match verb {
        Verb::UserAdd => b"user-add",
        Verb::UserDrop => b"user-drop",
        Verb::Unlock => b"unlock",
        Verb::Change => b"change",
        Verb::Lock => b"lock",
        Verb::Status => b"status",
        Verb::Users => b"users",
        Verb::TokenAdd => b"token-add",
        Verb::TokenDrop => b"token-drop",
        Verb::TokenState => b"token-state",
        Verb::UnlockToken => b"unlock-token",
        Verb::ChangeToken => b"change-token",
        Verb::EscrowOff => b"escrow-off",
        Verb::ResumePrepare => b"resume-prepare",
        Verb::ResumeArm => b"resume-arm",
        Verb::Resume => b"resume",
        Verb::AutoPin => b"auto-pin",
        Verb::PinLength => b"pin-length",
    }
}

/// The verb that the word is.
#[tactic(auto, unfolding(crate::specs::Grammar::grammar))]
pub fn verb_of(word: &[u8]) -> Option<Verb>
    ensures { find_row grammar word.now ≡ option_map row_of result }
{
    first_named(word, &ALL_VERBS)
}

/// The first of the verbs that the word is.
fn first_named(word: &[u8], verbs: &[Verb]) -> Option<Verb>
    ensures { find_row (map row_of verbs.now) word.now ≡ option_map row_of result }
{
    match verbs {
        [] => None,
        [verb, rest @ ..] => {
            if word == name_of(*verb) {
                Some(*verb)
            } else {
                first_named(word, rest)
            }
        }
    }
}

/// How far the word goes along with a verb.
#[tactic(auto, unfolding(crate::specs::Grammar::grammar))]
pub fn along_verbs(word: &[u8]) -> usize
    ensures { result ≡ verbs_along grammar word.now }
{
    furthest_along(word, &ALL_VERBS)
}

/// How far the word goes along with one of the verbs.
fn furthest_along(word: &[u8], verbs: &[Verb]) -> usize
    ensures { result ≡ verbs_along (map row_of verbs.now) word.now }
{
    match verbs {
        [] => 0,
        [verb, rest @ ..] => shared_len(name_of(*verb), word).max(furthest_along(word, rest)),
    }
}
