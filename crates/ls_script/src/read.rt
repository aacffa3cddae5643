//! Reading a line: its verb, and then the words of the verb's row.
ghost use Rattle.std.specs.Prelude.{◌≡◌, ◌⊎◌, ◌∷◌, [], None, Err, IfOk, MatchResult};
ghost use Rattle.ls_grammar.specs.Words.{number, a_number, Line, line_text, IsLine};
ghost use Rattle.ls_grammar.specs.LineAnswers.{AgreesOnLine, ReadsLine, first_fault};
ghost use Rattle.ls_grammar.specs.Reading.{read_line, read_words};
ghost use Rattle.ls_grammar.specs.Steps.{AgreesAt};
ghost use Rattle.ls_grammar.specs.declared.fault.LineFault.TheVariants.{Memory};
ghost use Rattle.ls_script.specs.Grammar.{grammar};
ghost use Rattle.ls_script.specs.RowAnswers.{AgreesOnRow};
ghost use Rattle.ls_script.specs.LineWords.{words_of, HasIds};
ghost use Rattle.ls_script.specs.ScriptReading.{reading_of};

use crate::script_line::ScriptLine;
use crate::verb::{Verb, along_verbs, verb_of};
use ls_grammar::{LineFault, Mismatch, Refused, Rest, SHORTEST_CREDENTIAL, first};
use std::alloc::Global;

/// The user that is all that is left.
fn only_user(rest: Rest<'_>) -> Result<u32, Mismatch>
    ensures { AgreesAt (λ user. number user ∷ []) result
        (read_words (a_number ∷ []) rest.entry.at rest.entry.text.now) }
{
    let (user, rest) = rest.number()?;
    rest.end()?;
    Ok(user)
}

fn user_add(rest: Rest<'_>) -> Result<ScriptLine, Refused>
    ensures { AgreesOnRow Verb.UserAdd rest.entry result }
{
    let (user, rest) = rest.number()?;
    let (escrow, rest) = rest.either(b"escrow", b"plain")?;
    rest.end()?;
    Ok(ScriptLine::UserAdd { user, escrow })
}

fn user_drop(rest: Rest<'_>) -> Result<ScriptLine, Refused>
    ensures { AgreesOnRow Verb.UserDrop rest.entry result }
{
    let user = only_user(rest)?;
    Ok(ScriptLine::UserDrop { user })
}

fn unlock(alloc: Global, rest: Rest<'_>) -> Result<ScriptLine, Refused>
    ensures { AgreesOnRow Verb.Unlock rest.entry result }
{
    let (user, rest) = rest.number()?;
    let (given, rest) = rest.credential(0)?;
    rest.end()?;
    given.test()?;
    let credential = given.parse(alloc)?;
    Ok(ScriptLine::Unlock { user, credential })
}

fn change(alloc: Global, rest: Rest<'_>) -> Result<ScriptLine, Refused>
    ensures { AgreesOnRow Verb.Change rest.entry result }
{
    let (user, rest) = rest.number()?;
    let (old, rest) = rest.credential(SHORTEST_CREDENTIAL)?;
    let (new, rest) = rest.credential(0)?;
    rest.end()?;
    old.test()?;
    new.test()?;
    let old = old.parse(alloc)?;
    let new = new.parse(alloc)?;
    Ok(ScriptLine::Change { user, old, new })
}

fn lock(rest: Rest<'_>) -> Result<ScriptLine, Refused>
    ensures { AgreesOnRow Verb.Lock rest.entry result }
{
    let user = only_user(rest)?;
    Ok(ScriptLine::Lock { user })
}

fn status(rest: Rest<'_>) -> Result<ScriptLine, Refused>
    ensures { AgreesOnRow Verb.Status rest.entry result }
{
    let user = only_user(rest)?;
    Ok(ScriptLine::Status { user })
}

fn users(rest: Rest<'_>) -> Result<ScriptLine, Refused>
    ensures { AgreesOnRow Verb.Users rest.entry result }
{
    rest.end()?;
    Ok(ScriptLine::Users)
}

fn token_add(alloc: Global, rest: Rest<'_>) -> Result<ScriptLine, Refused>
    ensures { AgreesOnRow Verb.TokenAdd rest.entry result }
{
    let (user, rest) = rest.number()?;
    let (digits, rest) = rest.hex(1, 64)?;
    rest.end()?;
    let token = digits.bytes(alloc)?;
    Ok(ScriptLine::TokenAdd { user, token })
}

fn token_drop(rest: Rest<'_>) -> Result<ScriptLine, Refused>
    ensures { AgreesOnRow Verb.TokenDrop rest.entry result }
{
    let (user, rest) = rest.number()?;
    let (id, rest) = rest.id()?;
    rest.end()?;
    Ok(ScriptLine::TokenDrop { user, id })
}

fn token_state(rest: Rest<'_>) -> Result<ScriptLine, Refused>
    ensures { AgreesOnRow Verb.TokenState rest.entry result }
{
    let (user, rest) = rest.number()?;
    let (id, rest) = rest.id()?;
    rest.end()?;
    Ok(ScriptLine::TokenState { user, id })
}

fn unlock_token(alloc: Global, rest: Rest<'_>) -> Result<ScriptLine, Refused>
    ensures { AgreesOnRow Verb.UnlockToken rest.entry result }
{
    let (user, rest) = rest.number()?;
    let (id, rest) = rest.id()?;
    let (digits, rest) = rest.hex(1, 64)?;
    rest.end()?;
    let token = digits.bytes(alloc)?;
    Ok(ScriptLine::UnlockToken { user, id, token })
}

fn change_token(alloc: Global, rest: Rest<'_>) -> Result<ScriptLine, Refused>
    ensures { AgreesOnRow Verb.ChangeToken rest.entry result }
{
    let (user, rest) = rest.number()?;
    let (id, rest) = rest.id()?;
    let (digits, rest) = rest.hex(1, 64)?;
    let (new, rest) = rest.credential(0)?;
    rest.end()?;
    new.test()?;
    let new = new.parse(alloc)?;
    let token = digits.bytes(alloc)?;
    Ok(ScriptLine::ChangeToken {
        user,
        id,
        token,
        new,
    })
}

fn escrow_off(rest: Rest<'_>) -> Result<ScriptLine, Refused>
    ensures { AgreesOnRow Verb.EscrowOff rest.entry result }
{
    let user = only_user(rest)?;
    Ok(ScriptLine::EscrowOff { user })
}

fn resume_prepare(rest: Rest<'_>) -> Result<ScriptLine, Refused>
    ensures { AgreesOnRow Verb.ResumePrepare rest.entry result }
{
    rest.end()?;
    Ok(ScriptLine::ResumePrepare)
}

fn resume_arm(rest: Rest<'_>) -> Result<ScriptLine, Refused>
    ensures { AgreesOnRow Verb.ResumeArm rest.entry result }
{
    rest.end()?;
    Ok(ScriptLine::ResumeArm)
}

fn resume(rest: Rest<'_>) -> Result<ScriptLine, Refused>
    ensures { AgreesOnRow Verb.Resume rest.entry result }
{
    rest.end()?;
    Ok(ScriptLine::Resume)
}

fn auto_pin(rest: Rest<'_>) -> Result<ScriptLine, Refused>
    ensures { AgreesOnRow Verb.AutoPin rest.entry result }
{
    let (user, rest) = rest.number()?;
    let (on, rest) = rest.either(b"on", b"off")?;
    rest.end()?;
    Ok(ScriptLine::AutoPin { user, on })
}

fn pin_length(rest: Rest<'_>) -> Result<ScriptLine, Refused>
    ensures { AgreesOnRow Verb.PinLength rest.entry result }
{
    let user = only_user(rest)?;
    Ok(ScriptLine::PinLength { user })
}

fn behind(alloc: Global, verb: Verb, rest: Rest<'_>) -> Result<ScriptLine, Refused>
    ensures { AgreesOnRow verb rest.entry result }
{
    match verb {
        Verb::UserAdd => user_add(rest),
        Verb::UserDrop => user_drop(rest),
        Verb::Unlock => unlock(alloc, rest),
        Verb::Change => change(alloc, rest),
        Verb::Lock => lock(rest),
        Verb::Status => status(rest),
        Verb::Users => users(rest),
        Verb::TokenAdd => token_add(alloc, rest),
        Verb::TokenDrop => token_drop(rest),
        Verb::TokenState => token_state(rest),
        Verb::UnlockToken => unlock_token(alloc, rest),
        Verb::ChangeToken => change_token(alloc, rest),
        Verb::EscrowOff => escrow_off(rest),
        Verb::ResumePrepare => resume_prepare(rest),
        Verb::ResumeArm => resume_arm(rest),
        Verb::Resume => resume(rest),
        Verb::AutoPin => auto_pin(rest),
        Verb::PinLength => pin_length(rest),
    }
}

/// The line of a text, before its column is known to fit.
#[tactic(auto, using(ls_grammar::proofs::AnswerLemmas::got_row, ls_grammar::proofs::AnswerLemmas::no_row,))]
fn read(alloc: Global, text: &[u8]) -> Result<ScriptLine, Refused>
    ensures words { AgreesOnLine words_of result (read_line grammar text.now) }
    ensures ids { IfOk result HasIds }
{
    let (word, rest) = first(text);
    match verb_of(word) {
        Some(verb) => behind(alloc, verb, rest),
        None => Err(Refused::Mismatch(Mismatch {
            at: along_verbs(word),
        })),
    }
}

fn answered(alloc: Global, text: &[u8]) -> Result<ScriptLine, LineFault>
    ensures exact { ReadsLine grammar words_of text.now result }
    ensures same { (result ≡ Err Memory) ⊎ (result ≡ reading_of text.now) }
{
    match read(alloc, text) {
        Ok(line) => Ok(line),
        Err(refused) => Err(refused.fault()),
    }
}

/// The line that is the text.
pub fn line(alloc: Global, text: &[u8]) -> Result<ScriptLine, LineFault>
    ensures exact { ReadsLine grammar words_of text.now result }

    // The answer as a function of the text, but for want of memory.
    ensures same { (result ≡ Err Memory) ⊎ (result ≡ reading_of text.now) }

    // The text of a line whose credentials keep their rules is read as that line.
    ensures again { (l : Line) → IsLine grammar l → line_text l ≡ text.now
        → first_fault l.words ≡ None → MatchResult result (λ s. words_of s ≡ l) (λ e. e ≡ Memory) }
{
    answered(alloc, text)
}
