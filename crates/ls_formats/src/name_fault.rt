//! How far bytes go along with the names of files.
ghost use Rattle.std.specs.Prelude.{◌≡◌, ◌≤◌, ◌<◌, ◌^◌, ◌∷◌, [], true, false, length, IfSome, MatchOption, codes};
ghost use Rattle.ls_formats.specs.Faults.{IsFirstFault};
ghost use Rattle.ls_formats.specs.Format.{ended, IsIn, first_fault};
ghost use Rattle.ls_formats.specs.Rules.{field_then};
ghost use Rattle.ls_formats.specs.declared.field.Rule.TheVariants.{HexDigit};
ghost use Rattle.ls_formats.specs.FileNames.{text_then, one_of, is_zero, part_format, id_format, name_format};

use crate::field::{Rule, behind, good_front, later};

/// The first place at which the bytes are not those of a text, or end.
fn text_fault(text: &[u8], bytes: &[u8]) -> Option<u32>
    requires { length text.now < 2 ^ 31 }
    ensures exact { result ≡ first_fault (text_then text.now ended) bytes.now }
    ensures within { IfSome result (λ at. at ≤ length text.now) }
{
    match text {
        [] => if bytes.is_empty() { None } else { Some(0) },
        [a, text @ ..] => match bytes {
            [] => Some(0),
            [b, bytes @ ..] => {
                if a == b {
                    behind(1, text_fault(text, bytes))
                } else {
                    Some(0)
                }
            }
        },
    }
}

/// The fault of the name of a settings file.
fn settings_fault(bytes: &[u8]) -> Option<u32>
    ensures exact { result ≡
        first_fault (one_of (codes "settings.0") (codes "settings.1" ∷ [])) bytes.now }
{
    later(
        text_fault(b"settings.0", bytes),
        text_fault(b"settings.1", bytes),
    )
}

/// The fault of the name of a part of a user, or of one of a protector.
fn part_fault(of_user: bool, bytes: &[u8]) -> Option<u32>
    ensures exact { result ≡ first_fault (part_format of_user) bytes.now }
    ensures within { IfSome result (λ at. at ≤ 8) }
{
    if of_user {
        user_part_fault(bytes)
    } else {
        protector_part_fault(bytes)
    }
}

fn user_part_fault(bytes: &[u8]) -> Option<u32>
    ensures exact { result ≡ first_fault (part_format true) bytes.now }
    ensures within { IfSome result (λ at. at ≤ 8) }
{
    let last = later(text_fault(b"p1", bytes), text_fault(b"resume", bytes));
    later(
        text_fault(b"handle", bytes),
        later(text_fault(b"e0", bytes), last),
    )
}

fn protector_part_fault(bytes: &[u8]) -> Option<u32>
    ensures exact { result ≡ first_fault (part_format false) bytes.now }
    ensures within { IfSome result (λ at. at ≤ 8) }
{
    let last = later(text_fault(b"weaver", bytes), text_fault(b"metrics", bytes));
    let later_parts = later(
        text_fault(b"pwd", bytes),
        later(text_fault(b"secdis", bytes), last),
    );
    later(text_fault(b"spblob", bytes), later_parts)
}

/// The fault of a dot and a part.
fn dot_part_fault(of_user: bool, bytes: &[u8]) -> Option<u32>
    ensures exact { result ≡ first_fault (text_then (codes ".") (part_format of_user)) bytes.now }
    ensures within { IfSome result (λ at. at ≤ 9) }
{
    match bytes {
        [b'.', rest @ ..] => behind(1, part_fault(of_user, rest)),
        _ => Some(0),
    }
}

/// The fault of an id, a dot and a part.
fn id_fault(bytes: &[u8]) -> Option<u32>
    ensures exact { result ≡ first_fault id_format bytes.now }
    ensures within { IfSome result (λ at. at ≤ 25) }
{
    let good = good_front(Rule::HexDigit, bytes);
    if good < 16 {
        return Some(good as u32);
    }
    let (id, rest) = bytes.split_at(16);
    behind(16, dot_part_fault(is_zero(id), rest))
}

/// Whether each digit is 0.
fn is_zero(digits: &[u8]) -> bool
    ensures same { result ≡ is_zero digits.now }
{
    digits.iter().all(|d| *d == b'0')
}

/// The fault of a dot, an id, a dot and a part.
fn dot_id_fault(bytes: &[u8]) -> Option<u32>
    ensures exact { result ≡ first_fault (text_then (codes ".") id_format) bytes.now }
    ensures within { IfSome result (λ at. at ≤ 26) }
{
    match bytes {
        [b'.', rest @ ..] => behind(1, id_fault(rest)),
        _ => Some(0),
    }
}

/// The fault of the name of a protector's file.
fn protector_fault(bytes: &[u8]) -> Option<u32>
    ensures exact { result ≡
        first_fault (field_then 8 HexDigit (λ user. text_then (codes ".") id_format)) bytes.now }
{
    let good = good_front(Rule::HexDigit, bytes);
    if good < 8 {
        return Some(good as u32);
    }
    behind(8, dot_id_fault(&bytes[8..]))
}

/// The first place at which the bytes leave the names of files.
pub(crate) fn name_fault(bytes: &[u8]) -> Option<u32>
    ensures exact { result ≡ first_fault name_format bytes.now }
    ensures first { MatchOption result (IsIn name_format bytes.now)
        (IsFirstFault (IsIn name_format) bytes.now) }
{
    later(settings_fault(bytes), protector_fault(bytes))
}
