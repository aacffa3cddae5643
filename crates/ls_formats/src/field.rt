//! Fields of a fixed width, and how far bytes go along with them.
ghost use Rattle.std.specs.Prelude.{◌≡◌, ◌<◌, ◌≤◌, ◌^◌, ◌+◌, length, IfSome};
ghost use Rattle.std.specs.List.{prefix_len};
ghost use Rattle.std.specs.Option.{ForSome};
ghost use Rattle.ls_formats.specs.Format.{later, first_fault};
ghost use Rattle.ls_formats.specs.Rules.{passes, behind, row, width_of};

/// Which bytes may stand in a field.
#[derive(Clone, Copy)]
pub(crate) enum Rule {
    /// Any bytes.
    Any,
    /// Bytes from the first to the second.
    Between(u8, u8),
    /// The number of a kind of credential other than none.
    StoredKind,
    /// A digit of hex text in lower case.
    HexDigit,
}

/// So many bytes, each of which the rule lets stand.
#[derive(Clone, Copy)]
pub(crate) struct Field {
    pub width: u32,
    pub rule: Rule,
}

/// Whether the rule lets the byte stand.
fn passes(rule: Rule, b: u8) -> bool
    ensures same { result ≡ passes rule b }
{
    match rule {
        Rule::Any => true,
        Rule::Between(low, high) => low <= b && b <= high,
        Rule::StoredKind => matches!(b, 1 | 3 | 4),
        Rule::HexDigit => matches!(b, b'0'..=b'9' | b'a'..=b'f'),
    }
}

/// How many bytes at the front the rule lets stand.
pub(crate) fn good_front(rule: Rule, bytes: &[u8]) -> usize
    ensures count { result ≡ prefix_len (passes rule) bytes.now }
    ensures within { result ≤ length bytes.now }
{
    bytes.iter().take_while(|b| passes(rule, **b)).count()
}

/// A place in the bytes behind a front, seen from its beginning.
pub(crate) fn behind(front: u32, at: Option<u32>) -> Option<u32>
    requires { ForSome at (λ k. front + k < 2 ^ 32) }
    ensures same { result ≡ behind front at }
{
    Some(front + at?)
}

/// The first place at which the bytes leave the fields.
#[tactic(auto, using(crate::proofs::FieldLemmas::row_short, crate::proofs::FieldLemmas::row_whole, crate::proofs::FieldLemmas::width_rest))]
pub(crate) fn row_fault(fields: &[Field], bytes: &[u8]) -> Option<u32>
    requires { width_of fields.now < 2 ^ 32 }
    ensures exact { result ≡ first_fault (row fields.now) bytes.now }
    ensures within { IfSome result (λ at. at ≤ width_of fields.now) }
{
    match fields {
        [] => if bytes.is_empty() { None } else { Some(0) },
        [field, rest @ ..] => {
            let good = good_front(field.rule, bytes);
            let width = field.width as usize;
            if good < width {
                Some(good as u32)
            } else {
                behind(field.width, row_fault(rest, &bytes[width..]))
            }
        }
    }
}

/// The later of two faults, where there are two.
pub(crate) fn later(first: Option<u32>, second: Option<u32>) -> Option<u32>
    ensures same { result ≡ later first second }
{
    Some(first?.max(second?))
}
