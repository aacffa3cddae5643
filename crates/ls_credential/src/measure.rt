//! The counts of a credential.
ghost use Rattle.std.specs.Prelude.{◌≡◌, ◌≤◌, count_by, length};
ghost use Rattle.ls_credential.specs.Counts.{is_of, count_of};

use crate::credential::Credential;
use crate::metrics::Metrics;
use crate::stretch::longest_stretch;

/// What a byte is: each is of one of these classes.
#[derive(Clone, Copy, Debug)]
enum ByteClass {
    Upper,
    Lower,
    Digit,
    Symbol,
}

impl Credential {
    ghost use Rattle.ls_credential.specs.Counts.{metrics_of};

    /// What the text is made of.
    pub fn metrics(&self) -> Metrics
        ensures same { result ≡ metrics_of self.now }
    {
        let text = self.text.as_slice();
        let upper = count(ByteClass::Upper, text);
        let lower = count(ByteClass::Lower, text);
        let numeric = count(ByteClass::Digit, text);
        let symbols = count(ByteClass::Symbol, text);
        let letters = upper + lower;
        Metrics {
            kind: self.kind,
            length: text.len() as u8,
            letters,
            upper,
            lower,
            numeric,
            symbols,
            non_letter: numeric + symbols,
            non_numeric: letters + symbols,
            run: longest_stretch(text) as u8,
        }
    }
}

/// How many bytes of the text are of the class.
fn count(class: ByteClass, text: &[u8]) -> u8
    requires { length text.now ≤ 16 }
    ensures same { result ≡ count_of class text.now }
    ensures bound { result ≤ 16 }
{
    text.iter().filter(|b| is_of(class, **b)).count() as u8
}

fn is_of(class: ByteClass, b: u8) -> bool
    ensures same { result ≡ is_of class b }
{
    match class {
        ByteClass::Upper => b.is_ascii_uppercase(),
        ByteClass::Lower => b.is_ascii_lowercase(),
        ByteClass::Digit => b.is_ascii_digit(),
        ByteClass::Symbol => !b.is_ascii_alphanumeric(),
    }
}
