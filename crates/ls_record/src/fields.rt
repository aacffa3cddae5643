//! The flags and the kind in a row.
ghost use Rattle.std.specs.Prelude.{◌≡◌, ◌&&◌, nat_le, is_some};
ghost use Rattle.ls_record.specs.Rows.{is_secure_id, is_shown_length, is_token_count};
ghost use Rattle.ls_record.specs.Gives.{Gives};
ghost use Rattle.ls_credential.specs.Codes.{kind_of};

use crate::body::BodyReader;
use crate::fault::RecordFault;
use crate::judge::judged;
use ls_credential::Kind;

/// The flags and the kind in a row.
#[derive(Clone, Copy)]
pub(crate) struct Flags {
    pub escrow: bool,
    pub kind: Kind,
    pub auto: bool,
    pub pin: u8,
}

impl<'a> BodyReader<'a> {
    ghost use Rattle.ls_record.specs.Reading.{byte, flag_at, kind_at, auto_at, pin_at, flags_at};

    /// A byte from the first of two numbers to the second.
    pub fn count(&mut self, low: u8, high: u8) -> Result<u8, RecordFault>
        ensures gives { Gives (byte (λ n. nat_le low n && nat_le n high)) self.old result self.new }
    {
        let at = self.at();
        match self.byte() {
            Ok(n) => judged(n, at, is_between(low, n, high), true),
            Err(e) => Err(e),
        }
    }

    /// A flag.
    pub fn flag(&mut self) -> Result<bool, RecordFault>
        ensures gives { Gives flag_at self.old result self.new }
    {
        Ok(self.count(0, 1)? == 1)
    }

    /// The number of a kind of credential.
    fn kind_code(&mut self) -> Result<u8, RecordFault>
        ensures gives { Gives (byte (λ b. is_some (kind_of b))) self.old result self.new }
    {
        let at = self.at();
        match self.byte() {
            Ok(n) => judged(n, at, is_kind(n), true),
            Err(e) => Err(e),
        }
    }

    /// The kind of a credential.
    fn kind(&mut self) -> Result<Kind, RecordFault>
        ensures gives { Gives kind_at self.old result self.new }
    {
        let code = self.kind_code()?;
        Ok(Kind::of_code(code).unwrap_or(Kind::Empty))
    }

    /// Whether the length of a PIN is shown. Format 01 doesn't say it.
    fn auto(&mut self, format: u8) -> Result<bool, RecordFault>
        ensures gives { Gives (auto_at format) self.old result self.new }
    {
        if format == 1 { Ok(false) } else { self.flag() }
    }

    /// The length of a PIN, where it is shown. Format 01 doesn't say it.
    fn pin(&mut self, format: u8, kind: Kind, auto: bool) -> Result<u8, RecordFault>
        ensures gives { Gives (pin_at format kind auto) self.old result self.new }
    {
        if format == 1 {
            Ok(0)
        } else {
            self.shown_length(kind, auto)
        }
    }

    /// The length of a PIN, where it is shown.
    fn shown_length(&mut self, kind: Kind, auto: bool) -> Result<u8, RecordFault>
        ensures gives { Gives (byte (is_shown_length kind auto)) self.old result self.new }
    {
        let at = self.at();
        match self.byte() {
            Ok(n) => judged(n, at, is_shown_length(kind, auto, n), true),
            Err(e) => Err(e),
        }
    }

    /// The number of a row's tokens.
    pub fn token_count(&mut self, escrow: bool) -> Result<u8, RecordFault>
        ensures gives { Gives (byte (is_token_count escrow)) self.old result self.new }
    {
        let at = self.at();
        match self.byte() {
            Ok(n) => judged(n, at, is_token_count(escrow, n), true),
            Err(e) => Err(e),
        }
    }

    /// The flags and the kind in a row.
    #[tactic(auto, unfolding(crate::specs::Reading::flags_at))]
    pub fn flags(&mut self, format: u8) -> Result<Flags, RecordFault>
        ensures gives { Gives (flags_at format) self.old result self.new }
    {
        let escrow = self.flag()?;
        let kind = self.kind()?;
        let auto = self.auto(format)?;
        let pin = self.pin(format, kind, auto)?;
        Ok(Flags {
            escrow,
            kind,
            auto,
            pin,
        })
    }
}

fn is_between(low: u8, n: u8, high: u8) -> bool
    ensures same { result ≡ (nat_le low n && nat_le n high) }
{
    low <= n && n <= high
}

/// Whether it is the number of a kind of credential.
fn is_kind(code: u8) -> bool
    ensures same { result ≡ is_some (kind_of code) }
{
    Kind::of_code(code).is_some()
}

/// Whether a length may stand in a row of this kind and flag.
fn is_shown_length(kind: Kind, auto: bool, n: u8) -> bool
    ensures same { result ≡ is_shown_length kind auto n }
{
    match kind {
        Kind::Pin if auto => n == 0 || (6 <= n && n <= 16),
        _ => n == 0,
    }
}

/// Whether so many tokens may stand in a row.
fn is_token_count(escrow: bool, n: u8) -> bool
    ensures same { result ≡ is_token_count escrow n }
{
    if escrow { n <= 8 } else { n == 0 }
}

/// Whether this may be the secure id of a user with a credential of the kind.
pub(crate) fn is_secure_id(kind: Kind, id: u64) -> bool
    ensures same { result ≡ is_secure_id kind id }
{
    match kind {
        Kind::Empty => id == 0,
        Kind::Pattern | Kind::Pin | Kind::Password => id % 2 == 1,
    }
}
