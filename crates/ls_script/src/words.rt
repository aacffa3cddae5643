//! Words of a reply, put at its end, each behind a space.
ghost use Rattle.std.specs.Prelude.{◌≡◌, ◌≤◌, ◌+◌, ◌*◌, ◌++◌, ◌∷◌, [], length, OnOk};
ghost use Rattle.std.specs.List.{flat_map};
ghost use Rattle.std.specs.Fmt.{decimal};
ghost use Rattle.hex.specs.Hex.{encode_lower};
ghost use Rattle.ls_grammar.specs.Words.{fixed, number};
ghost use Rattle.ls_script.specs.LineWords.{id_word};
ghost use Rattle.ls_script.specs.ReplyText.{kind_text, metrics_text, secure_word, key_word, Puts};

use itoa::Buffer;
use ls_bytes::{Bytes, Memory, put_bytes, put_u8};
use ls_credential::{Kind, Metrics};
use ls_secret::Subkey;

/// A word as it is.
pub(crate) fn put_word(to: &mut Bytes, word: &[u8]) -> Result<(), Memory>
    ensures { OnOk result (Puts (fixed word.now ∷ []) (1 + length word.now) to.old to.new) }
{
    put_u8(to, b' ')?;
    put_bytes(to, word)?;
    Ok(())
}

/// A number of 64 bits in decimal.
pub(crate) fn put_number(to: &mut Bytes, n: u64) -> Result<(), Memory>
    ensures { OnOk result (Puts (number n ∷ []) 21 to.old to.new) }
{
    let mut buffer = Buffer::new();
    put_word(to, buffer.format(n).as_bytes())?;
    Ok(())
}

/// A number of 32 bits in decimal.
pub(crate) fn put_small(to: &mut Bytes, n: u32) -> Result<(), Memory>
    ensures { OnOk result (Puts (number n ∷ []) 11 to.old to.new) }
{
    let mut buffer = Buffer::new();
    put_word(to, buffer.format(n).as_bytes())?;
    Ok(())
}

/// An id of 16 digits.
pub(crate) fn put_id(to: &mut Bytes, id: u64) -> Result<(), Memory>
    ensures { OnOk result (Puts (id_word id ∷ []) 17 to.old to.new) }
{
    let mut digits = [0; 16];
    encode(&id.to_be_bytes(), &mut digits);
    put_word(to, &digits)?;
    Ok(())
}

/// A secure id, or a dash for none.
pub(crate) fn put_secure(to: &mut Bytes, id: u64) -> Result<(), Memory>
    ensures { OnOk result (Puts (secure_word id ∷ []) 17 to.old to.new) }
{
    if id == 0 {
        put_word(to, b"-")?;
        Ok(())
    } else {
        put_id(to, id)?;
        Ok(())
    }
}

/// A key of 32 or 64 bytes in hex.
pub(crate) fn put_key(to: &mut Bytes, key: &Subkey) -> Result<(), Memory>
    ensures { OnOk result (Puts (key_word key.now ∷ []) 129 to.old to.new) }
{
    match key {
        Subkey::Short(bytes) => {
            let mut digits = [0; 64];
            encode(bytes, &mut digits);
            put_word(to, &digits)?;
            Ok(())
        }
        Subkey::Long(bytes) => {
            let mut digits = [0; 128];
            encode(bytes, &mut digits);
            put_word(to, &digits)?;
            Ok(())
        }
    }
}

/// Bytes as digits of hex, two a byte.
fn encode(bytes: &[u8], digits: &mut [u8])
    requires { length digits.old ≡ 2 * length bytes.now }
    ensures { digits.new ≡ encode_lower bytes.now }
{
    let _ = hex::encode_to_slice(bytes, digits);
}

/// The name of a kind.
pub(crate) fn kind_name(kind: Kind) -> &'static [u8]
    ensures name { result.now ≡ kind_text kind }
    ensures size { length result.now ≤ 8 }
{
    match kind {
        Kind::Empty => b"none",
        Kind::Pattern => b"pattern",
        Kind::Pin => b"pin",
        Kind::Password => b"password",
    }
}

/// The kind and the nine counts, or a dash for none.
pub(crate) fn put_metrics(to: &mut Bytes, metrics: &Option<Metrics>) -> Result<(), Memory>
    ensures { OnOk result (Puts (fixed (metrics_text metrics.now) ∷ []) 45 to.old to.new) }
{
    match metrics {
        None => {
            put_word(to, b"-")?;
            Ok(())
        }
        Some(m) => {
            put_word(to, kind_name(m.kind))?;
            put_count(to, b':', m.length)?;
            put_counts(
                to,
                &[
                    m.letters,
                    m.upper,
                    m.lower,
                    m.numeric,
                    m.symbols,
                    m.non_letter,
                    m.non_numeric,
                    m.run,
                ],
            )?;
            Ok(())
        }
    }
}

/// Counts, each behind a dot.
fn put_counts(to: &mut Bytes, counts: &[u8]) -> Result<(), Memory>
    ensures text { OnOk result (to.new ≡ to.old ++ flat_map (λ n. 0x2e ∷ decimal n) counts.now) }
    ensures size { OnOk result (length to.new ≤ length to.old + 4 * length counts.now) }
{
    for n in counts {
        put_count(to, b'.', *n)?;
    }
    Ok(())
}

/// A count behind a mark.
fn put_count(to: &mut Bytes, mark: u8, n: u8) -> Result<(), Memory>
    ensures text { OnOk result (to.new ≡ to.old ++ (mark ∷ decimal n)) }
    ensures size { OnOk result (length to.new ≤ length to.old + 4) }
{
    let mut buffer = Buffer::new();
    put_u8(to, mark)?;
    put_bytes(to, buffer.format(n).as_bytes())?;
    Ok(())
}
