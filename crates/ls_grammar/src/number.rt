//! A decimal number of 32 bits, without a leading zero.
ghost use Rattle.std.specs.Prelude.{◌≡◌, ◌+◌, ◌-◌, ◌*◌, ◌^◌, ◌≤◌, ◌<◌, ◌&&◌, nat_lt, length};
ghost use Rattle.std.specs.Prelude.{Some, None, if◌then◌else◌, IfErr};
ghost use Rattle.std.specs.Char.{is_ascii_digit};
ghost use Rattle.ls_grammar.specs.Words.{number};
ghost use Rattle.ls_grammar.specs.Reading.{read_number, read_digits};
ghost use Rattle.ls_grammar.specs.Agreement.{Agrees};

/// The number that is the word, or how much of the word begins one.
#[tactic(auto, unfolding(crate::specs::Reading::read_number))]
pub(crate) fn number_in(word: &[u8]) -> Result<u32, usize>
    ensures value { Agrees number result (read_number word.now) }
    ensures err { IfErr result (λ n. n ≤ length word.now) }
{
    match word {
        [] => Err(0),
        [b'0'] => Ok(0),
        [b'0', ..] => Err(1),
        [_, ..] => digits_in(word),
    }
}

fn digits_in(word: &[u8]) -> Result<u32, usize>
    ensures value { Agrees number result (read_digits 0 0 word.now) }
    ensures err { IfErr result (λ n. n ≤ length word.now) }
{
    let mut n: u32 = 0;
    for (i, b) in word.iter().enumerate() {
        match with_digit(n, *b) {
            Some(more) => n = more,
            None => return Err(i),
        }
    }
    Ok(n)
}

fn with_digit(n: u32, b: u8) -> Option<u32>
    ensures { result ≡ (let more = n * 10 + (b - 48) in
        if (is_ascii_digit b && nat_lt more (2 ^ 32)) then Some more else None) }
{
    if !b.is_ascii_digit() {
        return None;
    }
    let more = u64::from(n) * 10 + u64::from(b - b'0');
    u32::try_from(more).ok()
}
