//! How long a secret that was guessed wrong rests.
ghost use Rattle.std.specs.Prelude.{◌≡◌, ◌≤◌, ◌<◌, ◌^◌};
ghost use Rattle.ls_weaver.specs.Throttle.{timeout};

/// Milliseconds.
const HALF_A_MINUTE: u64 = 30_000;

const A_DAY: u64 = 86_400_000;

/// Milliseconds of rest after so many failures in a row.
#[tactic(auto, unfolding(crate::specs::Throttle::timeout))]
pub fn timeout(fails: u32) -> u64
    ensures same { result ≡ timeout fails }
{
    if fails < 5 {
        0
    } else if fails == 5 {
        HALF_A_MINUTE
    } else if fails < 10 {
        0
    } else if fails < 30 {
        HALF_A_MINUTE
    } else if fails < 140 {
        HALF_A_MINUTE * doubled((fails - 30) / 10)
    } else {
        A_DAY
    }
}

/// Two to this power.
fn doubled(times: u32) -> u64
    requires { times < 11 }
    ensures power { result ≡ 2 ^ times }
    ensures most { result ≤ 1024 }
{
    1 << times
}
