//! Moments, of which the last one stays.
ghost use Rattle.std.specs.Prelude.{◌≡◌, ◌≤◌, drop, length};
ghost use Rattle.ls_tape.specs.Tape.{next_moment, later_moments};

/// The next moment, 0 where there is none.
pub fn next_moment(moments: &[u64]) -> u64
    ensures next { result ≡ next_moment moments.now }
{
    match moments {
        [] => 0,
        [moment, ..] => *moment,
    }
}

/// How many moments are gone after the next one was taken: one, or none where it is the last.
pub fn moments_taken(moments: &[u64]) -> usize
    ensures left { drop result moments.now ≡ later_moments moments.now }
    ensures within { result ≤ length moments.now }
{
    match moments {
        [_, _, ..] => 1,
        _ => 0,
    }
}

/// The moments that are left after the next one was taken.
pub fn later_moments(moments: &[u64]) -> &[u64]
    ensures left { result.now ≡ later_moments moments.now }
{
    &moments[moments_taken(moments)..]
}
