//! The calls that a board in memory is told to fail.
ghost use Rattle.std.specs.Prelude.{◌≡◌};
ghost use Rattle.ls_memboard.specs.Failures.{outcome_at};

use ls_bytes::Rows;

/// A call that fails.
#[derive(Clone, Copy, Debug, PartialEq, Eq)]
pub struct Failure {
    /// The number of the call of `act`, from 0.
    pub call: u64,
    /// Whether it has its whole effect first; else it has none, but that it touches its file.
    pub done: bool,
}

/// The calls that fail. Of several entries for one call the first one counts.
pub type FailureList = Rows<Failure>;

/// How the call of this number fails, if it does: whether it is done first.
pub(crate) fn outcome(failures: &[Failure], call: usize) -> Option<bool>
    ensures first { result ≡ outcome_at failures.now call }
{
    for failure in failures {
        if failure.call == call as u64 {
            return Some(failure.done);
        }
    }
    None
}
