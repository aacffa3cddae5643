//! The counter of an id, and what a handle does to it.
ghost use Rattle.std.specs.Prelude.{◌≡◌, ◌≢◌};
ghost use Rattle.ls_board.specs.Gatekeeper.{no_fails, counter_after, counter_answer};
ghost use Rattle.ls_gatekeeper.specs.Answers.{answer_of};

use crate::verify::Verify;
use ls_board::Counter;
use ls_weaver::timeout;

/// No failures.
pub(crate) fn no_fails() -> Counter
    ensures { result ≡ no_fails }
{
    Counter { fails: 0, until: 0 }
}

/// Counts a handle of this id that was right or not, at this moment in milliseconds.
pub(crate) fn count(counter: &mut Counter, sid: u64, right: bool, moment: u64) -> Verify
    ensures answer { answer_of result ≡ counter_answer counter.old sid right moment }
    ensures after { counter.new ≡ counter_after counter.old right moment }
    ensures known { result ≢ Verify.Unknown }
{
    if moment < counter.until {
        return Verify::Throttled(counter.until - moment);
    }
    if right {
        *counter = no_fails();
        return Verify::Accepted(sid);
    }
    counter.fails = counter.fails.saturating_add(1);
    let rest = timeout(counter.fails);
    counter.until = moment.saturating_add(rest);
    Verify::Wrong(rest)
}
