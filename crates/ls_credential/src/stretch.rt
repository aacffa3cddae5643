//! The longest stretch of a text: bytes side by side, each of which differs from the one before
//! it by one same step.
ghost use Rattle.std.specs.Prelude.{◌≡◌, ◌≤◌, filter, length};
ghost use Rattle.ls_credential.specs.Stretches.{follows, fronts, greatest_length};
ghost use Rattle.ls_credential.specs.Stretches.{is_stretch_of, parts, run_of};

/// How a byte of a stretch follows the one before it.
#[derive(Clone, Copy, Debug)]
enum Step {
    /// It is one less.
    Down,
    /// It is the same.
    Level,
    /// It is one more.
    Up,
}

/// The length of the longest stretch.
#[tactic(auto, using(crate::proofs::StretchLemmas::longest_of_any))]
pub(crate) fn longest_stretch(text: &[u8]) -> usize
    ensures same { result ≡ run_of text.now }
    ensures bound { result ≤ length text.now }
{
    let down = longest_by(Step::Down, text);
    let level = longest_by(Step::Level, text);
    let up = longest_by(Step::Up, text);
    down.max(level).max(up)
}

/// The length of the longest stretch of one step.
fn longest_by(step: Step, text: &[u8]) -> usize
    ensures same { result ≡ greatest_length (filter (is_stretch_of step) (parts text.now)) }
    ensures bound { result ≤ length text.now }
{
    match text {
        [] => 0,
        [_, rest @ ..] => front_by(step, text).max(longest_by(step, rest)),
    }
}

/// The length of the longest stretch of one step that the text begins with.
fn front_by(step: Step, text: &[u8]) -> usize
    ensures same { result ≡ greatest_length (filter (is_stretch_of step) (fronts text.now)) }
    ensures bound { result ≤ length text.now }
{
    match text {
        [] => 0,
        [_] => 1,
        [first, rest @ ..] => {
            if follows(step, *first, rest[0]) {
                1 + front_by(step, rest)
            } else {
                1
            }
        }
    }
}

/// Whether a byte follows another in a stretch of the step.
fn follows(step: Step, first: u8, next: u8) -> bool
    ensures same { result ≡ follows step first next }
{
    match step {
        Step::Down => u16::from(first) == u16::from(next) + 1,
        Step::Level => first == next,
        Step::Up => u16::from(first) + 1 == u16::from(next),
    }
}
