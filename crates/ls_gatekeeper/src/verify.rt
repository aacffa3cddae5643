//! What a verification answers.
use ls_board::Answer;

/// What the Gatekeeper answers to a handle and a password.
#[derive(Clone, Copy, Debug, PartialEq, Eq)]
pub enum Verify {
    /// The handle is that of the password, for this id.
    Accepted(u64),
    /// The password was wrong: the milliseconds that the id rests now.
    Wrong(u64),
    /// The id rests: the milliseconds that are left.
    Throttled(u64),
    /// The handle is of no known version, or its id has no record.
    Unknown,
}

impl From<Verify> for Answer {
    ghost use Rattle.std.specs.Prelude.{◌≡◌};
    ghost use Rattle.ls_gatekeeper.specs.Answers.{answer_of};

    ghost from_gives = { λ v a. a ≡ answer_of v };

    fn from(verify: Verify) -> Answer {
        match verify {
            Verify::Accepted(sid) => Answer::Accepted(sid),
            Verify::Wrong(rest) => Answer::Wrong(rest),
            Verify::Throttled(rest) => Answer::Throttled(rest),
            Verify::Unknown => Answer::Unknown,
        }
    }
}
