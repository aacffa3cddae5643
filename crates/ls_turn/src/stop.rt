//! Why a call of a session gives no reply.

use ls_board::Part;

/// What stopped a session.
#[derive(Clone, Copy, Debug, PartialEq, Eq)]
pub enum Cause {
    /// This part of the board failed, and its count rose.
    Fault(Part),
    /// There was no memory.
    Memory,
}

/// Why a call of a session gives no reply. The session serves no more then.
#[derive(Clone, Copy, Debug, PartialEq, Eq)]
pub enum Stop {
    /// This part of the board failed, and its count rose.
    Fault(Part),
    /// There was no memory.
    Memory,
    /// An earlier call of this session stopped, by this cause.
    Stopped(Cause),
}
