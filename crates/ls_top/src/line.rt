//! The lines of a script.
ghost use Rattle.std.specs.Prelude.{◌≡◌, ◌↔◌, ℕ, IfSome, Some};
ghost use Rattle.ls_top.specs.Lines.{IsAddLine, add_line, command_of};

use crate::number::number;
use crate::vault::Command;

/// The command of a line. A line that is no `user-add U plain` has none.
pub fn command_of_line(line: &[u8]) -> Option<Command>
    ensures same { result ≡ command_of line.now }
    ensures exact { (user : ℕ) → (result ≡ Some (Command.Add user)) ↔ IsAddLine line.now user }
{
    match user_in(line) {
        Some(user) => Some(Command::Add { user }),
        None => None,
    }
}

/// The user of a line `user-add U plain`.
fn user_in(line: &[u8]) -> Option<u32>
    ensures read { IfSome result (λ user. line.now ≡ add_line user) }
    ensures only { (user : ℕ) → IsAddLine line.now user → result ≡ Some user }
{
    let operand = line.strip_prefix(b"user-add ")?.strip_suffix(b" plain")?;
    number(operand)
}
