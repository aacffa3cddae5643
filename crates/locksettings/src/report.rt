//! How the program ends: its exit status, and the line on standard error.
ghost use Rattle.std.specs.Prelude.{◌≡◌, Some};
ghost use Rattle.locksettings.specs.Report.{exit_code, part_text, line_text};

use ls_board::Part;
use ls_bytes::Name;
use ls_top::Status;
use std::fmt;
use std::process::ExitCode;

/// Prints the line of a status that isn't Done, and gives its exit status.
pub fn report(rt: &impl Eprint, status: &Status) -> ExitCode {
    if !matches!(status, Status::Done) {
        // Where even this can't be printed, the exit status still tells it.
        let _ = rt.eprintln(Line(status));
    }
    ExitCode::from(code_of(status))
}

fn code_of(status: &Status) -> u8
    ensures same { result ≡ exit_code status.now }
{
    match status {
        Status::Done => 0,
        Status::Usage => 2,
        Status::Foreign { .. } => 3,
        Status::Fault(_) => 4,
        Status::Memory => 5,
        Status::TooLong => 6,
    }
}

/// The line that tells a status.
#[derive(Clone, Copy)]
struct Line<'a>(&'a Status);

impl fmt::Display for Line<'_> {
    ghost output = { λ line. Some (line_text line.0.now) };

    fn fmt<W: fmt::Write>(&self, f: &mut fmt::Formatter<W>) -> fmt::Result {
        f.write_str("locksettings: ")?;
        match self.0 {
            Status::Done => Ok(()),
            Status::Usage => f.write_str("usage"),
            Status::Foreign { name, at } => {
                let name = text_of(name);
                write!(f, "foreign {name} {at}")
            }
            Status::Fault(part) => {
                let name = name_of(*part);
                write!(f, "fault {name}")
            }
            Status::Memory => f.write_str("memory"),
            Status::TooLong => f.write_str("too long"),
        }
    }
}

fn name_of(part: Part) -> &'static str
    ensures same { result.now ≡ part_text part }
{
    match part {
        Part::Input => "Input",
        Part::Output => "Output",
        Part::Files => "Files",
        Part::Weaver => "Weaver",
        Part::Gatekeeper => "Gatekeeper",
        Part::Keys => "Keys",
        Part::Resume => "Resume",
        Part::Clock => "Clock",
        Part::Noise => "Noise",
    }
}

/// The bytes of a name are printable ones of ASCII, so they are a text.
#[tactic(auto, using(crate::proofs::NameText::is_utf8))]
fn text_of(name: &Name) -> &str
    ensures same { result.now ≡ name.now }
{
    match str::from_utf8(name.as_slice()) {
        Ok(text) => text,
        Err(_) => unreachable!(),
    }
}
