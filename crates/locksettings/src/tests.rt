//! What is taken from standard input, also of a reader that fails.

use crate::input::take_script;
use ls_board::Part;
use ls_top::Status;
use std::alloc::{AllocError, Global};
use std::io::{self, Read};
use std::test::Fail;

/// A reader that gives so many bytes, one at a time, and fails then.
#[derive(Drop)]
struct FailsLate {
    left: u32,
}

impl Read for FailsLate {
    fn read(&mut self, buf: &mut [u8]) -> io::Result<usize> {
        if self.left == 0 {
            return Err(io::ErrorKind::Other.into());
        }
        self.left -= 1;
        match buf.first_mut() {
            Some(b) => {
                *b = b'\n';
                Ok(1)
            }
            None => Ok(0),
        }
    }
}

/// How many bytes are taken, or how the program ends without them.
fn taken<R: Read + Drop>(alloc: Global, reader: R) -> Result<usize, &'static str> {
    match take_script(alloc, reader) {
        Ok(script) => Ok(script.as_slice().len()),
        Err(Status::TooLong) => Err("too long"),
        Err(Status::Fault(Part::Input)) => Err("fault Input"),
        Err(_) => Err("another end"),
    }
}

/// So many empty lines.
fn lines(alloc: Global, len: u32) -> Result<Vec<u8>, AllocError> {
    let mut bytes = Vec::new(alloc);
    bytes.resize(len as usize, b'\n')?;
    Ok(bytes)
}

#[test]
fn input_is_taken_up_to_its_limit(rt: HostRuntime) -> Result<(), Fail> {
    for (len, expected) in [
        (0, Ok(0)),
        (1_048_576, Ok(1_048_576)),
        (1_048_577, Err("too long")),
    ] {
        let bytes = lines(rt.alloc(), len)?;
        assert_eq!(rt; taken(rt.alloc(), bytes.as_slice()), expected, "{len}");
    }
    Ok(())
}

#[test]
fn a_reader_that_fails_is_told(rt: HostRuntime) {
    for left in [0, 3] {
        let failing = FailsLate { left };
        assert_eq!(rt; taken(rt.alloc(), failing), Err("fault Input"), "{left}");
    }
}
