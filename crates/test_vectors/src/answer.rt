//! The answer to a row.

use ls_bytes::{Bytes, Memory};
use std::alloc::{AllocError, Global};

/// Why a row has no answer.
#[derive(Clone, Copy)]
pub enum RowFault {
    /// It isn't a function with arguments that the function takes.
    Form,
    /// An argument has another length than the function takes.
    Length,
    /// There was no memory.
    Memory,
}

/// The words of an answer, and what stands in its way. The first fault counts, and what is put behind
/// it isn't printed: so who puts a word or reads an argument needs no look at what became of the one
/// before.
#[derive(Drop)]
pub struct Answer {
    alloc: Global,
    text: String,
    fault: Option<RowFault>,
}

impl Answer {
    /// No word yet.
    pub fn new(alloc: Global) -> Answer {
        Answer {
            alloc,
            text: String::new(alloc),
            fault: None,
        }
    }

    /// The line that is printed.
    pub fn line(&self) -> Result<&str, AllocError> {
        match self.fault {
            None => Ok(self.text.as_str()),
            Some(RowFault::Form) => Ok("no row"),
            Some(RowFault::Length) => Ok("wrong length"),
            Some(RowFault::Memory) => Err(AllocError),
        }
    }

    /// There is no answer for this cause.
    pub fn fails(&mut self, fault: RowFault) {
        if self.fault.is_none() {
            self.fault = Some(fault);
        }
    }

    /// There was no memory for the answer.
    pub fn lacks_memory(&mut self) {
        self.fails(RowFault::Memory);
    }

    /// The row isn't one that has an answer.
    pub fn is_no_row(&mut self) {
        self.fails(RowFault::Form);
    }

    /// What has no answer was done, if there was memory for it.
    pub fn done(&mut self, done: Result<(), Memory>) {
        if done.is_err() {
            self.lacks_memory();
        }
    }

    /// A word behind the others.
    pub fn word(&mut self, word: &str) {
        if put_word(&mut self.text, word).is_err() {
            self.lacks_memory();
        }
    }

    fn made(&mut self, word: Result<String, AllocError>) {
        match word {
            Ok(word) => self.word(word.as_str()),
            Err(_) => self.lacks_memory(),
        }
    }

    /// A decimal number.
    pub fn number(&mut self, number: u64) {
        self.made(format!(in self.alloc; "{number}"));
    }

    /// A word, and a number behind it with a `-` between them.
    pub fn joined(&mut self, word: &str, number: u64) {
        self.made(format!(in self.alloc; "{word}-{number}"));
    }

    /// Two numbers with a `-` between them.
    pub fn pair(&mut self, one: u64, other: u64) {
        self.made(format!(in self.alloc; "{one}-{other}"));
    }

    /// Hex digits, `-` for none.
    pub fn digits(&mut self, bytes: &[u8]) {
        if bytes.is_empty() {
            self.word("-");
        } else {
            self.made(hex::encode(self.alloc, bytes));
        }
    }

    /// The hex digits of bytes, if there was memory for them.
    pub fn bytes(&mut self, bytes: Result<Bytes, Memory>) {
        match bytes {
            Ok(bytes) => self.digits(bytes.as_slice()),
            Err(_) => self.lacks_memory(),
        }
    }

    /// The characters of these bytes.
    pub fn text(&mut self, bytes: &[u8]) {
        self.made(String::from_utf8_lossy(self.alloc, bytes));
    }

    /// Whether something is so.
    pub fn fact(&mut self, fact: bool) {
        self.word(if fact { "yes" } else { "no" });
    }
}

/// Puts a word behind the others, with a space between them.
fn put_word(words: &mut String, word: &str) -> Result<(), AllocError> {
    if !words.is_empty() {
        words.push(' ')?;
    }
    words.push_str(word)
}
