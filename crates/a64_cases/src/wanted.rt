//! What a run is to give.

use crate::problem::Problem;
use std::alloc::{AllocError, Global};

/// Words of code: their bytes, and their lines in a report.
#[derive(Drop)]
pub struct Words {
    /// The bytes of the code.
    pub bytes: Vec<u8>,
    /// The lines of the report.
    pub lines: Vec<u8>,
}

impl Words {
    /// No words.
    pub fn new(alloc: Global) -> Words {
        Words {
            bytes: Vec::new(alloc),
            lines: Vec::new(alloc),
        }
    }

    /// Appends a word.
    fn push(&mut self, alloc: Global, word: u32) -> Result<(), AllocError> {
        let place = self.bytes.len();
        let line = format!(in alloc; "word {place} {word:08x}\n")?;
        self.lines.extend_from_slice(line.as_bytes())?;
        self.bytes.extend_from_slice(&word.to_le_bytes())
    }

    /// The words of code.
    pub fn of_bytes(alloc: Global, bytes: &[u8]) -> Result<Words, AllocError> {
        let mut words = Words::new(alloc);
        for four in bytes.chunks_exact(4) {
            if let [a, b, c, d] = four {
                words.push(alloc, u32::from_le_bytes([*a, *b, *c, *d]))?;
            }
        }
        Ok(words)
    }

    /// The words that a text gives, as [`append`](Words::append) reads it.
    pub fn of_text(alloc: Global, text: &str) -> Result<Words, Problem> {
        let mut words = Words::new(alloc);
        words.append(alloc, text)?;
        Ok(words)
    }

    /// Appends words that are given in eight hexadecimal digits each, with a space between.
    pub fn append(&mut self, alloc: Global, text: &str) -> Result<(), Problem> {
        for digits in text.split_whitespace() {
            let word = match u32::from_str_radix(digits, 16) {
                Ok(word) if digits.len() == 8 => word,
                _ => return Err(Problem::Unreadable("a word that has not eight digits")),
            };
            self.push(alloc, word)?;
        }
        Ok(())
    }
}

/// How many lines of a report begin with a word.
#[derive(Clone, Copy)]
pub struct Count<'a> {
    /// How many there are.
    pub count: u64,
    /// The word.
    pub word: &'a str,
}

/// What a run is to give.
#[derive(Clone, Copy)]
pub struct Wanted<'a> {
    /// The line on standard error, without its line feed; none at status 0.
    pub fault: Option<&'a str>,
    /// All that the sink has taken.
    pub report: Option<&'a [u8]>,
    /// All words of the code.
    pub words: Option<&'a Words>,
    /// Lines that the report has among others.
    pub lines: &'a [&'a str],
    /// Lines that the report has not.
    pub absent: &'a [&'a str],
    /// How many lines the report has of some kinds.
    pub counts: &'a [Count<'a>],
    /// Whether the command makes no code.
    pub lists: bool,
}

/// Whether a line on standard error is that of a refused item or file.
fn is_refusal(fault: &str) -> bool {
    !matches!(
        fault,
        "usage error" | "read fault" | "write fault" | "out of memory" | "input too large"
    ) && !fault.starts_with("line ")
}

impl<'a> Wanted<'a> {
    /// A run that is to end with status 0.
    pub fn done() -> Wanted<'a> {
        Wanted {
            fault: None,
            report: None,
            words: None,
            lines: &[],
            absent: &[],
            counts: &[],
            lists: false,
        }
    }

    /// A run that is to end with this line and nothing in its sink.
    pub fn refused(fault: &'a str) -> Wanted<'a> {
        Wanted {
            fault: Some(fault),
            ..Wanted::done()
        }
    }

    /// A run whose write is to fail when the sink has taken these bytes, and that makes no code or some.
    pub fn cut_off(taken: &'a [u8], lists: bool) -> Wanted<'a> {
        Wanted {
            report: Some(taken),
            lists,
            ..Wanted::refused("write fault")
        }
    }

    /// A run that is to give these words.
    pub fn of_words(words: &'a Words) -> Wanted<'a> {
        Wanted {
            words: Some(words),
            ..Wanted::done()
        }
    }

    /// The status with which the run is to end.
    pub fn status(&self) -> u8 {
        match self.fault {
            None => 0,
            Some("usage error") => 2,
            Some("read fault") => 3,
            Some("write fault") => 4,
            Some("out of memory") => 5,
            Some(_) => 1,
        }
    }

    /// Whether the run keeps its file.
    pub fn has_file(&self) -> bool {
        match self.fault {
            None => true,
            Some(fault) => fault == "write fault" || is_refusal(fault),
        }
    }

    /// Whether the run keeps its code.
    pub fn has_code(&self) -> bool {
        !self.lists && matches!(self.fault, None | Some("write fault"))
    }
}
