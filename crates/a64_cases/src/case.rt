//! Cases, and how they are read.

use crate::escapes::append_text;
use crate::problem::Problem;
use crate::wanted::{Count, Wanted, Words};
use std::alloc::{AllocError, Global};

/// A range of lengths of the file, and what a run over so long a front of it gives.
#[derive(Drop)]
pub struct Cut<'a> {
    /// The least length.
    pub first: usize,
    /// The greatest length.
    pub last: usize,
    /// The line on standard error.
    pub fault: Option<&'a str>,
    /// The words, where there is no such line.
    pub words: Words,
}

/// Which runs a case has.
#[derive(Clone, Copy)]
pub enum Runs {
    /// One.
    Once,
    /// Two, which write the same.
    Twice,
    /// One for each read, which fails, and one in which none does.
    EachReadFails,
    /// One for each write, which fails, and one in which none does.
    EachWriteFails,
    /// One for each room that is too small for the report, and one with room enough.
    EachRoomFails,
    /// One over each front of the file.
    EachFront,
    /// One in which a write fails, with so many bytes in the sink then.
    Holding {
        /// The least number of bytes.
        least: usize,
        /// The greatest number of bytes.
        most: usize,
    },
}

/// A case.
#[derive(Drop)]
pub struct Case<'a> {
    /// The words of the command.
    pub command: Vec<String>,
    /// The bytes of the file.
    pub file: Vec<u8>,
    /// The line on standard error.
    pub fault: Option<&'a str>,
    /// All lines of the report, where they are given.
    pub report: Option<Vec<u8>>,
    /// All words of the code, where they are given.
    pub words: Option<Words>,
    /// Lines that the report has among others.
    pub lines: Vec<&'a str>,
    /// Lines that the report has not.
    pub absent: Vec<&'a str>,
    /// How many lines the report has of some kinds.
    pub counts: Vec<Count<'a>>,
    /// The most bytes that a call moves, where there is such a limit.
    pub pieces: usize,
    /// The numbers of the reads that fail.
    pub failing_reads: Vec<u64>,
    /// The numbers of the writes that fail.
    pub failing_writes: Vec<u64>,
    /// The numbers of the writes to standard error that fail.
    pub failing_lines: Vec<u64>,
    /// The bytes that the sink has room for, where that is given.
    pub room: Option<usize>,
    /// Which runs there are.
    pub runs: Runs,
    /// What runs over fronts of the file give.
    pub cuts: Vec<Cut<'a>>,
}

/// A number.
fn number(text: &str) -> Result<u64, Problem> {
    match text.parse::<u64>() {
        Ok(number) => Ok(number),
        Err(_) => Err(Problem::Unreadable("a number that is none")),
    }
}

/// A number of bytes.
fn size(text: &str) -> Result<usize, Problem> {
    match usize::try_from(number(text)?) {
        Ok(size) => Ok(size),
        Err(_) => Err(Problem::Unreadable("a number that is too large")),
    }
}

/// A number, and what stands behind it.
fn numbered(text: &str) -> Result<(u64, &str), Problem> {
    match text.split_once(' ') {
        Some((count, rest)) => Ok((number(count)?, rest)),
        None => Ok((number(text)?, "")),
    }
}

/// Numbers with spaces between.
fn numbers(alloc: Global, text: &str) -> Result<Vec<u64>, Problem> {
    let mut numbers = Vec::new(alloc);
    for one in text.split(' ') {
        numbers.push(number(one)?)?;
    }
    Ok(numbers)
}

/// The words of a command, with spaces between. An empty word is written as two quotation marks.
fn command(alloc: Global, text: &str) -> Result<Vec<String>, AllocError> {
    let mut words = Vec::new(alloc);
    for word in text.split_whitespace() {
        let word = if word == "\"\"" { "" } else { word };
        words.push(String::from_str(alloc, word)?)?;
    }
    Ok(words)
}

/// The two numbers of a range of lengths, and what stands behind them.
fn range(text: &str) -> Result<(usize, usize, &str), Problem> {
    let Some((first, rest)) = text.split_once(' ') else {
        return Err(Problem::Unreadable("a range of lengths that is none"));
    };
    let Some((last, rest)) = rest.split_once(' ') else {
        return Err(Problem::Unreadable("a range of lengths that is none"));
    };
    Ok((size(first)?, size(last)?, rest))
}

/// A range of lengths, and what is to come.
fn read_cut<'a>(alloc: Global, text: &'a str) -> Result<Cut<'a>, Problem> {
    let (first, last, rest) = range(text)?;
    let (mark, rest) = rest.split_once(' ').unwrap_or((rest, ""));
    let (fault, words) = match mark {
        "!" => (Some(rest), Words::new(alloc)),
        "=" => (None, Words::of_text(alloc, rest)?),
        _ => return Err(Problem::Unreadable("a range of lengths that is none")),
    };
    Ok(Cut {
        first,
        last,
        fault,
        words,
    })
}

impl<'a> Case<'a> {
    /// A case of no words and an empty file.
    fn new(alloc: Global) -> Case<'a> {
        Case {
            command: Vec::new(alloc),
            file: Vec::new(alloc),
            fault: None,
            report: None,
            words: None,
            lines: Vec::new(alloc),
            absent: Vec::new(alloc),
            counts: Vec::new(alloc),
            pieces: usize::MAX,
            failing_reads: Vec::new(alloc),
            failing_writes: Vec::new(alloc),
            failing_lines: Vec::new(alloc),
            room: None,
            runs: Runs::Once,
            cuts: Vec::new(alloc),
        }
    }

    /// What a run in which nothing else is done is to give.
    pub fn wanted(&self) -> Wanted<'_> {
        Wanted {
            fault: self.fault,
            report: self.report.as_ref().map(|report| report.as_slice()),
            words: self.words.as_ref(),
            lines: &self.lines,
            absent: &self.absent,
            counts: &self.counts,
            lists: self.lists(),
        }
    }

    /// Whether the command is none of those that assemble, and so makes no code of items.
    pub fn lists(&self) -> bool {
        match self.command.first() {
            Some(word) => !matches!(word.as_str(), "asm" | "gen"),
            None => false,
        }
    }

    /// Appends words that are wanted.
    fn append_words(&mut self, alloc: Global, text: &str) -> Result<(), Problem> {
        let mut words = self.words.take().unwrap_or(Words::new(alloc));
        words.append(alloc, text)?;
        self.words = Some(words);
        Ok(())
    }

    /// Appends text to the report that is wanted.
    fn append_report(&mut self, alloc: Global, text: &str, end: &[u8]) -> Result<(), Problem> {
        let mut report = self.report.take().unwrap_or(Vec::new(alloc));
        report.extend_from_slice(text.as_bytes())?;
        report.extend_from_slice(end)?;
        self.report = Some(report);
        Ok(())
    }

    /// Appends a text with escapes to the file, so many times.
    fn append_file(
        &mut self,
        alloc: Global,
        times: u64,
        text: &str,
        end: &[u8],
    ) -> Result<(), Problem> {
        let mut bytes = Vec::new(alloc);
        append_text(&mut bytes, text)?;
        bytes.extend_from_slice(end)?;
        for _ in 0..times {
            self.file.extend_from_slice(&bytes)?;
        }
        Ok(())
    }

    /// Takes a line of what is given. Answers whether it is one.
    fn take_given(&mut self, alloc: Global, mark: &str, text: &str) -> Result<bool, Problem> {
        match mark {
            "$" => self.command = command(alloc, text)?,
            "|" => self.append_file(alloc, 1, text, b"\n")?,
            "*" => {
                let (times, text) = numbered(text)?;
                self.append_file(alloc, times, text, b"\n")?;
            }
            "+" => {
                let (times, text) = numbered(text)?;
                self.append_file(alloc, times, text, b"")?;
            }
            _ => return Ok(false),
        }
        Ok(true)
    }

    /// Takes a line of what is wanted. Answers whether it is one.
    fn take_wanted(&mut self, alloc: Global, mark: &str, text: &'a str) -> Result<bool, Problem> {
        match mark {
            "=" => self.append_words(alloc, text)?,
            ">" => self.append_report(alloc, text, b"\n")?,
            ">+" => self.append_report(alloc, text, b"")?,
            "?" => self.lines.push(text)?,
            "no" => self.absent.push(text)?,
            "!" => self.fault = Some(text),
            "count" => {
                let (count, word) = numbered(text)?;
                self.counts.push(Count { count, word })?;
            }
            _ => return Ok(false),
        }
        Ok(true)
    }

    /// Takes which call of a stream fails.
    fn take_failing(&mut self, alloc: Global, text: &str) -> Result<(), Problem> {
        let (stream, calls) = text.split_once(' ').unwrap_or((text, ""));
        let calls = numbers(alloc, calls)?;
        match stream {
            "read" => self.failing_reads = calls,
            "write" => self.failing_writes = calls,
            "errs" => self.failing_lines = calls,
            _ => return Err(Problem::Unreadable("a stream that is none")),
        }
        Ok(())
    }

    /// Takes how the streams behave. Answers whether it is that.
    fn take_streams(&mut self, alloc: Global, mark: &str, text: &str) -> Result<bool, Problem> {
        match mark {
            "pieces" => self.pieces = size(text)?,
            "room" => self.room = Some(size(text)?),
            "fails" => self.take_failing(alloc, text)?,
            _ => return Ok(false),
        }
        Ok(true)
    }

    /// Takes which runs there are.
    fn take_runs(&mut self, alloc: Global, mark: &str, text: &'a str) -> Result<(), Problem> {
        let goes_on = match self.runs {
            Runs::Once => true,
            Runs::EachFront => mark == "cut",
            _ => false,
        };
        if !goes_on {
            return Err(Problem::Unreadable("runs that are given twice"));
        }
        self.runs = match (mark, text) {
            ("each", "read fails") => Runs::EachReadFails,
            ("each", "write fails") => Runs::EachWriteFails,
            ("each", "room fails") => Runs::EachRoomFails,
            ("twice", "") => Runs::Twice,
            ("cut", _) => {
                self.cuts.push(read_cut(alloc, text)?)?;
                Runs::EachFront
            }
            ("holds", _) => {
                let (least, most) = text.split_once(' ').unwrap_or((text, ""));
                Runs::Holding {
                    least: size(least)?,
                    most: size(most)?,
                }
            }
            _ => return Err(Problem::Unreadable("a mark that is none")),
        };
        Ok(())
    }

    /// Takes a line behind the title.
    fn take_line(&mut self, alloc: Global, line: &'a str) -> Result<(), Problem> {
        let (mark, text) = line.split_once(' ').unwrap_or((line, ""));
        if self.take_given(alloc, mark, text)?
            || self.take_wanted(alloc, mark, text)?
            || self.take_streams(alloc, mark, text)?
        {
            return Ok(());
        }
        self.take_runs(alloc, mark, text)
    }

    /// Whether something is wanted of a run in which nothing else is done.
    fn wants(&self) -> bool {
        self.fault.is_some()
            || self.report.is_some()
            || self.words.is_some()
            || !self.lines.is_empty()
            || !self.absent.is_empty()
            || !self.counts.is_empty()
    }

    /// Whether calls are to fail, or there is a room.
    fn is_limited(&self) -> bool {
        !self.failing_reads.is_empty() || !self.failing_writes.is_empty() || self.room.is_some()
    }

    /// Nothing, where each line that was given has a meaning beside the others.
    fn check(&self) -> Result<(), Problem> {
        let is_limited = self.is_limited();
        match self.runs {
            Runs::EachFront if self.wants() || is_limited => {
                Err(Problem::Unreadable("more than lengths and what they give"))
            }
            Runs::EachReadFails | Runs::EachWriteFails | Runs::EachRoomFails if is_limited => {
                Err(Problem::Unreadable("calls that fail beside those in turn"))
            }
            Runs::EachFront => Ok(()),
            _ if self.wants() => Ok(()),
            _ => Err(Problem::Unreadable("nothing is wanted")),
        }
    }

    /// The case of several lines, of which the title is none.
    pub fn of_lines(alloc: Global, lines: &[&'a str]) -> Result<Case<'a>, Problem> {
        let mut case = Case::new(alloc);
        for line in lines {
            case.take_line(alloc, *line)?;
        }
        case.check()?;
        Ok(case)
    }

    /// Takes what a command writes that makes no code, behind one mark, or the line on standard error, behind
    /// the other. Answers the line of the file, where one of them is there.
    fn take_listed(
        &mut self,
        alloc: Global,
        line: &'a str,
        word: &str,
        marks: (&str, &str),
    ) -> Result<Option<&'a str>, Problem> {
        let (done, refused) = marks;
        let text = if let Some((text, fault)) = line.rsplit_once(refused) {
            self.fault = Some(fault);
            text
        } else if let Some((text, listed)) = line.rsplit_once(done) {
            self.append_report(alloc, listed, b"\n")?;
            text
        } else {
            return Ok(None);
        };
        self.command = command(alloc, word)?;
        Ok(Some(text))
    }

    /// The case of one line: a line of a file, and behind ` = ` its words, or behind ` ! ` the line on
    /// standard error; or for `list`, behind ` ~ ` its text, or behind ` ~! ` the line on standard error; or
    /// for `roles`, behind ` @ ` its roles, or behind ` @! ` the line on standard error.
    pub fn of_line(alloc: Global, line: &'a str) -> Result<Case<'a>, Problem> {
        let mut case = Case::new(alloc);
        let text = if let Some(text) = case.take_listed(alloc, line, "list", (" ~ ", " ~! "))? {
            text
        } else if let Some(text) = case.take_listed(alloc, line, "roles", (" @ ", " @! "))? {
            text
        } else if let Some((text, fault)) = line.rsplit_once(" ! ") {
            case.fault = Some(fault);
            text
        } else if let Some((text, words)) = line.rsplit_once(" = ") {
            case.append_words(alloc, words)?;
            text
        } else if let Some(text) = line.strip_suffix(" =") {
            case.append_words(alloc, "")?;
            text
        } else {
            return Err(Problem::Unreadable("nothing is wanted"));
        };
        case.append_file(alloc, 1, text, b"\n")?;
        Ok(case)
    }
}
