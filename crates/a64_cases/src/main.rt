//! Runs cases that are given as text, and prints each that does not pass, and last how many there were. It ends
//! with status 0 only where there were some, and each passed.
//!
//! A case says what the program over a file is to write: the words of its code, its report, or the line on
//! standard error. `docs/FORMAT.md` says how cases are written.
#![tactic(auto)]

mod case;
mod escapes;
mod judging;
mod problem;
mod runs;
mod trial;
mod wanted;

use case::Case;
use problem::Problem;
use runs::run_case;
use std::alloc::Global;
use std::io::{self, Read};
use std::process::ExitCode;

/// How many cases there were, and how many of them did not pass.
#[derive(Clone, Copy)]
struct Tally {
    cases: u64,
    failed: u64,
}

impl Tally {
    /// No cases.
    fn none() -> Tally {
        Tally {
            cases: 0,
            failed: 0,
        }
    }

    /// These and others.
    fn plus(self, others: Tally) -> Tally {
        Tally {
            cases: self.cases.saturating_add(others.cases),
            failed: self.failed.saturating_add(others.failed),
        }
    }
}

/// Whether a line means nothing.
fn is_idle(line: &str) -> bool {
    line.is_empty() || line.starts_with("#")
}

/// The lines of a block that mean something.
fn lines_of(alloc: Global, block: &str) -> Result<Vec<&str>, Problem> {
    let mut lines = Vec::new(alloc);
    for line in block.split('\n') {
        if !is_idle(line) {
            lines.push(line)?;
        }
    }
    Ok(lines)
}

/// Runs the case of several lines.
fn run_lines(alloc: Global, lines: &[&str]) -> Result<(), Problem> {
    run_case(alloc, &Case::of_lines(alloc, lines)?)
}

/// Runs the case of one line.
fn run_line(alloc: Global, line: &str) -> Result<(), Problem> {
    run_case(alloc, &Case::of_line(alloc, line)?)
}

/// Prints how a case went, if it did not pass, and tallies it.
fn tally_case(rt: &impl Print, title: &str, went: Result<(), Problem>) -> io::Result<Tally> {
    let mut failed = 0;
    if let Err(problem) = went {
        println!(rt; "{title}: {problem}")?;
        failed = 1;
    }
    Ok(Tally { cases: 1, failed })
}

/// Runs the cases of a block: one of several lines, or any number of one line each.
fn run_block(rt: &HostRuntime, block: &str) -> Result<Tally, Problem> {
    let alloc = rt.alloc();
    let lines = lines_of(alloc, block)?;
    if let [first, rest @ ..] = lines.as_slice()
        && let Some(title) = first.strip_prefix("case ")
    {
        return Ok(tally_case(rt, title, run_lines(alloc, rest))?);
    }
    let mut tally = Tally::none();
    for line in &lines {
        tally = tally.plus(tally_case(rt, *line, run_line(alloc, *line))?);
    }
    Ok(tally)
}

/// Runs all cases of a text. Blank lines stand between blocks.
fn run_text(rt: &HostRuntime, text: &str) -> Result<Tally, Problem> {
    let mut tally = Tally::none();
    for block in text.split("\n\n") {
        tally = tally.plus(run_block(rt, block)?);
    }
    Ok(tally)
}

/// Reads the cases and runs them.
fn run_input(rt: &HostRuntime) -> Result<Tally, Problem> {
    let mut bytes = Vec::new(rt.alloc());
    rt.stdin().read_to_end(&mut bytes)?;
    match std::str::from_utf8(&bytes) {
        Ok(text) => run_text(rt, text),
        Err(_) => Err(Problem::Unreadable("cases that are no text")),
    }
}

/// Runs the cases of the standard input, and prints how many there were. Answers whether there were some, and each passed.
fn run_all(rt: &HostRuntime) -> io::Result<bool> {
    match run_input(rt) {
        Ok(tally) if tally.cases > 0 => {
            println!(rt; "{} cases", tally.cases)?;
            Ok(tally.failed == 0)
        }
        Ok(_) => {
            println!(rt; "no cases")?;
            Ok(false)
        }
        Err(problem) => {
            println!(rt; "the cases: {problem}")?;
            Ok(false)
        }
    }
}

fn main(rt: HostRuntime) -> ExitCode {
    match run_all(&rt) {
        Ok(true) => ExitCode::SUCCESS,
        Ok(false) | Err(_) => ExitCode::FAILURE,
    }
}
