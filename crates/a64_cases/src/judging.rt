//! Holds how a run went against what is wanted.

use crate::problem::{Problem, same_bytes, same_number};
use crate::trial::{Outcome, Streams};
use crate::wanted::{Count, Wanted, Words};
use std::alloc::{AllocError, Global};
use std::str;

/// The front of a line that a sink takes, with its line feed, where one of its calls fails.
fn line_taken(alloc: Global, fault: &str, streams: &Streams<'_>) -> Result<Vec<u8>, AllocError> {
    let mut line = Vec::from_slice(alloc, fault.as_bytes())?;
    line.push(b'\n')?;
    if let Some(call) = streams.failing_lines.iter().copied().min() {
        let calls = usize::try_from(call.saturating_sub(1)).unwrap_or(usize::MAX);
        line.truncate(streams.pieces.saturating_mul(calls));
    }
    Ok(line)
}

/// Holds what was written to standard error against what is wanted.
fn judge_line(
    alloc: Global,
    outcome: &Outcome,
    wanted: &Wanted<'_>,
    streams: &Streams<'_>,
) -> Result<(), Problem> {
    let line = match wanted.fault {
        None => Vec::new(alloc),
        Some(fault) => line_taken(alloc, fault, streams)?,
    };
    same_bytes(alloc, "standard error", &line, outcome.errs.bytes())
}

/// Holds what is kept of a run against what is wanted.
fn judge_kept(alloc: Global, outcome: &Outcome, wanted: &Wanted<'_>) -> Result<(), Problem> {
    same_number(
        alloc,
        "whether the file is kept",
        u64::from(wanted.has_file()),
        u64::from(outcome.keeps_file),
    )?;
    same_number(
        alloc,
        "whether the code is kept",
        u64::from(wanted.has_code()),
        u64::from(outcome.code.is_some()),
    )
}

/// The lines of a report that begin with `word`.
fn word_lines(alloc: Global, report: &str) -> Result<Vec<u8>, AllocError> {
    let mut lines = Vec::new(alloc);
    for line in report.lines() {
        if line.starts_with("word ") {
            lines.extend_from_slice(line.as_bytes())?;
            lines.push(b'\n')?;
        }
    }
    Ok(lines)
}

/// Holds the words of a report, and of the code that is kept, against what is wanted. A summary has no
/// words.
fn judge_words(
    alloc: Global,
    outcome: &Outcome,
    report: &str,
    words: &Words,
) -> Result<(), Problem> {
    let bytes = match &outcome.code {
        Some(bytes) => bytes.as_slice(),
        None => &[],
    };
    if words.bytes.as_slice() != bytes {
        let came = Words::of_bytes(alloc, bytes)?;
        return same_bytes(alloc, "the code", &words.lines, &came.lines);
    }
    if report.starts_with("items ") {
        return Ok(());
    }
    let lines = word_lines(alloc, report)?;
    same_bytes(alloc, "the words", &words.lines, &lines)
}

/// Holds a report against lines that it has among others.
fn judge_lines(alloc: Global, report: &str, lines: &[&str]) -> Result<(), Problem> {
    for wanted in lines {
        if !report.lines().any(|line| line == *wanted) {
            return same_bytes(alloc, "a line", wanted.as_bytes(), b"");
        }
    }
    Ok(())
}

/// Holds a report against lines that it has not.
fn judge_absent(alloc: Global, report: &str, lines: &[&str]) -> Result<(), Problem> {
    for absent in lines {
        if report.lines().any(|line| line == *absent) {
            return same_bytes(
                alloc,
                "a line that is not to be there",
                b"",
                absent.as_bytes(),
            );
        }
    }
    Ok(())
}

/// How many lines of a report begin with a word.
fn count_of(report: &str, word: &str) -> usize {
    report
        .lines()
        .filter(|line| line.split(' ').next() == Some(word))
        .count()
}

/// Holds a report against how many lines it has of some kinds.
fn judge_counts(alloc: Global, report: &str, counts: &[Count<'_>]) -> Result<(), Problem> {
    for wanted in counts {
        let count = count_of(report, wanted.word) as u64;
        same_number(alloc, "how many lines there are", wanted.count, count)?;
    }
    Ok(())
}

/// Holds what the sink has taken against what is wanted.
fn judge_report(alloc: Global, outcome: &Outcome, wanted: &Wanted<'_>) -> Result<(), Problem> {
    let bytes = outcome.sink.bytes();
    if let Some(report) = wanted.report {
        same_bytes(alloc, "the report", report, bytes)?;
    } else if wanted.fault.is_some() {
        same_bytes(alloc, "the report", b"", bytes)?;
    }
    let Ok(report) = str::from_utf8(bytes) else {
        return same_bytes(alloc, "a report that is text", b"", bytes);
    };
    if let Some(words) = wanted.words {
        judge_words(alloc, outcome, report, words)?;
    }
    judge_lines(alloc, report, wanted.lines)?;
    judge_absent(alloc, report, wanted.absent)?;
    judge_counts(alloc, report, wanted.counts)
}

/// Holds how a run went against what is wanted.
pub fn judge(
    alloc: Global,
    outcome: &Outcome,
    wanted: &Wanted<'_>,
    streams: &Streams<'_>,
) -> Result<(), Problem> {
    let status = u64::from(outcome.status);
    judge_line(alloc, outcome, wanted, streams)?;
    same_number(alloc, "the status", u64::from(wanted.status()), status)?;
    judge_report(alloc, outcome, wanted)?;
    judge_kept(alloc, outcome, wanted)
}
