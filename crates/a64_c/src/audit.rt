//! The call that audits words.

ghost use Rattle.std.specs.Prelude.{◌≡◌, IfOk, map};
ghost use Rattle.a64_audit.specs.Entries.{contents_of};
ghost use Rattle.a64_c.specs.Audited.{IsAudited, audited, pair_of, verdict_answer};

use crate::answer::{Answer, Refusal};
use a64_audit::{AuditFile, Verdict, audit};
use a64_emit::EmitError;
use std::alloc::{AllocError, Global};

/// How many words are too many: those of 2^31 bytes.
const TOO_MANY: usize = 1 << 29;

/// A range of data. Its places are counted in bytes from the first word.
#[repr(C)]
#[derive(Clone, Copy, Debug)]
pub struct Range {
    /// Where it begins.
    pub begin: u32,
    /// Where it ends: the place behind its last byte.
    pub end: u32,
}

/// The ranges as the auditor has them.
fn pairs_of(alloc: Global, ranges: &[Range]) -> Result<Vec<(u32, u32)>, AllocError>
    ensures { IfOk result (λ pairs. pairs.items ≡ map pair_of ranges.now) }
{
    let mut pairs = Vec::new(alloc);
    for range in ranges {
        pairs.push((range.begin, range.end))?;
    }
    Ok(pairs)
}

/// What is audited.
fn audit_file(
    alloc: Global,
    words: &[u32],
    traps: &[u32],
    ranges: &[Range],
) -> Result<AuditFile, AllocError>
    ensures { IfOk result (λ file. contents_of file ≡ audited words.now traps.now ranges.now) }
{
    Ok(AuditFile {
        words: Vec::from_slice(alloc, words)?,
        traps: Vec::from_slice(alloc, traps)?,
        ranges: pairs_of(alloc, ranges)?,
    })
}

/// What is answered of a verdict.
fn answer_of_verdict(verdict: Verdict) -> Answer
    ensures { result ≡ verdict_answer verdict }
{
    let (status, subject) = match verdict {
        Verdict::Clean => (0, 0),
        Verdict::BadRange(index) => (13, index as u64),
        Verdict::UnknownWord(place) => (14, u64::from(place)),
        Verdict::OutOfCode(place) => (15, u64::from(place)),
        Verdict::IntoData(place) => (16, u64::from(place)),
    };
    Answer {
        status,
        subject,
        length: 0,
    }
}

/// Tells what is wrong first with fewer than 2^29 words, as `audit` does: with the places where traps may stand, in
/// bytes, in any order, and with the ranges of data. Nothing is asked of the caller but that its memory is valid.
#[unsafe(no_mangle)]
pub extern "C" fn a64_audit_words(
    alloc: Global,
    words: &[u32],
    traps: &[u32],
    ranges: &[Range],
) -> Answer
    ensures { IsAudited words.now traps.now ranges.now result }
{
    if words.len() >= TOO_MANY {
        return Refusal::Assembly(EmitError::TooLarge).answer();
    }
    match audit_file(alloc, words, traps, ranges) {
        Ok(file) => answer_of_verdict(audit(&file)),
        Err(_) => Refusal::Unread.answer(),
    }
}
