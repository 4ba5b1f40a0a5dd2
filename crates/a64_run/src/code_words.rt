//! Audits, shows and writes words.

ghost use Rattle.std.specs.Prelude.{◌≡◌, ◌^◌, ◌<◌, length, IfOk, IfErr, OnOk};
ghost use Rattle.std.specs.String.{string_bytes};
ghost use Rattle.a64_audit.specs.Entries as Audit;
ghost use Rattle.a64_audit.specs.Verdicts.{IsClean};
ghost use Rattle.a64_formtext.specs.Shown.{IsListing};
ghost use Rattle.a64_run.specs.declared.command.Command.TheVariants as commands;
ghost use Rattle.a64_run.specs.declared.input.Input.TheVariants as inputs;
ghost use Rattle.a64_report.specs.Report.{words_in};
ghost use Rattle.a64_run.specs.Stages.{IsMakingFault};

use crate::ran::Fault;
use a64_audit::{AuditFile, Verdict, audit};
use a64_formtext::shown_listing;
use std::alloc::{AllocError, Global};

/// Whether nothing is wrong with words. It takes no memory.
///
/// # Errors
///
/// What an audit finds first.
pub fn audit_words(file: &AuditFile) -> Result<(), Fault>
    requires { length file.now.words.items < 2 ^ 29 }
    ensures clean { OnOk result (IsClean (Audit.contents_of file.now)) }
    ensures err { IfErr result (IsMakingFault commands.Audit (inputs.Words file.now)) }
{
    match audit(file) {
        Verdict::Clean => Ok(()),
        verdict => Err(Fault::Audit(verdict)),
    }
}

/// The texts of words. No word is refused.
///
/// # Errors
///
/// Want of memory.
pub fn show_words(alloc: Global, file: &AuditFile) -> Result<String, Fault>
    ensures text { IfOk result (λ text. IsListing file.now.words.items (string_bytes text)) }
    ensures err { IfErr result (IsMakingFault commands.Dis (inputs.Words file.now)) }
{
    match shown_listing(alloc, &file.words) {
        Ok(text) => Ok(text),
        Err(_) => Err(Fault::Memory),
    }
}

/// The bytes of words, each with its least byte first.
///
/// # Errors
///
/// Want of memory.
pub fn bytes_of(alloc: Global, words: &[u32]) -> Result<Vec<u8>, AllocError>
    ensures { IfOk result (λ bytes. words_in bytes.items ≡ words.now) }
{
    let mut bytes = Vec::new(alloc);
    for word in words {
        bytes.extend_from_slice(&word.to_le_bytes())?;
    }
    Ok(bytes)
}
