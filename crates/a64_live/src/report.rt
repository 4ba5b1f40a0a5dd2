//! The report on a file.

use crate::fault::Fault;
use crate::flow::Flow;
use crate::mentions::Registers;
use crate::register::Register;
use crate::span::{Span, spans_of};
use crate::walk::live_before;
use a64_text::read_file;
use std::alloc::{AllocError, Global};

/// Appends the line of a register that is live before the items of these numbers.
fn push_line(out: &mut String, register: Register, spans: &[Span]) -> Result<(), AllocError> {
    write!(out, "{register}:")?;
    for span in spans {
        write!(out, " {span}")?;
    }
    out.push_str(if spans.is_empty() { " -\n" } else { "\n" })
}

/// The report on a file: a line for each register that its items read or define.
///
/// # Errors
///
/// The file is refused, or want of memory.
pub fn report_of(alloc: Global, bytes: &[u8]) -> Result<String, Fault> {
    let file = read_file(alloc, bytes)?;
    let flow = Flow::of_items(alloc, &file.items)?;
    let registers = Registers::of_items(alloc, &file.items)?;
    let mut report = String::new(alloc);
    for (register, mentions) in &registers.mentions {
        let live = live_before(alloc, &flow, mentions)?;
        push_line(&mut report, *register, &spans_of(alloc, &live)?)?;
    }
    Ok(report)
}
