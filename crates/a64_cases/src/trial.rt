//! One run of a case.

ghost use Rattle.std.specs.Prelude.{◌<◌};

use a64_run::{MemSink, MemSource, Ran, run};
use std::alloc::{AllocError, Global};

/// How the streams of a run behave.
#[derive(Clone, Copy)]
pub struct Streams<'a> {
    /// The most bytes that a call moves.
    pub pieces: usize,
    /// The numbers of the reads that fail, from 1.
    pub failing_reads: &'a [u64],
    /// The numbers of the writes that fail, from 1.
    pub failing_writes: &'a [u64],
    /// The numbers of the writes to standard error that fail, from 1.
    pub failing_lines: &'a [u64],
    /// The bytes that the sink has room for.
    pub room: usize,
    ghost moves: { 0 < pieces },
}

/// How a run went: what cases say of it. What it kept goes no further than here but for the bytes of its code, since the
/// proof of each function that hands a whole file on is long.
#[derive(Drop)]
pub struct Outcome {
    /// Its status.
    pub status: u8,
    /// Whether the file is kept.
    pub keeps_file: bool,
    /// The bytes of the code that is kept.
    pub code: Option<Vec<u8>>,
    /// What it wrote.
    pub sink: MemSink,
    /// What it wrote to standard error.
    pub errs: MemSink,
}

impl Outcome {
    /// What cases say of what a run answered and wrote.
    fn new(ran: Ran, sink: MemSink, errs: MemSink) -> Outcome {
        let keeps_file = ran.file.is_some()
            || ran.audit.is_some()
            || ran.shown.is_some()
            || ran.link_file.is_some()
            || ran.stub_file.is_some();
        Outcome {
            status: ran.status,
            keeps_file,
            code: ran.code.map(|code| code.bytes),
            sink,
            errs,
        }
    }
}

/// The room for lines on standard error.
const ROOM_FOR_LINES: usize = 4096;

/// Runs a command over a file.
pub fn try_run(
    alloc: Global,
    words: &[String],
    file: &[u8],
    streams: &Streams<'_>,
) -> Result<Outcome, AllocError> {
    let bytes = Vec::from_slice(alloc, file)?;
    let reads = Vec::from_slice(alloc, streams.failing_reads)?;
    let writes = Vec::from_slice(alloc, streams.failing_writes)?;
    let lines = Vec::from_slice(alloc, streams.failing_lines)?;
    let mut source = MemSource::new(bytes, streams.pieces, reads);
    let mut sink = MemSink::new(alloc, streams.room, streams.pieces, writes)?;
    let mut errs = MemSink::new(alloc, ROOM_FOR_LINES, streams.pieces, lines)?;
    let ran = run(alloc, words, &mut source, &mut sink, &mut errs);
    Ok(Outcome::new(ran, sink, errs))
}
