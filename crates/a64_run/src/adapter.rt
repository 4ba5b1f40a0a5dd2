//! Sources and sinks over readers and writers of the standard library. They tell no bytes.

ghost use Rattle.std.specs.Prelude.{◌≡◌, ◌<◌, ◌≤◌, None, take, length, IfOk, OnOk, OnErr};
ghost use Rattle.std.specs.Io.KnownBytes.{Keeps, Appends, Consumes, IsAtEnd};
ghost use Rattle.a64_io.specs.Streams.{HasFailed};

use a64_io::{Failed, Sink, Source};
use std::io::{Read, Write};

/// A source over a reader.
#[derive(Drop)]
pub struct ReadSource<R> {
    reader: R,
    faults: u64,
}

impl<R> ReadSource<R> {
    /// A source over this reader.
    pub fn new(reader: R) -> ReadSource<R>
        ensures reader { result.reader ≡ reader }
        ensures faults { result.faults ≡ 0 }
    {
        ReadSource { reader, faults: 0 }
    }
}

impl<R: Read> Source for ReadSource<R> {
    ghost left = { λ _. None };

    ghost faults = { λ s. s.faults };

    fn read(&mut self, buf: &mut [u8]) -> Result<usize, Failed>
        requires { 0 < length buf.old }

        // As of each source.
        ensures few { IfOk result (λ n. n ≤ length buf.old) }
        ensures rises { self.old.faults ≤ self.new.faults }
        ensures steady { OnOk result (self.new.faults ≡ self.old.faults) }
        ensures cause { OnErr result (HasFailed self.old.faults self.new.faults) }

        // What the reader gives is passed on.
        ensures passes { IfOk result (λ n. Consumes (R.remaining self.old.reader)
            (R.remaining self.new.reader) (take n buf.new)) }
        ensures ends { IfOk result (λ n. n ≡ 0 → IsAtEnd (R.remaining self.new.reader)) }
        ensures kept { OnErr result (Keeps (R.remaining self.old.reader)
            (R.remaining self.new.reader)) }
    {
        match self.reader.read(buf) {
            Ok(n) => Ok(n),
            Err(_) => {
                self.faults = self.faults.saturating_add(1);
                Err(Failed)
            }
        }
    }
}

/// A sink over a writer. A writer that takes nothing of a piece has failed.
#[derive(Drop)]
pub struct WriteSink<W> {
    writer: W,
    faults: u64,
}

impl<W> WriteSink<W> {
    /// A sink over this writer.
    pub fn new(writer: W) -> WriteSink<W>
        ensures writer { result.writer ≡ writer }
        ensures faults { result.faults ≡ 0 }
    {
        WriteSink { writer, faults: 0 }
    }
}

impl<W: Write> Sink for WriteSink<W> {
    ghost taken = { λ _. None };

    ghost faults = { λ s. s.faults };

    fn write(&mut self, bytes: &[u8]) -> Result<usize, Failed>
        requires { 0 < length bytes.now }

        // As of each sink.
        ensures some { IfOk result (λ n. (0 < n) × (n ≤ length bytes.now)) }
        ensures rises { self.old.faults ≤ self.new.faults }
        ensures steady { OnOk result (self.new.faults ≡ self.old.faults) }
        ensures cause { OnErr result (HasFailed self.old.faults self.new.faults) }

        // What the writer takes is all that was taken.
        ensures passes { IfOk result (λ n. Appends (W.contents self.old.writer)
            (W.contents self.new.writer) (take n bytes.now)) }
        ensures kept { OnErr result (Keeps (W.contents self.old.writer)
            (W.contents self.new.writer)) }
    {
        match self.writer.write(bytes) {
            Ok(n) if n > 0 => Ok(n),
            Ok(_) | Err(_) => {
                self.faults = self.faults.saturating_add(1);
                Err(Failed)
            }
        }
    }
}
