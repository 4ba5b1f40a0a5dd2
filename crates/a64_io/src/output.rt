//! Writes whole pieces to a sink.

ghost use Rattle.std.specs.Prelude.{◌≡◌, ◌≤◌, OnOk, OnErr};
ghost use Rattle.a64_io.specs.Streams.{HasFailed, Takes, TakesPart};

use crate::stream::{Failed, Sink};

/// Writes all bytes.
///
/// # Errors
///
/// A write failed; some first bytes may have been taken, but not all.
pub fn write_all<K: Sink>(sink: &mut K, bytes: &[u8]) -> Result<(), Failed>
    ensures all { OnOk result (Takes (K.taken sink.old) (K.taken sink.new) bytes.now) }
    ensures part { OnErr result (TakesPart (K.taken sink.old) (K.taken sink.new) bytes.now) }
    ensures rises { K.faults sink.old ≤ K.faults sink.new }
    ensures steady { OnOk result (K.faults sink.new ≡ K.faults sink.old) }
    ensures cause { OnErr result (HasFailed (K.faults sink.old) (K.faults sink.new)) }
{
    let mut done = 0;
    while done < bytes.len() {
        match sink.write(&bytes[done..]) {
            Ok(n) => done += n,
            Err(failed) => return Err(failed),
        }
    }
    Ok(())
}
