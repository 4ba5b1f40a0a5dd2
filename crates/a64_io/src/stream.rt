//! Sources of bytes and sinks for bytes.

ghost use Rattle.std.specs.Prelude.{◌≡◌, ℕ, ◌<◌, ◌≤◌, List, Option, length, take, IfOk, OnOk, OnErr, IfSome};
ghost use Rattle.a64_io.specs.Streams.{HasFailed, TakesFront, Takes};

/// A read or a write failed.
#[derive(Clone, Copy, Debug, PartialEq, Eq)]
pub struct Failed;

/// Where bytes come from.
pub trait Source {
    /// The bytes that are left, where the source tells them.
    ghost left: { Self → Option (List ℕ) };

    /// How many calls have failed. The count never falls, and rises at a failed call alone.
    ghost faults: { Self → ℕ };

    /// Reads some bytes into the front of a buffer that is not empty, and answers how many; 0 is
    /// the end.
    ///
    /// # Errors
    ///
    /// The read failed, and no byte was taken.
    fn read(&mut self, buf: &mut [u8]) -> Result<usize, Failed>
        requires { 0 < length buf.old }
        ensures few { IfOk result (λ n. n ≤ length buf.old) }
        ensures takes { IfOk result (λ n. IfSome (left self.old)
            (λ text. TakesFront text n buf.new (left self.new))) }
        ensures stays { OnErr result (left self.new ≡ left self.old) }
        ensures rises { faults self.old ≤ faults self.new }
        ensures steady { OnOk result (faults self.new ≡ faults self.old) }
        ensures cause { OnErr result (HasFailed (faults self.old) (faults self.new)) };
}

/// Where bytes go.
pub trait Sink {
    /// The bytes that were taken, where the sink tells them.
    ghost taken: { Self → Option (List ℕ) };

    /// How many calls have failed. The count never falls, and rises at a failed call alone.
    ghost faults: { Self → ℕ };

    /// Takes some bytes from the front of a piece that is not empty, and answers how many: at
    /// least one.
    ///
    /// # Errors
    ///
    /// The write failed, and no byte was taken.
    fn write(&mut self, bytes: &[u8]) -> Result<usize, Failed>
        requires { 0 < length bytes.now }
        ensures some { IfOk result (λ n. (0 < n) × (n ≤ length bytes.now)) }
        ensures takes { IfOk result (λ n. Takes (taken self.old) (taken self.new)
            (take n bytes.now)) }
        ensures stays { OnErr result (taken self.new ≡ taken self.old) }
        ensures rises { faults self.old ≤ faults self.new }
        ensures steady { OnOk result (faults self.new ≡ faults self.old) }
        ensures cause { OnErr result (HasFailed (faults self.old) (faults self.new)) };
}
