//! A sink that keeps what it takes.

ghost use Rattle.std.specs.Prelude.{◌≡◌, []};
ghost use Rattle.std.specs.Prelude.{Some};

use a64_run::{Failed, Sink};
use std::alloc::Global;

/// A sink that keeps all bytes. A write fails where there is no memory for its bytes, and nowhere else.
#[derive(Drop)]
pub struct Collector {
    /// What was taken.
    pub bytes: Vec<u8>,
    /// How many writes failed.
    pub faults: u64,
}

impl Collector {
    /// A sink that has taken nothing.
    pub fn new(alloc: Global) -> Collector
        ensures bytes { result.bytes.items ≡ [] }
        ensures faults { result.faults ≡ 0 }
    {
        Collector {
            bytes: Vec::new(alloc),
            faults: 0,
        }
    }
}

impl Sink for Collector {
    ghost taken = { λ s. Some s.bytes.items };

    ghost faults = { λ s. s.faults };

    fn write(&mut self, bytes: &[u8]) -> Result<usize, Failed> {
        if self.bytes.extend_from_slice(bytes).is_ok() {
            return Ok(bytes.len());
        }
        self.faults = self.faults.saturating_add(1);
        Err(Failed)
    }
}
