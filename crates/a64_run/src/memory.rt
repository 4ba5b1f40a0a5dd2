//! Sources and sinks in memory, for tests and for callers that have the bytes.

ghost use Rattle.std.specs.Prelude.{◌≡◌, ℕ, ◌==◌, ◌+◌, ◌-◌, ◌^◌, ◌<◌, ◌≤◌, ◌||◌, min, if◌then◌else◌, List, [], ◌++◌, length, take, drop, Option, None, Some, Ok, IfOk, OnOk, OnErr, is_err, is_ok};
ghost use Rattle.std.specs.List.{list_any};
ghost use Rattle.std.specs.Vec.{vec_capacity};
ghost use Rattle.a64_io.specs.Streams.{HasFailed, TakesFront};

use a64_io::{Failed, Sink, Source};
use std::alloc::{AllocError, Global};

/// Moves some bytes from a place on to the front of a buffer, at most `at_most`. Answers how many.
fn move_front(bytes: &[u8], at: usize, at_most: usize, buf: &mut [u8]) -> usize
    requires { at ≤ length bytes.now }
    ensures count { result ≡ min at_most (min (length buf.old) (length bytes.now - at)) }
    ensures moved { take result buf.new ≡ take result (drop at bytes.now) }
{
    let n = at_most.min(buf.len()).min(bytes.len() - at);
    buf[..n].copy_from_slice(&bytes[at..at + n]);
    n
}

/// A source of bytes in memory, of which given calls fail.
#[derive(Drop)]
pub struct MemSource {
    bytes: Vec<u8>,
    taken: usize,
    at_most: usize,
    fails: Vec<u64>,
    calls: u64,
    faults: u64,
    ghost within: { taken ≤ length bytes.items },
    ghost moves: { 0 < at_most },
}

impl MemSource {
    /// A source of these bytes that gives at most `at_most` bytes in a call. Those calls fail whose
    /// number, counted from 1, is among `fails`; 2^64 - 1 is the number of all calls from there on.
    pub fn new(bytes: Vec<u8>, at_most: usize, fails: Vec<u64>) -> MemSource
        requires { 0 < at_most }
        ensures bytes { drop result.taken result.bytes.items ≡ bytes.items }
        ensures at_most { result.at_most ≡ at_most }
        ensures fails { result.fails ≡ fails }
        ensures calls { result.calls ≡ 0 }
        ensures faults { result.faults ≡ 0 }
    {
        MemSource {
            bytes,
            taken: 0,
            at_most,
            fails,
            calls: 0,
            faults: 0,
        }
    }
}

impl Source for MemSource {
    ghost left = { λ s. Some (drop s.taken s.bytes.items) };

    ghost faults = { λ s. s.faults };

    fn read(&mut self, buf: &mut [u8]) -> Result<usize, Failed>
        requires { 0 < length buf.old }

        // As of each source.
        ensures few { IfOk result (λ n. n ≤ length buf.old) }
        ensures takes { IfOk result (λ n. TakesFront
            (drop self.old.taken self.old.bytes.items) n buf.new
            (Some (drop self.new.taken self.new.bytes.items))) }
        ensures stays { OnErr result (drop self.new.taken self.new.bytes.items
            ≡ drop self.old.taken self.old.bytes.items) }
        ensures rises { self.old.faults ≤ self.new.faults }
        ensures steady { OnOk result (self.new.faults ≡ self.old.faults) }
        ensures cause { OnErr result (HasFailed self.old.faults self.new.faults) }

        // Each call is counted, and exactly the given ones fail.
        ensures counted { self.new.calls ≡ min (self.old.calls + 1) (2 ^ 64 - 1) }
        ensures fails { is_err result ≡ list_any
            (λ call. call == self.new.calls) self.old.fails.items }
        ensures failures { self.new.faults ≡
            (if is_err result then min (self.old.faults + 1) (2 ^ 64 - 1) else self.old.faults) }
        ensures count { IfOk result (λ n. n ≡ min self.old.at_most
            (min (length buf.old) (length (drop self.old.taken self.old.bytes.items)))) }
        ensures same { (self.new.at_most ≡ self.old.at_most)
            × (self.new.fails ≡ self.old.fails) }
    {
        self.calls = self.calls.saturating_add(1);
        if self.fails.contains(&self.calls) {
            self.faults = self.faults.saturating_add(1);
            return Err(Failed);
        }
        let n = move_front(&self.bytes, self.taken, self.at_most, buf);
        self.taken += n;
        Ok(n)
    }
}

/// A sink in memory, of which given calls fail.
#[derive(Drop)]
pub struct MemSink {
    bytes: Vec<u8>,
    room: usize,
    at_most: usize,
    fails: Vec<u64>,
    calls: u64,
    faults: u64,
    ghost fits: { length bytes.items ≤ room },
    ghost reserved: { room ≤ vec_capacity bytes },
    ghost moves: { 0 < at_most },
}

impl MemSink {
    /// A sink that keeps at most `room` bytes in all, and takes at most `at_most` bytes in a call.
    /// Those calls fail that find no room, and those whose number, counted from 1, is among `fails`;
    /// 2^64 - 1 is the number of all calls from there on.
    ///
    /// # Errors
    ///
    /// Want of memory for `room` bytes.
    pub fn new(
        alloc: Global,
        room: usize,
        at_most: usize,
        fails: Vec<u64>,
    ) -> Result<MemSink, AllocError>
        requires { 0 < at_most }
        ensures bytes { IfOk result (λ sink. sink.bytes.items ≡ []) }
        ensures room { IfOk result (λ sink. sink.room ≡ room) }
        ensures at_most { IfOk result (λ sink. sink.at_most ≡ at_most) }
        ensures fails { IfOk result (λ sink. sink.fails ≡ fails) }
        ensures calls { IfOk result (λ sink. sink.calls ≡ 0) }
        ensures faults { IfOk result (λ sink. sink.faults ≡ 0) }
    {
        let bytes = Vec::with_capacity(alloc, room)?;
        Ok(MemSink {
            bytes,
            room,
            at_most,
            fails,
            calls: 0,
            faults: 0,
        })
    }

    /// The bytes that were taken.
    pub fn bytes(&self) -> &[u8]
        ensures { result.now ≡ self.now.bytes.items }
    {
        &self.bytes
    }
}

impl Sink for MemSink {
    ghost taken = { λ s. Some s.bytes.items };

    ghost faults = { λ s. s.faults };

    fn write(&mut self, bytes: &[u8]) -> Result<usize, Failed>
        requires { 0 < length bytes.now }

        // As of each sink.
        ensures some { IfOk result (λ n. (0 < n) × (n ≤ length bytes.now)) }
        ensures takes { IfOk result (λ n. self.new.bytes.items
            ≡ self.old.bytes.items ++ take n bytes.now) }
        ensures stays { OnErr result (self.new.bytes.items ≡ self.old.bytes.items) }
        ensures rises { self.old.faults ≤ self.new.faults }
        ensures steady { OnOk result (self.new.faults ≡ self.old.faults) }
        ensures cause { OnErr result (HasFailed self.old.faults self.new.faults) }

        // Each call is counted, and exactly the given ones fail, and those without room.
        ensures counted { self.new.calls ≡ min (self.old.calls + 1) (2 ^ 64 - 1) }
        ensures fails { is_err result ≡ (list_any
            (λ call. call == self.new.calls) self.old.fails.items
            || (length self.old.bytes.items == self.old.room)) }
        ensures failures { self.new.faults ≡
            (if is_err result then min (self.old.faults + 1) (2 ^ 64 - 1) else self.old.faults) }
        ensures count { IfOk result (λ n. n ≡ min self.old.at_most
            (min (length bytes.now) (self.old.room - length self.old.bytes.items))) }
        ensures same { (self.new.room ≡ self.old.room) × (self.new.at_most ≡ self.old.at_most)
            × (self.new.fails ≡ self.old.fails) }
    {
        self.calls = self.calls.saturating_add(1);
        if self.fails.contains(&self.calls) || self.bytes.len() == self.room {
            self.faults = self.faults.saturating_add(1);
            return Err(Failed);
        }
        let n = self
            .at_most
            .min(bytes.len())
            .min(self.room - self.bytes.len());
        self.bytes.extend_from_slice(&bytes[..n]).unwrap();
        Ok(n)
    }
}

/// A source of bytes in memory that never fails.
#[derive(Drop)]
pub struct SureSource {
    bytes: Vec<u8>,
    taken: usize,
    ghost within: { taken ≤ length bytes.items },
}

impl SureSource {
    /// A source of these bytes.
    pub fn new(bytes: Vec<u8>) -> SureSource
        ensures { drop result.taken result.bytes.items ≡ bytes.items }
    {
        SureSource { bytes, taken: 0 }
    }
}

impl Source for SureSource {
    ghost left = { λ s. Some (drop s.taken s.bytes.items) };

    ghost faults = { λ _. 0 };

    fn read(&mut self, buf: &mut [u8]) -> Result<usize, Failed>
        requires { 0 < length buf.old }
        ensures count { result ≡ Ok (min (length buf.old)
            (length (drop self.old.taken self.old.bytes.items))) }
        ensures takes { IfOk result (λ n. TakesFront
            (drop self.old.taken self.old.bytes.items) n buf.new
            (Some (drop self.new.taken self.new.bytes.items))) }
    {
        let n = move_front(&self.bytes, self.taken, buf.len(), buf);
        self.taken += n;
        Ok(n)
    }
}

/// A sink that takes every piece, keeps nothing, and never fails.
#[derive(Clone, Copy, Debug)]
pub struct SureSink;

impl SureSink {
    /// A sink that keeps nothing.
    pub fn new() -> SureSink {
        SureSink
    }
}

impl Sink for SureSink {
    ghost taken = { λ _. None };

    ghost faults = { λ _. 0 };

    fn write(&mut self, bytes: &[u8]) -> Result<usize, Failed>
        requires { 0 < length bytes.now }
        ensures { result ≡ Ok (length bytes.now) }
    {
        Ok(bytes.len())
    }
}
