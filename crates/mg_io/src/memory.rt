// A source and a sink over memory, which fail at the calls that they are told.
ghost use Rattle.std.specs.Prelude.{◌≡◌, ◌+◌, ◌<◌, ◌≤◌, ◌⊎◌, ◌↔◌, [], ◌++◌, min, length, take, drop, Option, Some, IfOk, OnOk, OnErr, IsErr, IsTrue, Contains};
ghost use Rattle.std.specs.Io.{ReadsAtMost};
ghost use Rattle.std.specs.Io.KnownBytes.{ReadConsumes, WriteAppends};
ghost use Rattle.mg_io.specs.Bytes.{TakesSome};
ghost use Rattle.mg_io.specs.Causes.{HasCause, raised};
ghost use Rattle.mg_io.specs.Memory.{Store, Growing, moved, failed};

use crate::copying::copy_front;
use crate::outside::{Failed, Sink, Source};
use std::alloc::Global;
use std::marker::Model;

/// Gives the bytes of a vector, some at each call, and fails at chosen calls.
#[derive(Drop)]
pub struct MemorySource {
    bytes: Vec<u8>,
    at: usize,
    most: usize,
    failing: Vec<u64>,
    calls: u64,
    faults: u64,
}

impl Model for MemorySource {
    ghost Value = { Store };

    ghost view = { λ s. record { bytes = drop s.at s.bytes.items; most = s.most; failing = s.failing.items; calls = s.calls; faults = s.faults } };

    ghost invariant = { λ s. (s.at ≤ length s.bytes.items) × (1 ≤ s.most) };
}

impl MemorySource {
    /// Gives at most `most` bytes at a call, and fails at the calls whose numbers, from 0, stand in
    /// `failing`. Call 2^64 - 1 and all after it have one number.
    pub fn new(_alloc: Global, bytes: Vec<u8>, most: usize, failing: Vec<u64>) -> MemorySource
        requires { 1 ≤ most }
        ensures { result ≡ record {
          bytes = bytes.items;
          most = most;
          failing = failing.items;
          calls = 0;
          faults = 0;
        } }
    {
        MemorySource {
            bytes,
            at: 0,
            most,
            failing,
            calls: 0,
            faults: 0,
        }
    }
}

impl Source for MemorySource {
    ghost left = { λ s. Some s.bytes };

    ghost faults = { λ s. s.faults };

    fn read(&mut self, buf: &mut [u8]) -> Result<usize, Failed>
        requires { 0 < length buf.old }

        ensures bound { ReadsAtMost result buf.new }
        ensures bytes { ReadConsumes (Some self.old.bytes) (Some self.new.bytes) result buf.new }
        ensures cause { HasCause self.old.faults self.new.faults result }

        ensures fails { IsErr result ↔ Contains self.old.failing self.old.calls }
        ensures count { IfOk result (λ n. n ≡ min self.old.most (min (length buf.old)
            (length self.old.bytes))) }
        ensures given { IfOk result (λ n. buf.new ≡ take n self.old.bytes ++ drop n buf.old) }
        ensures left { IfOk result (λ n. self.new ≡ moved self.old (drop n self.old.bytes)) }
        ensures err { OnErr result ((buf.new ≡ buf.old) × (self.new ≡ failed self.old)) }
    {
        let fails = self.failing.contains(&self.calls);
        self.calls = self.calls.saturating_add(1);
        if fails {
            self.faults = self.faults.saturating_add(1);
            return Err(Failed);
        }
        let count = copy_front(&self.bytes[self.at..], buf, self.most);
        self.at += count;
        Ok(count)
    }
}

/// Keeps the bytes that it takes, some at each call, and fails at chosen calls.
#[derive(Drop)]
pub struct MemorySink {
    bytes: Vec<u8>,
    most: usize,
    failing: Vec<u64>,
    calls: u64,
    faults: u64,
}

impl Model for MemorySink {
    ghost use Rattle.std.specs.Prelude.{◌≤◌, vec_capacity};
    ghost use Rattle.mg_io.specs.Memory.{Growing};

    ghost Value = { Growing };

    ghost view = { λ s. record {
      store = record { bytes = s.bytes.items; most = s.most; failing = s.failing.items; calls = s.calls; faults = s.faults };
      capacity = vec_capacity s.bytes;
    } };

    ghost invariant = { λ s. 1 ≤ s.most };
}

impl MemorySink {
    /// Takes at most `most` bytes at a call, and fails at the calls whose numbers, from 0, stand in
    /// `failing`. Call 2^64 - 1 and all after it have one number.
    pub fn new(alloc: Global, most: usize, failing: Vec<u64>) -> MemorySink
        requires { 1 ≤ most }
        ensures { result.store ≡ record {
          bytes = [];
          most = most;
          failing = failing.items;
          calls = 0;
          faults = 0;
        } }
    {
        MemorySink {
            bytes: Vec::new(alloc),
            most,
            failing,
            calls: 0,
            faults: 0,
        }
    }

    /// Lends the bytes taken so far, in order.
    pub fn taken(&self) -> &[u8]
        ensures { result.now ≡ self.now.store.bytes }
    {
        self.bytes.as_slice()
    }

    // Counts a fault.
    fn fault(&mut self) -> Failed
        ensures store { self.new.store ≡
            record self.old.store { faults = raised self.old.store.faults } }
        ensures capacity { self.new.capacity ≡ self.old.capacity }
    {
        self.faults = self.faults.saturating_add(1);
        Failed
    }
}

impl Sink for MemorySink {
    ghost taken = { λ s. Some s.store.bytes };

    ghost faults = { λ s. s.store.faults };

    /// It fails at the calls that it is told, and else only where it must grow and finds no memory.
    fn write(&mut self, piece: &[u8]) -> Result<usize, Failed>
        requires { 0 < length piece.now }

        ensures count { TakesSome result piece.now }
        ensures bytes { WriteAppends (Some self.old.store.bytes)
            (Some self.new.store.bytes) result piece.now }
        ensures cause { HasCause self.old.store.faults self.new.store.faults result }

        ensures told { Contains self.old.store.failing self.old.store.calls → IsErr result }
        ensures fails { OnErr result (Contains self.old.store.failing self.old.store.calls
            ⊎ (self.old.capacity < length self.old.store.bytes + min self.old.store.most (length piece.now))) }
        ensures exact { IfOk result (λ n. n ≡ min self.old.store.most (length piece.now)) }
        ensures taken { IfOk result (λ n. self.new.store ≡
            moved self.old.store (self.old.store.bytes ++ take n piece.now)) }
        ensures err { OnErr result (self.new.store ≡ failed self.old.store) }
        ensures capacity { self.old.capacity ≤ self.new.capacity }
    {
        let fails = self.failing.contains(&self.calls);
        self.calls = self.calls.saturating_add(1);
        let count = self.most.min(piece.len());
        if fails {
            return Err(self.fault());
        }
        if self.bytes.extend_from_slice(&piece[..count]).is_err() {
            return Err(self.fault());
        }
        Ok(count)
    }
}
