// A sink in memory.
ghost use Rattle.std.specs.Prelude.{◌≡◌, ◌↔◌, ◌≤◌, ◌-◌, ℕ, List, [], ◌++◌, length, take, Option, Some, OnOk, OnErr, IfOk, IsOk, IsTrue};
ghost use Rattle.bcj_edge.specs.Causes.{raised, Rose, Appends, AppendsFront};
ghost use Rattle.bcj_edge.specs.Memory.{next_put_fails, takes_whole, after_put};

use crate::sinks::{Failed, Sink};
use std::alloc::{AllocError, Global};
use std::marker::Model;

/// A sink in memory that holds a bounded number of bytes, for tests. One of its puts can be named to
/// fail.
#[derive(Drop)]
pub struct MemSink {
    bytes: Vec<u8>,
    room: u32,
    fail: Option<u32>,
    puts: u64,
    faults: u64,
}

impl Model for MemSink {
    ghost use Rattle.std.specs.Prelude.{◌≤◌, length, vec_capacity};
    ghost use Rattle.bcj_edge.specs.Memory.{SinkState};

    ghost Value = { SinkState };

    ghost view = { λ s. record { bytes = s.bytes.items; room = s.room; fail = s.fail; puts = s.puts; faults = s.faults } };

    ghost invariant = { λ s. (length s.bytes.items ≤ s.room) × (s.room ≤ vec_capacity s.bytes) };
}

impl MemSink {
    /// An empty sink for at most `room` bytes, whose put number `fail`, counted from 1, fails.
    pub fn new(alloc: Global, room: u32, fail: Option<u32>) -> Result<MemSink, AllocError>
        ensures { IfOk result (λ s. s ≡ record { bytes = []; room = room; fail = fail; puts = 0; faults = 0 }) }
    {
        Ok(MemSink {
            bytes: Vec::with_capacity(alloc, room as usize)?,
            room,
            fail,
            puts: 0,
            faults: 0,
        })
    }

    /// All that the sink took.
    pub fn taken(&self) -> &[u8]
        ensures { result.now ≡ self.now.bytes }
    {
        self.bytes.as_slice()
    }

    fn next_fails(&self) -> bool
        ensures { result ≡ next_put_fails self.now }
    {
        match self.fail {
            Some(number) => u64::from(number) == self.puts.saturating_add(1),
            None => false,
        }
    }

    fn left(&self) -> usize
        ensures { result ≡ self.now.room - length self.now.bytes }
    {
        self.room as usize - self.bytes.len()
    }
}

impl Sink for MemSink {
    ghost taken = { λ s. Some s.bytes };

    ghost faults = { λ s. s.faults };

    /// Fails where it was named to, taking nothing, and where the piece doesn't fit, taking as much as
    /// fits. It takes no memory.
    fn put(&mut self, bytes: &[u8]) -> Result<(), Failed>
        ensures ok { OnOk result (Appends (Some self.old.bytes) (Some self.new.bytes) bytes.now) }
        ensures front { OnErr result (AppendsFront (Some self.old.bytes) (Some self.new.bytes) bytes.now) }
        ensures failed { OnErr result (Rose self.old.faults self.new.faults) }
        ensures later { self.old.faults ≤ self.new.faults }
        ensures whole { IsOk result ↔ IsTrue (takes_whole self.old (length bytes.now)) }
        ensures after { self.new ≡ after_put self.old bytes.now }
    {
        let fails = self.next_fails();
        let left = self.left();
        self.puts = self.puts.saturating_add(1);
        let count = if fails { 0 } else { bytes.len().min(left) };
        let is_taken = self.bytes.extend_from_slice(&bytes[..count]).is_ok();
        if is_taken && !fails && count == bytes.len() {
            return Ok(());
        }
        self.faults = self.faults.saturating_add(1);
        Err(Failed)
    }
}
