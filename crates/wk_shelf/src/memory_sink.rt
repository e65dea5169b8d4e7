//! A sink in memory, which tells what was put to it.
ghost use Rattle.std.specs.Prelude.{◌≡◌, List, [], ◌++◌, Some, IfOk, OnOk, OnErr, IsOk, ◌≤◌, false, ◌↔◌};
ghost use Rattle.wk_shelf.specs.States.{SinkState, next_count, put_fails, is_listed};
ghost use Rattle.wk_shelf.specs.Causes.{Rose};
ghost use Rattle.wk_shelf.specs.Put.{Puts, PutsSome};

use crate::{Sink, SinkFailed};
use std::alloc::Global;
use std::marker::Model;
use wk_base::{List, NoMemory};

/// Bytes in memory that were put. Calls of `put` are numbered from 0, and those whose number was handed in fail.
#[derive(Drop)]
pub struct MemorySink {
    bytes: Vec<u8>,
    fail: List<u64>,
    calls: u64,
    faults: u64,
    room: usize,
}

impl Model for MemorySink {
    ghost use Rattle.std.specs.Prelude.{◌≤◌, vec_len, vec_capacity};
    ghost use Rattle.wk_shelf.specs.States.{SinkState};

    ghost Value = { SinkState };

    ghost view = { λ s. record { bytes = s.bytes.items; fail = s.fail; calls = s.calls; faults = s.faults; room = s.room } };

    ghost invariant = { λ s. (s.room ≤ vec_capacity s.bytes) × (vec_len s.bytes ≤ s.room) };
}

/// Whether the number is one of the list.
pub(crate) fn is_in(list: &[u64], n: u64) -> bool
    ensures { result ≡ is_listed list.now n }
{
    list.iter().any(|m| *m == n)
}

impl MemorySink {
    /// A sink for at most `room` bytes. It takes the memory for all of them now.
    pub fn new(alloc: Global, fail: List<u64>, room: usize) -> Result<MemorySink, NoMemory>
        ensures { IfOk result (λ s.
            s ≡ record { bytes = []; fail = fail; calls = 0; faults = 0; room = room }) }
    {
        match Vec::with_capacity(alloc, room) {
            Ok(bytes) => Ok(MemorySink {
                bytes,
                fail,
                calls: 0,
                faults: 0,
                room,
            }),
            Err(_) => Err(NoMemory),
        }
    }

    /// What was put.
    pub fn bytes(&self) -> &[u8]
        ensures { result.now ≡ self.now.bytes }
    {
        self.bytes.as_slice()
    }
}

impl Sink for MemorySink {
    ghost contents = { λ s. Some s.bytes };

    ghost faults = { λ s. s.faults };

    /// A call that fails appends nothing.
    fn put(&mut self, bytes: &[u8]) -> Result<(), SinkFailed>
        ensures fails { IsOk result ↔ (put_fails self.old bytes.now ≡ false) }
        ensures done { OnOk result (self.new ≡ record self.old {
          bytes = self.old.bytes ++ bytes.now;
          calls = next_count self.old.calls;
        }) }
        ensures counted { OnErr result (self.new ≡ record self.old {
          calls = next_count self.old.calls;
          faults = next_count self.old.faults;
        }) }
        ensures ok { OnOk result (Puts (Some self.old.bytes) (Some self.new.bytes) bytes.now) }
        ensures err { OnErr result (PutsSome (Some self.old.bytes) (Some self.new.bytes)
            bytes.now) }
        ensures later { self.old.faults ≤ self.new.faults }
        ensures cause { OnErr result (Rose self.old.faults self.new.faults) }
    {
        let fails = is_in(self.fail.as_slice(), self.calls)
            || self.room - self.bytes.len() < bytes.len();
        self.calls = self.calls.saturating_add(1);
        if fails {
            self.faults = self.faults.saturating_add(1);
            return Err(SinkFailed);
        }
        match self.bytes.extend_from_slice(bytes) {
            Ok(_) => Ok(()),
            Err(_) => unreachable!(),
        }
    }
}
