//! Sources and sinks in memory, for tests, with known contents and calls that fail on request.
ghost use Rattle.std.specs.Prelude.{◌≡◌, ◌≤◌, ◌+◌, ◌↔◌, ℕ, Some, Ok, Err, [], ◌++◌, length, take, drop};
ghost use Rattle.std.specs.Prelude.{vec_len, vec_capacity, IfOk, OnOk, OnErr, IsErr};
ghost use Rattle.std.specs.Io.{ReadsAtMost, WritesAtMost};
ghost use Rattle.std.specs.Io.KnownBytes.{ReadConsumes, WriteAppends};
ghost use Rattle.um_io.specs.Streams.{next_failure_count, FailureCountRose, TakesAtLeastOneOctet};
ghost use Rattle.um_io.specs.Memory.{NeverFailingSourceState, MemorySourceState, MemorySinkState, new_source_state, new_sink_state};
ghost use Rattle.um_io.specs.Memory.{read_octet_count, written_octet_count, buffer_after_read, NextCallFails, SinkRefuses};
ghost use Rattle.um_io.specs.Memory.{source_after_read, source_after_failure, sink_after_write, sink_after_failure, IsMemorySourceCall};
ghost use Rattle.std.specs.Result.{result_ok};

use crate::streams::{Failed, NoMemory, Sink, Source, count_failure};
use std::alloc::Global;
use std::marker::Model;

/// Moves at most `max_per_call` octets from the start of `unread_octets` to the start of `destination`, and returns their number.
fn move_octets(unread_octets: &mut &[u8], max_per_call: usize, destination: &mut [u8]) -> usize
    ensures exact { result ≡ read_octet_count max_per_call unread_octets.old.now destination.old }
    ensures copied { destination.new ≡ buffer_after_read unread_octets.old.now result destination.old }
    ensures rest { unread_octets.new.now ≡ drop result unread_octets.old.now }
{
    let octets = *unread_octets;
    let count = max_per_call.min(destination.len()).min(octets.len());
    destination[..count].copy_from_slice(&octets[..count]);
    *unread_octets = &octets[count..];
    count
}

/// A source in memory that never fails.
#[derive(Debug, Drop)]
pub struct PlainSource<'a> {
    octets: &'a [u8],
    max_per_call: usize,
}

impl<'a> Model for PlainSource<'a> {
    ghost use Rattle.std.specs.Prelude.{◌≤◌};
    ghost use Rattle.um_io.specs.Memory.{NeverFailingSourceState};

    ghost Value = { NeverFailingSourceState };

    ghost view = { λ s. record { unread = s.octets.now; max_per_call = s.max_per_call } };

    ghost invariant = { λ s. 1 ≤ s.max_per_call };
}

impl<'a> PlainSource<'a> {
    /// A source of `octets` that returns at most `max_per_call` of them per call.
    pub fn new(octets: &'a [u8], max_per_call: usize) -> Self
        requires { 1 ≤ max_per_call }
        ensures { result ≡ record { unread = octets.now; max_per_call = max_per_call } }
    {
        PlainSource {
            octets,
            max_per_call,
        }
    }
}

impl<'a> Source for PlainSource<'a> {
    ghost left = { λ s. Some s.unread };

    ghost faults = { λ _. 0 };

    fn take(&mut self, into: &mut [u8]) -> Result<usize, Failed>
        ensures bound { ReadsAtMost result into.new }
        ensures octets { ReadConsumes (Some self.old.unread) (Some self.new.unread) result into.new }
        ensures unchanged { let count = ⟦<PlainSource<'a> as Source>⟧.faults in
            OnOk result (count self.new ≡ count self.old) }
        ensures later { let count = ⟦<PlainSource<'a> as Source>⟧.faults in
            count self.old ≤ count self.new }
        ensures cause { let count = ⟦<PlainSource<'a> as Source>⟧.faults in
            OnErr result (FailureCountRose (count self.old) (count self.new)) }

        ensures exact { result ≡ Ok (read_octet_count self.old.max_per_call self.old.unread into.old) }
        ensures copied { IfOk result (λ n. into.new ≡ buffer_after_read self.old.unread n into.old) }
        ensures rest { IfOk result (λ n. self.new ≡ record self.old { unread = drop n self.old.unread }) }
    {
        Ok(move_octets(&mut self.octets, self.max_per_call, into))
    }
}

/// A source in memory, some of whose calls fail.
///
/// Calls are numbered from 1 to `u64::MAX`; all later calls have the number `u64::MAX`.
#[derive(Debug, Drop)]
pub struct MemorySource<'a> {
    octets: &'a [u8],
    max_per_call: usize,
    failing_calls: &'a [u64],
    call_count: u64,
    faults: u64,
}

impl<'a> Model for MemorySource<'a> {
    ghost use Rattle.std.specs.Prelude.{◌≤◌};
    ghost use Rattle.um_io.specs.Memory.{MemorySourceState};

    ghost Value = { MemorySourceState };

    ghost view = { λ s. record {
      unread = s.octets.now;
      max_per_call = s.max_per_call;
      failing_calls = s.failing_calls.now;
      call_count = s.call_count;
      faults = s.faults;
    } };

    ghost invariant = { λ s. 1 ≤ s.max_per_call };
}

impl<'a> MemorySource<'a> {
    /// A source of `octets` that returns at most `max_per_call` of them per call. The calls whose numbers are in `fails` fail.
    pub fn new(octets: &'a [u8], max_per_call: usize, fails: &'a [u64]) -> Self
        requires { 1 ≤ max_per_call }
        ensures { result ≡ new_source_state octets.now max_per_call fails.now }
    {
        MemorySource {
            octets,
            max_per_call,
            failing_calls: fails,
            call_count: 0,
            faults: 0,
        }
    }
}

impl<'a> Source for MemorySource<'a> {
    ghost left = { λ s. Some s.unread };

    ghost faults = { λ s. s.faults };

    ghost is_call = { IsMemorySourceCall };

    fn take(&mut self, into: &mut [u8]) -> Result<usize, Failed>
        ensures bound { ReadsAtMost result into.new }
        ensures octets { ReadConsumes (Some self.old.unread) (Some self.new.unread) result into.new }
        ensures step { IsMemorySourceCall self.old (result_ok result) self.new }
        ensures unchanged { OnOk result (self.new.faults ≡ self.old.faults) }
        ensures later { self.old.faults ≤ self.new.faults }
        ensures cause { OnErr result (FailureCountRose self.old.faults self.new.faults) }

        ensures fails { IsErr result ↔ NextCallFails self.old.failing_calls self.old.call_count }
        ensures exact { IfOk result (λ n. n ≡ read_octet_count self.old.max_per_call self.old.unread into.old) }
        ensures copied { IfOk result (λ n. into.new ≡ buffer_after_read self.old.unread n into.old) }
        ensures given { IfOk result (λ n. self.new ≡ source_after_read self.old n) }
        ensures failed { OnErr result (self.new ≡ source_after_failure self.old) }
        ensures untouched { OnErr result (into.new ≡ into.old) }
    {
        self.call_count = self.call_count.saturating_add(1);
        if self.failing_calls.contains(&self.call_count) {
            return Err(count_failure(&mut self.faults));
        }
        Ok(move_octets(&mut self.octets, self.max_per_call, into))
    }
}

/// A sink in memory, some of whose calls fail.
///
/// Calls are numbered from 1 to `u64::MAX`; all later calls have the number `u64::MAX`.
#[derive(Debug, Drop)]
pub struct MemorySink<'a> {
    octets: Vec<u8>,
    room: usize,
    max_per_call: usize,
    failing_calls: &'a [u64],
    call_count: u64,
    faults: u64,
}

impl<'a> Model for MemorySink<'a> {
    ghost use Rattle.std.specs.Prelude.{◌≤◌, vec_len, vec_capacity};
    ghost use Rattle.um_io.specs.Memory.{MemorySinkState};

    ghost Value = { MemorySinkState };

    ghost view = { λ s. record {
      written = s.octets.items;
      capacity = s.room;
      max_per_call = s.max_per_call;
      failing_calls = s.failing_calls.now;
      call_count = s.call_count;
      faults = s.faults;
    } };

    // The sink holds at most `room` octets; `new` has allocated memory for them.
    ghost invariant = { λ s. (1 ≤ s.max_per_call) × (vec_len s.octets ≤ s.room) × (s.room ≤ vec_capacity s.octets) };
}

impl<'a> MemorySink<'a> {
    /// A sink that takes at most `max_per_call` octets per call and `room` octets in all. The calls whose numbers are in `fails` fail.
    /// Allocates all memory of the sink.
    pub fn new(
        alloc: Global,
        room: usize,
        max_per_call: usize,
        fails: &'a [u64],
    ) -> Result<Self, NoMemory>
        requires { 1 ≤ max_per_call }
        ensures { IfOk result (λ sink. sink ≡ new_sink_state room max_per_call fails.now) }
    {
        let octets = Vec::with_capacity(alloc, room)?;
        Ok(MemorySink {
            octets,
            room,
            max_per_call,
            failing_calls: fails,
            call_count: 0,
            faults: 0,
        })
    }

    /// The octets that the sink has taken so far, in order.
    pub fn octets(&self) -> &[u8]
        ensures { result.now ≡ self.now.written }
    {
        &self.octets
    }
}

impl<'a> Sink for MemorySink<'a> {
    ghost taken = { λ s. Some s.written };

    ghost faults = { λ s. s.faults };

    fn put(&mut self, piece: &[u8]) -> Result<usize, Failed>
        ensures bound { WritesAtMost result piece.now }
        ensures some { TakesAtLeastOneOctet result piece.now }
        ensures octets { WriteAppends (Some self.old.written) (Some self.new.written) result piece.now }
        ensures unchanged { OnOk result (self.new.faults ≡ self.old.faults) }
        ensures later { self.old.faults ≤ self.new.faults }
        ensures cause { OnErr result (FailureCountRose self.old.faults self.new.faults) }

        ensures fails { IsErr result ↔ SinkRefuses self.old piece.now }
        ensures exact { IfOk result (λ n. n ≡ written_octet_count self.old.max_per_call piece.now) }
        ensures taken { IfOk result (λ n. self.new ≡ sink_after_write self.old piece.now n) }
        ensures failed { OnErr result (self.new ≡ sink_after_failure self.old) }
    {
        self.call_count = self.call_count.saturating_add(1);
        let count = self.max_per_call.min(piece.len());
        if self.failing_calls.contains(&self.call_count) || count > self.room - self.octets.len() {
            return Err(count_failure(&mut self.faults));
        }
        // This cannot fail: `new` has allocated `room` octets.
        self.octets.extend_from_slice(&piece[..count]).unwrap();
        Ok(count)
    }
}
