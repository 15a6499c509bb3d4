//! Sources and sinks in memory.

ghost use Rattle.std.specs.Prelude.{◌≡◌, ℕ, ◌+◌, ◌-◌, ◌<◌, ◌≤◌, min, List, [], ◌++◌, take, drop, length, vec_len, vec_capacity, true, Some, None, is_err, is_ok, ◌||◌, ◌&&◌, ◌==◌, nat_lt, IfOk, OnOk, OnErr, if◌then◌else◌};
ghost use Rattle.std.specs.List.{list_any};
ghost use Rattle.std.specs.Option.{option_copied};
ghost use Rattle.std.specs.Io.{ReadsAtMost};
ghost use Rattle.std.specs.Io.KnownBytes.{ReadConsumes};
ghost use Rattle.m3_base.specs.Io.Streams.{HasCause, Writes};
ghost use Rattle.m3_base.specs.Io.MemoryStreams.{counter_after, fails_next, no_room, new_source, new_sink, sink_with};

use crate::stream::{Failed, Sink, Source};
use std::alloc::{AllocError, Global};
use std::marker::Model;

// The bytes from `at` on go to the front of `into`, at most `most` of them.
fn give(bytes: &[u8], at: usize, most: u32, into: &mut [u8]) -> usize
    requires { at ≤ length bytes.now }
    ensures count { result ≡ min (min (length into.new) most) (length (drop at bytes.now)) }
    ensures front { take result into.new ≡ take result (drop at bytes.now) }
{
    let rest = &bytes[at..];
    let n = into.len().min(most as usize).min(rest.len());
    into[..n].copy_from_slice(&rest[..n]);
    n
}

/// Bytes in memory as a source, which gives at most `most` at a call and fails at chosen calls.
#[derive(Debug, Drop)]
pub struct BytesSource {
    bytes: Vec<u8>,
    at: usize,
    most: u32,
    fails: Vec<u64>,
    calls: u64,
    faults: u64,
}

impl Model for BytesSource {
    ghost use Rattle.m3_base.specs.Io.MemoryStreams.{Giving};

    ghost Value = { Giving };

    ghost use Rattle.m3_base.specs.Io.MemoryStreamsView.{source_value, IsSource};

    ghost view = { source_value };

    ghost invariant = { IsSource };
}

impl BytesSource {
    /// A source of these bytes. Each call gives at most `most`, and the calls of these numbers fail, counted from 1.
    pub fn new(bytes: Vec<u8>, most: u32, fails: Vec<u64>) -> BytesSource
        requires { 0 < most }
        ensures { result ≡ new_source bytes.items most fails.items }
    {
        BytesSource {
            bytes,
            at: 0,
            most,
            fails,
            calls: 0,
            faults: 0,
        }
    }
}

impl Source for BytesSource {
    ghost use Rattle.std.specs.Prelude.{Some};

    ghost left = { λ s. Some s.left };

    ghost faults = { λ s. s.faults };

    fn read(&mut self, into: &mut [u8]) -> Result<usize, Failed>
        ensures bound { ReadsAtMost result into.new }
        ensures bytes { ReadConsumes (Some self.old.left) (Some self.new.left) result into.new }
        ensures cause { HasCause self.old.faults self.new.faults result }
        ensures fails { is_err result ≡ fails_next self.old.calls self.old.fails }
        ensures count { IfOk result (λ n. n ≡ min (min (length into.old) self.old.most) (length self.old.left)) }
    {
        self.calls = self.calls.saturating_add(1);
        if self.fails.contains(&self.calls) {
            self.faults = self.faults.saturating_add(1);
            return Err(Failed);
        }
        let n = give(self.bytes.as_slice(), self.at, self.most, into);
        self.at += n;
        Ok(n)
    }
}

/// Bytes in memory as a source that never fails and gives at most `most` at a call.
#[derive(Debug, Drop)]
pub struct InfallibleSource {
    bytes: Vec<u8>,
    at: usize,
    most: u32,
}

impl Model for InfallibleSource {
    ghost use Rattle.m3_base.specs.Io.MemoryStreams.{SureGiving};

    ghost Value = { SureGiving };

    ghost use Rattle.m3_base.specs.Io.MemoryStreamsView.{sure_source_value, IsSureSource};

    ghost view = { sure_source_value };

    ghost invariant = { IsSureSource };
}

impl InfallibleSource {
    /// A source of these bytes. Each call gives at most `most`.
    pub fn new(bytes: Vec<u8>, most: u32) -> InfallibleSource
        requires { 0 < most }
        ensures { result ≡ record { left = bytes.items; most = most } }
    {
        InfallibleSource { bytes, at: 0, most }
    }
}

impl Source for InfallibleSource {
    ghost use Rattle.std.specs.Prelude.{Some};

    ghost left = { λ s. Some s.left };

    ghost faults = { λ s. 0 };

    fn read(&mut self, into: &mut [u8]) -> Result<usize, Failed>
        ensures bound { ReadsAtMost result into.new }
        ensures bytes { ReadConsumes (Some self.old.left) (Some self.new.left) result into.new }
        ensures cause { HasCause 0 0 result }
        ensures sure { is_ok result ≡ true }
        ensures count { IfOk result (λ n. n ≡ min (min (length into.old) self.old.most) (length self.old.left)) }
    {
        let n = give(self.bytes.as_slice(), self.at, self.most, into);
        self.at += n;
        Ok(n)
    }
}

/// Memory as a sink, which takes at most `most` bytes at a call, fails at chosen calls, and fails where no room is left.
#[derive(Debug, Drop)]
pub struct BytesSink {
    bytes: Vec<u8>,
    room: usize,
    most: u32,
    fails: Vec<u64>,
    calls: u64,
    faults: u64,
}

impl Model for BytesSink {
    ghost use Rattle.m3_base.specs.Io.MemoryStreams.{Taking};

    ghost Value = { Taking };

    ghost use Rattle.m3_base.specs.Io.MemoryStreamsView.{sink_value, IsSink};

    ghost view = { sink_value };

    ghost invariant = { IsSink };
}

impl BytesSink {
    /// A sink with room for so many bytes. Each call takes at most `most`, and the calls of these numbers fail, counted
    /// from 1.
    pub fn new(
        alloc: Global,
        room: u32,
        most: u32,
        fails: Vec<u64>,
    ) -> Result<BytesSink, AllocError>
        requires { 0 < most }
        ensures { IfOk result (λ s. s ≡ new_sink room most fails.items) }
    {
        let bytes = Vec::with_capacity(alloc, room as usize)?;
        Ok(BytesSink {
            bytes,
            room: room as usize,
            most,
            fails,
            calls: 0,
            faults: 0,
        })
    }

    /// What was written.
    pub fn bytes(&self) -> &[u8]
        ensures { result.now ≡ self.now.written }
    {
        self.bytes.as_slice()
    }
}

impl Sink for BytesSink {
    ghost use Rattle.std.specs.Prelude.{Some};

    ghost written = { λ s. Some s.written };

    ghost faults = { λ s. s.faults };

    fn write(&mut self, bytes: &[u8]) -> Result<usize, Failed>
        ensures bound { IfOk result (λ n. n ≤ length bytes.now) }
        ensures some { IfOk result (λ n. 0 < length bytes.now → 0 < n) }
        ensures bytes { Writes (Some self.old.written) (Some self.new.written) result bytes.now }
        ensures cause { HasCause self.old.faults self.new.faults result }
        ensures fails { is_err result ≡ (fails_next self.old.calls self.old.fails || no_room self.old bytes.now) }
        ensures count { IfOk result (λ n. n ≡ min (min (length bytes.now) self.old.most)
            (self.old.room - length self.old.written)) }
    {
        self.calls = self.calls.saturating_add(1);
        let left = self.room - self.bytes.len();
        if self.fails.contains(&self.calls) || (left == 0 && !bytes.is_empty()) {
            self.faults = self.faults.saturating_add(1);
            return Err(Failed);
        }
        let n = bytes.len().min(self.most as usize).min(left);
        append(&mut self.bytes, &bytes[..n]);
        Ok(n)
    }
}

// Appends bytes that there is room for.
fn append(to: &mut Vec<u8>, bytes: &[u8])
    requires { vec_len to.old + length bytes.now ≤ vec_capacity to.old }
    ensures items { to.new.items ≡ to.old.items ++ bytes.now }
    ensures capacity { vec_capacity to.old ≤ vec_capacity to.new }
{
    match to.extend_from_slice(bytes) {
        Ok(()) => {}
        Err(_) => unreachable!(),
    }
}

/// Memory as a sink that never fails and takes at most `most` bytes at a call. Once its room is passed it keeps no
/// further byte, and tells nothing of what was written.
#[derive(Debug, Drop)]
pub struct InfallibleSink {
    bytes: Vec<u8>,
    room: usize,
    most: u32,
    passed: bool,
}

impl Model for InfallibleSink {
    ghost use Rattle.m3_base.specs.Io.MemoryStreams.{SureTaking};

    ghost Value = { SureTaking };

    ghost use Rattle.m3_base.specs.Io.MemoryStreamsView.{sure_sink_value, IsSureSink};

    ghost view = { sure_sink_value };

    ghost invariant = { IsSureSink };
}

impl InfallibleSink {
    /// A sink with room for so many bytes. Each call takes at most `most`.
    pub fn new(alloc: Global, room: u32, most: u32) -> Result<InfallibleSink, AllocError>
        requires { 0 < most }
        ensures { IfOk result (λ s. s ≡ record { written = Some []; room = room; most = most }) }
    {
        let bytes = Vec::with_capacity(alloc, room as usize)?;
        Ok(InfallibleSink {
            bytes,
            room: room as usize,
            most,
            passed: false,
        })
    }

    // Takes these bytes, where there is room for all of them.
    fn keep(&mut self, bytes: &[u8])
        ensures { self.new ≡ sink_with bytes.now self.old }
    {
        if self.passed || self.room - self.bytes.len() < bytes.len() {
            self.passed = true;
        } else {
            append(&mut self.bytes, bytes);
        }
    }

    /// What was written, where the room was never passed.
    pub fn bytes(&self) -> Option<&[u8]>
        ensures { option_copied result ≡ self.now.written }
    {
        if self.passed {
            None
        } else {
            Some(self.bytes.as_slice())
        }
    }
}

impl Sink for InfallibleSink {
    ghost written = { λ s. s.written };

    ghost faults = { λ s. 0 };

    fn write(&mut self, bytes: &[u8]) -> Result<usize, Failed>
        ensures bound { IfOk result (λ n. n ≤ length bytes.now) }
        ensures some { IfOk result (λ n. 0 < length bytes.now → 0 < n) }
        ensures bytes { Writes self.old.written self.new.written result bytes.now }
        ensures cause { HasCause 0 0 result }
        ensures sure { is_ok result ≡ true }
        ensures count { IfOk result (λ n. n ≡ min (length bytes.now) self.old.most) }
        ensures keeps { IfOk result (λ n. self.new ≡ sink_with (take n bytes.now) self.old) }
    {
        let n = bytes.len().min(self.most as usize);
        self.keep(&bytes[..n]);
        Ok(n)
    }
}
