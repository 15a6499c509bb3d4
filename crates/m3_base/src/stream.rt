//! What bytes come from, and where they go.

ghost use Rattle.std.specs.Prelude.{◌≡◌, ℕ, ◌<◌, ◌≤◌, List, Option, length, OnOk, OnErr, IfOk, Err};
ghost use Rattle.std.specs.Io.{ReadsAtMost};
ghost use Rattle.std.specs.Io.KnownBytes.{ReadConsumes};
ghost use Rattle.m3_base.specs.Io.Streams.{Rose, HasCause, Writes, Appends, AppendsSome, ReadsAll, JudgesLength};
ghost use Rattle.m3_base.specs.Lists.ResultView.{items_of};

use std::alloc::Global;
use thiserror::Error;

/// The outside has failed.
#[derive(Clone, Copy, Debug, PartialEq, Eq, Drop)]
pub struct Failed;

/// What bytes come from.
pub trait Source {
    /// The bytes still to come, where it tells them.
    ghost left: { Self → Option (List ℕ) };

    /// How often it has failed; the count stands still at 2^64 - 1.
    ghost faults: { Self → ℕ };

    /// Gives its next bytes, as many as it likes and `into` has room for. A 0 where there is room is the end. It fails
    /// only where `faults` rises, and then gives no byte.
    fn read(&mut self, into: &mut [u8]) -> Result<usize, Failed>
        ensures bound { ReadsAtMost result into.new }
        ensures bytes { ReadConsumes (left self.old) (left self.new) result into.new }
        ensures cause { HasCause (faults self.old) (faults self.new) result };
}

/// Where bytes go.
pub trait Sink {
    /// The bytes that were written, where it tells them.
    ghost written: { Self → Option (List ℕ) };

    /// How often it has failed; the count stands still at 2^64 - 1.
    ghost faults: { Self → ℕ };

    /// Takes the first of these bytes, at least one where there is one. It fails only where `faults` rises, and then
    /// takes none.
    fn write(&mut self, bytes: &[u8]) -> Result<usize, Failed>
        ensures bound { IfOk result (λ n. n ≤ length bytes.now) }
        ensures some { IfOk result (λ n. 0 < length bytes.now → 0 < n) }
        ensures bytes { Writes (written self.old) (written self.new) result bytes.now }
        ensures cause { HasCause (faults self.old) (faults self.new) result };
}

/// A sink has failed.
#[derive(Clone, Copy, Debug, PartialEq, Eq, Drop, Error)]
#[error("the sink failed")]
pub struct WriteFault;

/// Writes all of the bytes. After a fault a prefix of them was written.
pub fn write_all<K: Sink>(sink: &mut K, bytes: &[u8]) -> Result<(), WriteFault>
    ensures all { OnOk result (Appends (K.written sink.old) (K.written sink.new) bytes.now) }
    ensures prefix { OnErr result (AppendsSome (K.written sink.old) (K.written sink.new) bytes.now) }
    ensures cause { HasCause (K.faults sink.old) (K.faults sink.new) result }
{
    let mut rest = bytes;
    while !rest.is_empty() {
        match sink.write(rest) {
            Ok(n) => rest = &rest[n..],
            Err(_) => return Err(WriteFault),
        }
    }
    Ok(())
}

/// Why not all bytes were read.
#[derive(Clone, Copy, Debug, PartialEq, Eq, Drop, Error)]
pub enum ReadRefusal {
    #[error("the source failed")]
    ReadFault,
    /// More bytes were given than the limit allows.
    #[error("the input is too long")]
    TooLong,
    #[error("no memory is left")]
    NoMemory,
}

/// Reads to the end of the source, at most `limit` bytes.
pub fn read_all<S: Source>(
    alloc: Global,
    source: &mut S,
    limit: u32,
) -> Result<Vec<u8>, ReadRefusal>
    ensures all { IfOk result (λ v. ReadsAll (S.left source.old) (S.left source.new) v.items) }
    ensures within { IfOk result (λ v. length v.items ≤ limit) }
    ensures long { JudgesLength (S.left source.old) (S.left source.new) limit (items_of result) }
    ensures fault { result ≡ Err ReadRefusal.ReadFault → Rose (S.faults source.old) (S.faults source.new) }
    ensures later { S.faults source.old ≤ S.faults source.new }
{
    let mut bytes = Vec::new(alloc);
    let mut piece = [0u8; 4096];
    loop {
        match source.read(&mut piece) {
            Err(_) => return Err(ReadRefusal::ReadFault),
            Ok(0) => return Ok(bytes),
            Ok(n) => {
                if limit as usize - bytes.len() < n {
                    return Err(ReadRefusal::TooLong);
                }
                if bytes.extend_from_slice(&piece[..n]).is_err() {
                    return Err(ReadRefusal::NoMemory);
                }
            }
        }
    }
}
