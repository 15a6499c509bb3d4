//! The bytes of memory that are read and written.

ghost use Rattle.std.specs.Prelude.{◌≡◌, ◌≤◌, length, take, drop, IfOk, OnOk, OnErr};
ghost use Rattle.m3_base.specs.Ideal.Landing.{bytes_at, written_at};

use m3_base::payload::Payload;
use std::alloc::{AllocError, Global};

/// `len` bytes from `place` on, or as many as there are.
pub fn bytes_at(alloc: Global, memory: &[u8], place: u32, len: u16) -> Result<Payload, AllocError>
    ensures { IfOk result (λ bytes. bytes ≡ bytes_at place len memory.now) }
{
    let from = (place as usize).min(memory.len());
    let to = (from + usize::from(len)).min(memory.len());
    let bytes = Vec::from_slice(alloc, &memory[from..to])?;
    Ok(Payload::new(bytes))
}

/// The bytes stand at `place` from now on. No run from an opening writes past the end, where they would be appended.
/// Err, and nothing has changed, where memory runs out.
pub fn write_at(memory: &mut Vec<u8>, place: u32, bytes: &[u8]) -> Result<(), AllocError>
    ensures ok { OnOk result (memory.new.items ≡ written_at place bytes.now memory.old.items) }
    ensures kept { OnErr result (memory.new.items ≡ memory.old.items) }
{
    let place = place as usize;
    if place <= memory.len() && bytes.len() <= memory.len() - place {
        memory[place..place + bytes.len()].copy_from_slice(bytes);
        return Ok(());
    }
    memory.reserve(bytes.len())?;
    memory.truncate(place);
    memory.extend_from_slice(bytes)
}
