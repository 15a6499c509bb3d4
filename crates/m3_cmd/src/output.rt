//! What is written, and how.

ghost use Rattle.std.specs.Prelude.{◌≡◌, ◌≢◌, IfOk};
ghost use Rattle.m3_base.specs.Io.Streams.{Rose, Appends, AppendsSome};
ghost use Rattle.m3_cmd.specs.BadLines.{bad_line, why_word};
ghost use Rattle.m3_cmd.specs.Writing.{Writes};

use m3_base::stream::{Sink, write_all};
use m3_script::Why;
use std::alloc::{AllocError, Global};
use std::fmt::Write;

/// What is written, and the status that goes with it.
#[derive(Drop)]
pub struct Output {
    pub status: u8,
    pub text: Vec<u8>,
}

fn why_word(why: Why) -> &'static str
    ensures { result.now ≡ why_word why }
{
    match why {
        Why::Form => "form",
        Why::Number => "number",
        Why::Hex => "hex",
        Why::Place => "place",
        Why::Rule => "rule",
    }
}

/// The output for an input whose first bad line is this one, with its first cause.
pub fn bad_line(alloc: Global, line: u32, why: Why) -> Result<Output, AllocError>
    ensures status { IfOk result (λ o. o.status ≡ 2) }
    ensures text { IfOk result (λ o. o.text.items ≡ bad_line (record { line = line; why = why })) }
{
    let word = why_word(why);
    let mut out = String::new(alloc);
    write!(out, "bad line {line}: {word}\n")?;
    Ok(Output {
        status: 2,
        text: out.into_bytes(),
    })
}

/// Writes the bytes, and answers the status, or 4 where the sink failed.
pub fn write_bytes<K: Sink>(sink: &mut K, bytes: &[u8], status: u8) -> u8
    ensures written { result ≢ 4 → (result ≡ status) × Appends (K.written sink.old) (K.written sink.new) bytes.now }
    ensures fault { status ≢ 4 → result ≡ 4 → Rose (K.faults sink.old) (K.faults sink.new) ×
        AppendsSome (K.written sink.old) (K.written sink.new) bytes.now }
{
    match write_all(sink, bytes) {
        Ok(()) => status,
        Err(_) => 4,
    }
}

/// Writes an output, and answers its status, or 4 where the sink failed; 5 where memory ran out before there was one.
pub fn write_output<K: Sink>(sink: &mut K, output: Result<Output, AllocError>) -> u8
    ensures { Writes output (Rose (K.faults sink.old) (K.faults sink.new)) result (K.written sink.old) (K.written sink.new) }
{
    match output {
        Ok(output) => write_bytes(sink, output.text.as_slice(), output.status),
        Err(_) => 5,
    }
}
