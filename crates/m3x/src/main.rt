//! m3x: a machine of tiles, run by a script.
#![tactic(auto)]

use m3_base::standard_streams::{ReaderSource, WriterSink};
use m3_cmd::run_words;
use std::alloc::AllocError;
use std::process::ExitCode;
use std::{env, io};

/// The words of the command line, without the program's name. A list with a word that isn't UTF-8 is no form, and stands
/// here as the list without words, which is none either.
fn words(rt: &HostRuntime) -> Result<Vec<String>, AllocError> {
    let mut words = Vec::new(rt.alloc());
    match env::args(rt) {
        Ok(args) => {
            for word in args.skip(1) {
                words.push(word)?;
            }
            Ok(words)
        }
        Err(error) => match error.kind() {
            io::ErrorKind::OutOfMemory => Err(AllocError),
            _ => Ok(words),
        },
    }
}

fn main(rt: HostRuntime) -> ExitCode {
    let Ok(words) = words(&rt) else {
        return ExitCode::from(5);
    };
    let mut source = ReaderSource::new(rt.stdin());
    let mut sink = WriterSink::new(io::writer(&rt));
    ExitCode::from(run_words(rt.alloc(), words.as_slice(), &mut source, &mut sink))
}
