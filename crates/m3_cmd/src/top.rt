//! The top call.

ghost use Rattle.std.specs.Prelude.{◌≡◌, ◌≢◌, ◌≤◌, ◌∷◌, [], ℕ, length, IfOk};
ghost use Rattle.m3_base.specs.Io.Streams.{Rose, GivesMore, GivesUpTo};
ghost use Rattle.m3_cmd.specs.declared.words.Form.{Form};
ghost use Rattle.m3_cmd.specs.declared.words.InputForm.{InputForm};
ghost use Rattle.m3_cmd.specs.CommandLine.{Asks, IsNoForm, limit_of};
ghost use Rattle.m3_cmd.specs.OutputContract.{HasNoneLeft, IsAnswer, IsComplete, IsFormAnswer, IsOutput, IsRead, IsReadAnswer, IsTooLong};
ghost use Rattle.m3_cmd.specs.Statuses.{IsOneOf, OfBytes};
ghost use Rattle.m3_cmd.specs.Writing.{WritesAll, WritesAtMost, WritesSome};

use crate::auto::auto_script;
use crate::check::check_journal;
use crate::load::run_load;
use crate::output::{Output, write_bytes, write_output};
use crate::run::run_script;
use crate::show::show_packets;
use crate::words::{Form, InputForm, limit_of, read_form};
use m3_base::stream::{ReadRefusal, Sink, Source, read_all};
use std::alloc::{AllocError, Global};

const USAGE: &[u8] =
    b"usage: m3x run [--json] | auto [--json] | tiles [--json] | check | show | load N\n";

/// What the form answers to the bytes.
fn answer(alloc: Global, form: InputForm, bytes: &[u8]) -> Result<Output, AllocError>
    requires { length bytes.now ≤ limit_of form }
    ensures { IfOk result (λ o. IsAnswer form bytes.now o.status o.text.items) }
{
    match form {
        InputForm::Run(format) => run_script(alloc, format, bytes),
        InputForm::Auto(format) => auto_script(alloc, format, bytes),
        InputForm::Check => check_journal(alloc, bytes),
        InputForm::Show => show_packets(alloc, bytes),
    }
}

/// Reads the source, and answers what it gave by the form.
fn run_input<S: Source, K: Sink>(alloc: Global, form: InputForm, source: &mut S, sink: &mut K) -> u8
    ensures output { result ≢ 4 → result ≢ 5 →
        WritesAll (IsRead form (Rose (S.faults source.old) (S.faults source.new))
        (S.left source.old) (S.left source.new) result)
        (K.written sink.old) (K.written sink.new) }
    ensures prefix { result ≡ 4 →
        WritesSome (IsRead form (Rose (S.faults source.old) (S.faults source.new))
        (S.left source.old) (S.left source.new))
        (K.written sink.old) (K.written sink.new) }
    ensures memory { result ≡ 5 →
        WritesAtMost (IsReadAnswer form (S.left source.old) (S.left source.new))
        (K.written sink.old) (K.written sink.new) }
    ensures read { result ≡ 3 → Rose (S.faults source.old) (S.faults source.new) }
    ensures write { result ≡ 4 → Rose (K.faults sink.old) (K.faults sink.new) }
    ensures long { result ≡ 8 → GivesMore (S.left source.old) (S.left source.new) (limit_of form) }
    ensures within { result ≢ 4 → result ≢ 8 →
        GivesUpTo (S.left source.old) (S.left source.new) (limit_of form) }
    ensures whole { IsOneOf (0 ∷ 2 ∷ 6 ∷ 7 ∷ []) result →
        HasNoneLeft (S.left source.old) (S.left source.new) }
    ensures complete { OfBytes (S.left source.old) (λ bytes. IsComplete form bytes result) }
    ensures statuses { IsOneOf (0 ∷ 2 ∷ 3 ∷ 4 ∷ 5 ∷ 6 ∷ 7 ∷ 8 ∷ []) result }
{
    match read_all(alloc, source, limit_of(form)) {
        Err(ReadRefusal::ReadFault) => write_bytes(sink, b"read fault\n", 3),
        Err(ReadRefusal::TooLong) => write_bytes(sink, b"too long\n", 8),
        Err(ReadRefusal::NoMemory) => 5,
        Ok(bytes) => write_output(sink, answer(alloc, form, bytes.as_slice())),
    }
}

/// Does what the words ask for: reads the source, writes to the sink, and answers the status:
///
/// - 0: the script was run, and its journal is written, or the load was, and its summary is, or the
///   journal that was read is legal, and `legal N` is written, or the packets were read, and their
///   lines are;
/// - 1: the words are no form, and the usage line is written;
/// - 2: the input is no script or no journal, and `bad line N: WHY` names its first bad line and
///   that line's first cause, or it is no packets, and the line of its first bad byte is written;
/// - 3: the source failed, and `read fault` is written;
/// - 4: the sink failed, and a prefix of what was to be written is. It takes the place of any
///   other status;
/// - 5: no memory was left, and nothing is written, or a prefix of the answer;
/// - 6: the driver made as many entries as its budget and isn't at its end; the journal or the
///   summary is written;
/// - 7: the journal that was read isn't legal, and `illegal N WHY` names the first entry that fails
///   and how;
/// - 8: the input has more bytes than its form's limit, 67,108,864 for a journal and 1,048,576
///   otherwise, and `too long` is written.
///
/// Where the words are no form or a load the source isn't read. Else with 0, 2, 6 and 7 it was read
/// to its end.
pub fn run_words<S: Source, K: Sink>(
    alloc: Global,
    words: &[String],
    source: &mut S,
    sink: &mut K,
) -> u8
    ensures output { result ≢ 4 → result ≢ 5 →
        WritesAll (IsOutput words.now (Rose (S.faults source.old) (S.faults source.new))
        (S.left source.old) (S.left source.new) result)
        (K.written sink.old) (K.written sink.new) }
    ensures prefix { result ≡ 4 →
        WritesSome (IsOutput words.now (Rose (S.faults source.old) (S.faults source.new))
        (S.left source.old) (S.left source.new))
        (K.written sink.old) (K.written sink.new) }
    ensures memory { result ≡ 5 →
        WritesAtMost (IsFormAnswer words.now (S.left source.old) (S.left source.new))
        (K.written sink.old) (K.written sink.new) }
    ensures usage { result ≡ 1 → IsNoForm words.now }
    ensures no_form { IsNoForm words.now → IsOneOf (1 ∷ 4 ∷ []) result }
    ensures unread { IsNoForm words.now → source.new ≡ source.old }
    ensures load { (rounds : ℕ) → Asks words.now (Form.Load rounds) → IsOneOf (0 ∷ 4 ∷ 5 ∷ 6 ∷ []) result }
    ensures load_unread { (rounds : ℕ) → Asks words.now (Form.Load rounds) → source.new ≡ source.old }
    ensures read { result ≡ 3 → Rose (S.faults source.old) (S.faults source.new) }
    ensures write { result ≡ 4 → Rose (K.faults sink.old) (K.faults sink.new) }
    ensures long { result ≡ 8 → IsTooLong words.now (S.left source.old) (S.left source.new) }
    ensures within { (form : InputForm) → Asks words.now (Form.Input form) → result ≢ 4 → result ≢ 8 →
        GivesUpTo (S.left source.old) (S.left source.new) (limit_of form) }
    ensures whole { (form : InputForm) → Asks words.now (Form.Input form) →
        IsOneOf (0 ∷ 2 ∷ 6 ∷ 7 ∷ []) result → HasNoneLeft (S.left source.old) (S.left source.new) }
    ensures complete { (form : InputForm) → Asks words.now (Form.Input form) →
        OfBytes (S.left source.old) (λ bytes. IsComplete form bytes result) }
    ensures statuses { IsOneOf (0 ∷ 1 ∷ 2 ∷ 3 ∷ 4 ∷ 5 ∷ 6 ∷ 7 ∷ 8 ∷ []) result }
{
    match read_form(words) {
        None => write_bytes(sink, USAGE, 1),
        Some(Form::Load(rounds)) => write_output(sink, run_load(alloc, rounds)),
        Some(Form::Input(form)) => run_input(alloc, form, source, sink),
    }
}
