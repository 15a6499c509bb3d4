//! A journal is read and checked, and the verdict is the answer.

ghost use Rattle.std.specs.Prelude.{◌≡◌, ◌≤◌, length, IfOk};
ghost use Rattle.m3_journal.specs.Reading.Refusals.{AreFew, Parses};
ghost use Rattle.m3_cmd.specs.CheckContract.{IsCheckAnswer, input_journal, is_json, verdict_line, verdict_status, why_word};
ghost use Rattle.m3_cmd.specs.CommandLine.{limit_of};
ghost use Rattle.m3_cmd.specs.declared.words.InputForm.{InputForm as InputFormValue};

use crate::output::{Output, bad_line};
use m3_base::journal::{Audit, Journal};
use m3_ideal::check::check;
use m3_ideal::verdict::{Verdict, Why};
use m3_journal::parse_journal;
use m3_journal_json::from_json;
use m3_script::ScriptRefusal;
use std::alloc::{AllocError, Global};
use std::fmt::Write;

fn is_json(bytes: &[u8]) -> bool
    ensures { result ≡ is_json bytes.now }
{
    matches!(bytes, [b'{', ..])
}

/// The journal that the bytes are, JSON where the first is `{`, or their first bad line.
fn read_journal(alloc: Global, bytes: &[u8]) -> Result<(Journal, Audit), ScriptRefusal>
    requires { length bytes.now ≤ limit_of InputFormValue.Check }
    ensures exact { Parses result (input_journal bytes.now) }
    ensures few { AreFew result }
{
    if is_json(bytes) {
        from_json(alloc, bytes)
    } else {
        parse_journal(alloc, bytes)
    }
}

fn why_word(why: Why) -> &'static str
    ensures { result.now ≡ why_word why }
{
    match why {
        Why::Step => "step",
        Why::Reply => "reply",
        Why::Audit => "audit",
    }
}

/// The line of a verdict.
fn verdict_output(alloc: Global, verdict: Verdict) -> Result<Output, AllocError>
    ensures status { IfOk result (λ o. o.status ≡ verdict_status verdict) }
    ensures text { IfOk result (λ o. o.text.items ≡ verdict_line verdict) }
{
    let mut out = String::new(alloc);
    let status = match verdict {
        Verdict::Legal(entries) => {
            write!(out, "legal {entries}\n")?;
            0
        }
        Verdict::Illegal { entry, why } => {
            let word = why_word(why);
            write!(out, "illegal {entry} {word}\n")?;
            7
        }
    };
    Ok(Output {
        status,
        text: out.into_bytes(),
    })
}

/// The verdict on the journal that these bytes are, or their first bad line.
pub fn check_journal(alloc: Global, bytes: &[u8]) -> Result<Output, AllocError>
    requires { length bytes.now ≤ limit_of InputFormValue.Check }
    ensures { IfOk result (λ o. IsCheckAnswer bytes.now o.status o.text.items) }
{
    match read_journal(alloc, bytes) {
        Err(ScriptRefusal::NoMemory) => Err(AllocError),
        Err(ScriptRefusal::Bad { line, why }) => bad_line(alloc, line, why),
        Ok((journal, audit)) => {
            let verdict = check(alloc, &journal, &audit)?;
            verdict_output(alloc, verdict)
        }
    }
}
