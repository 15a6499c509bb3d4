//! The words of the command line.

ghost use Rattle.std.specs.Prelude.{◌≡◌, ◌<◌, ◌≤◌, ◌^◌, IsTrue, IfSome, string_bytes};
ghost use Rattle.std.specs.Option.{SomeIff};
ghost use Rattle.std.specs.Str.{all_ascii_digits};
ghost use Rattle.m3_text.specs.Number.{is_decimal, read_on};
ghost use Rattle.m3_cmd.specs.CommandLine.{HasRounds, form_of, json_form, limit_of, load_of, words_of};

use m3_base::limits::MOST_SCRIPT_BYTES;

/// Bytes of a journal that is checked.
const MOST_JOURNAL_BYTES: u32 = 67_108_864;

/// How a journal is written.
#[derive(Clone, Copy, Debug, PartialEq, Eq, Drop)]
pub enum Format {
    /// As lines of text.
    Text,
    /// As JSON, in one line.
    Json,
}

/// What a list of words asks for, where it reads an input.
#[derive(Clone, Copy, Debug, PartialEq, Eq, Drop)]
pub enum InputForm {
    /// Run the script that is read.
    Run(Format),
    /// Run the script that is read, whose other events the driver makes.
    Auto(Format),
    /// Check the journal that is read.
    Check,
    /// Show the packets that are read.
    Show,
}

/// What a list of words asks for.
#[derive(Clone, Copy, Debug, PartialEq, Eq, Drop)]
pub enum Form {
    Input(InputForm),
    /// Run the load of so many rounds, 1 to 500.
    Load(u16),
}

/// The form that the words are, or none.
pub fn read_form(words: &[String]) -> Option<Form>
    ensures form { result ≡ form_of (words_of words.now) }
    ensures range { IfSome result HasRounds }
{
    match words {
        [word] if word.as_str() == "run" => Some(Form::Input(InputForm::Run(Format::Text))),
        [word] if word.as_str() == "auto" => Some(Form::Input(InputForm::Auto(Format::Text))),
        [word] if word.as_str() == "check" => Some(Form::Input(InputForm::Check)),
        [word] if word.as_str() == "show" => Some(Form::Input(InputForm::Show)),
        [word, json] if json.as_str() == "--json" => read_json(word),
        [word, rounds] if word.as_str() == "load" => read_load(rounds.as_bytes()),
        _ => None,
    }
}

/// The form that this word is with `--json` behind it.
fn read_json(word: &String) -> Option<Form>
    ensures form { result ≡ json_form (string_bytes word.now) }
    ensures range { IfSome result HasRounds }
{
    if word.as_str() == "run" {
        Some(Form::Input(InputForm::Run(Format::Json)))
    } else if word.as_str() == "auto" {
        Some(Form::Input(InputForm::Auto(Format::Json)))
    } else {
        None
    }
}

/// The most bytes that the input of this form has.
pub fn limit_of(form: InputForm) -> u32
    ensures { result ≡ limit_of form }
{
    match form {
        InputForm::Check => MOST_JOURNAL_BYTES,
        _ => MOST_SCRIPT_BYTES,
    }
}

/// The load of so many rounds, 1 to 500, decimal without a needless zero in front.
#[tactic(auto, unfolding(m3_text::specs::Number::number))]
fn read_load(rounds: &[u8]) -> Option<Form>
    ensures form { result ≡ load_of rounds.now }
    ensures range { IfSome result HasRounds }
{
    match value(rounds) {
        Some(n) if 1 <= n && n <= 500 => Some(Form::Load(n as u16)),
        _ => None,
    }
}

/// What a decimal number stands for, where it fits.
fn value(word: &[u8]) -> Option<u64>
    ensures { SomeIff result (IsTrue (is_decimal word.now) × (read_on 0 word.now < 2 ^ 64)) (read_on 0 word.now) }
{
    match word {
        [] | [b'0', _, ..] => None,
        _ => digits_value(word),
    }
}

fn digits_value(word: &[u8]) -> Option<u64>
    ensures { SomeIff result (IsTrue (all_ascii_digits word.now) × (read_on 0 word.now < 2 ^ 64)) (read_on 0 word.now) }
{
    let mut value: u64 = 0;
    for digit in word {
        if !digit.is_ascii_digit() {
            return None;
        }
        value = value.checked_mul(10)?.checked_add((*digit - b'0') as u64)?;
    }
    Some(value)
}
