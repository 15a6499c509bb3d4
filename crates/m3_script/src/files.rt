//! Lines on files, by their words.

ghost use Rattle.std.specs.Prelude.{◌≡◌};
ghost use Rattle.m3_text.specs.Lines.{texts};
ghost use Rattle.m3_text.specs.Refusable.{Gives};
ghost use Rattle.m3_script.specs.Events.{create_of, extend_of, remove_of, open_of, close_file_of, file_of};

use crate::fields::{read_name, read_perm, read_u32};
use m3_base::order::FileLine;
use m3_text::fields::{read_act, read_ep, read_grant};
use m3_text::numbers::number;
use m3_text::refusal::{LineRefusal, Why};
use m3_text::shapes::{count_test, cut_first, word};
use std::alloc::Global;

/// The line on files of these words, which come after `file`.
#[tactic(auto, unfolding(crate::specs::Events::file_of))]
pub fn read_file(alloc: Global, words: &[&[u8]]) -> Result<FileLine, LineRefusal>
    ensures { Gives (λ l. l) result (file_of (texts words.now)) }
{
    let (first, rest) = cut_first(words);
    if first == b"create".as_slice() {
        read_create(alloc, rest)
    } else if first == b"extend".as_slice() {
        read_extend(alloc, rest)
    } else if first == b"remove".as_slice() {
        read_remove(alloc, rest)
    } else if first == b"open".as_slice() {
        read_open(alloc, rest)
    } else if first == b"close".as_slice() {
        read_close(rest)
    } else {
        Err(LineRefusal::Bad(Why::Form))
    }
}

/// `file create NAME`
#[tactic(auto, unfolding(crate::specs::Events::create_of))]
fn read_create(alloc: Global, words: &[&[u8]]) -> Result<FileLine, LineRefusal>
    ensures { Gives (λ l. l) result (create_of (texts words.now)) }
{
    count_test(words, 1)?;
    let name = read_name(alloc, word(words, 0))?;
    Ok(FileLine::Create(name))
}

/// `file extend NAME BYTES`
#[tactic(auto, unfolding(crate::specs::Events::extend_of))]
fn read_extend(alloc: Global, words: &[&[u8]]) -> Result<FileLine, LineRefusal>
    ensures { Gives (λ l. l) result (extend_of (texts words.now)) }
{
    count_test(words, 2)?;
    let name = read_name(alloc, word(words, 0))?;
    let bytes = number(word(words, 1), 1, 4294967295)? as u32;
    Ok(FileLine::Extend(name, bytes))
}

/// `file remove NAME`
#[tactic(auto, unfolding(crate::specs::Events::remove_of))]
fn read_remove(alloc: Global, words: &[&[u8]]) -> Result<FileLine, LineRefusal>
    ensures { Gives (λ l. l) result (remove_of (texts words.now)) }
{
    count_test(words, 1)?;
    let name = read_name(alloc, word(words, 0))?;
    Ok(FileLine::Remove(name))
}

/// `file open NAME OFF A E X`
#[tactic(auto, unfolding(crate::specs::Events::open_of))]
fn read_open(alloc: Global, words: &[&[u8]]) -> Result<FileLine, LineRefusal>
    ensures { Gives (λ l. l) result (open_of (texts words.now)) }
{
    count_test(words, 5)?;
    let name = read_name(alloc, word(words, 0))?;
    let perm = read_perm(word(words, 4))?;
    let off = read_u32(word(words, 1))?;
    let act = read_act(word(words, 2))?;
    let ep = read_ep(word(words, 3))?;
    Ok(FileLine::Open {
        name,
        off,
        act,
        ep,
        perm,
    })
}

/// `file close G`
#[tactic(auto, unfolding(crate::specs::Events::close_file_of))]
fn read_close(words: &[&[u8]]) -> Result<FileLine, LineRefusal>
    ensures { Gives (λ l. l) result (close_file_of (texts words.now)) }
{
    count_test(words, 1)?;
    let grant = read_grant(word(words, 0))?;
    Ok(FileLine::Close(grant))
}
