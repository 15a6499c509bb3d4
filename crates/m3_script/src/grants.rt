//! Grants, by their words.

ghost use Rattle.std.specs.Prelude.{◌≡◌, length, IfOk};
ghost use Rattle.m3_text.specs.Lines.{texts};
ghost use Rattle.m3_text.specs.Refusable.{Gives};
ghost use Rattle.m3_text.specs.LineForm.{form_test};
ghost use Rattle.m3_script.specs.Grants.{recv_form, send_form, range_form, part_form, recv_of, send_of, range_of, part_of, grant_of};

use crate::fields::{read_perm, read_u32};
use m3_base::order::GrantLine;
use m3_text::fields::{read_act, read_ep, read_grant};
use m3_text::numbers::number;
use m3_text::refusal::{LineRefusal, Why};
use m3_text::shapes::{cut_first, form_test, word};

/// The grant of these words, whose first is that of its kind.
#[tactic(auto, unfolding(crate::specs::Grants::grant_of))]
pub fn read_grant_line(words: &[&[u8]]) -> Result<GrantLine, LineRefusal>
    ensures { Gives (λ l. l) result (grant_of (texts words.now)) }
{
    let (first, rest) = cut_first(words);
    if first == b"recv".as_slice() {
        read_recv(rest)
    } else if first == b"send".as_slice() {
        read_send(rest)
    } else if first == b"range".as_slice() {
        read_range(rest)
    } else if first == b"part".as_slice() {
        read_part(rest)
    } else {
        Err(LineRefusal::Bad(Why::Form))
    }
}

/// `recv A E slots N size B`
#[tactic(auto, unfolding(crate::specs::Grants::recv_of))]
fn read_recv(words: &[&[u8]]) -> Result<GrantLine, LineRefusal>
    ensures { Gives (λ l. l) result (recv_of (texts words.now)) }
{
    recv_test(words)?;
    let act = read_act(word(words, 0))?;
    let ep = read_ep(word(words, 1))?;
    let slots = number(word(words, 3), 1, 32)? as u8;
    let size = number(word(words, 5), 1, 512)? as u16;
    Ok(GrantLine::Recv {
        act,
        ep,
        slots,
        size,
    })
}

#[tactic(auto, unfolding(crate::specs::Grants::recv_form))]
fn recv_test(words: &[&[u8]]) -> Result<(), LineRefusal>
    ensures test { Gives (λ u. u) result (form_test recv_form (texts words.now)) }
    ensures count { IfOk result (λ u. length words.now ≡ 6) }
{
    form_test(&[b"", b"", b"slots", b"", b"size", b""], words)
}

/// `send A E of G label L credits C`
#[tactic(auto, unfolding(crate::specs::Grants::send_of))]
fn read_send(words: &[&[u8]]) -> Result<GrantLine, LineRefusal>
    ensures { Gives (λ l. l) result (send_of (texts words.now)) }
{
    send_test(words)?;
    let act = read_act(word(words, 0))?;
    let ep = read_ep(word(words, 1))?;
    let of = read_grant(word(words, 3))?;
    let label = number(word(words, 5), 0, u64::MAX)?;
    let credits = number(word(words, 7), 1, 32)? as u8;
    Ok(GrantLine::Send {
        act,
        ep,
        of,
        label,
        credits,
    })
}

#[tactic(auto, unfolding(crate::specs::Grants::send_form))]
fn send_test(words: &[&[u8]]) -> Result<(), LineRefusal>
    ensures test { Gives (λ u. u) result (form_test send_form (texts words.now)) }
    ensures count { IfOk result (λ u. length words.now ≡ 8) }
{
    form_test(
        &[b"", b"", b"of", b"", b"label", b"", b"credits", b""],
        words,
    )
}

/// `range A E at P len B perm X`
#[tactic(auto, unfolding(crate::specs::Grants::range_of))]
fn read_range(words: &[&[u8]]) -> Result<GrantLine, LineRefusal>
    ensures { Gives (λ l. l) result (range_of (texts words.now)) }
{
    range_test(words)?;
    let perm = read_perm(word(words, 7))?;
    let act = read_act(word(words, 0))?;
    let ep = read_ep(word(words, 1))?;
    let at = read_u32(word(words, 3))?;
    let len = number(word(words, 5), 1, 4294967295)? as u32;
    Ok(GrantLine::Range {
        act,
        ep,
        at,
        len,
        perm,
    })
}

#[tactic(auto, unfolding(crate::specs::Grants::range_form))]
fn range_test(words: &[&[u8]]) -> Result<(), LineRefusal>
    ensures test { Gives (λ u. u) result (form_test range_form (texts words.now)) }
    ensures count { IfOk result (λ u. length words.now ≡ 8) }
{
    form_test(&[b"", b"", b"at", b"", b"len", b"", b"perm", b""], words)
}

/// `part A E of G at P len B perm X`
#[tactic(auto, unfolding(crate::specs::Grants::part_of))]
fn read_part(words: &[&[u8]]) -> Result<GrantLine, LineRefusal>
    ensures { Gives (λ l. l) result (part_of (texts words.now)) }
{
    part_test(words)?;
    let perm = read_perm(word(words, 9))?;
    let act = read_act(word(words, 0))?;
    let ep = read_ep(word(words, 1))?;
    let of = read_grant(word(words, 3))?;
    let at = read_u32(word(words, 5))?;
    let len = number(word(words, 7), 1, 4294967295)? as u32;
    Ok(GrantLine::Part {
        act,
        ep,
        of,
        at,
        len,
        perm,
    })
}

#[tactic(auto, unfolding(crate::specs::Grants::part_form))]
fn part_test(words: &[&[u8]]) -> Result<(), LineRefusal>
    ensures test { Gives (λ u. u) result (form_test part_form (texts words.now)) }
    ensures count { IfOk result (λ u. length words.now ≡ 10) }
{
    form_test(
        &[b"", b"", b"of", b"", b"at", b"", b"len", b"", b"perm", b""],
        words,
    )
}
