//! The words of orders and of lines on files.

ghost use Rattle.std.specs.Prelude.{◌≡◌, ◌++◌, OnOk, string_bytes};
ghost use Rattle.m3_text.specs.Printing.{words_text, line_text};
ghost use Rattle.m3_journal.specs.Orders.{perm_word, extent_words, grant_words, order_words, file_words};

use m3_base::order::{FileLine, GrantLine, Order};
use m3_base::packet::Perm;
use m3_text::printing::{put_field, put_word};
use std::alloc::AllocError;

fn perm_word(perm: Perm) -> &'static str
    ensures { result.now ≡ perm_word perm }
{
    match perm {
        Perm::R => "r",
        Perm::W => "w",
        Perm::Rw => "rw",
    }
}

pub fn put_extent(out: &mut String, at: u32, len: u32, perm: Perm) -> Result<(), AllocError>
    ensures { OnOk result (string_bytes out.new ≡ string_bytes out.old ++ words_text (extent_words at len perm)) }
{
    let perm = perm_word(perm);
    put_field(out, " at ", at as u64)?;
    put_field(out, " len ", len as u64)?;
    out.push_str(" perm")?;
    put_word(out, perm)
}

pub fn put_grant(out: &mut String, line: &GrantLine) -> Result<(), AllocError>
    ensures { OnOk result (string_bytes out.new ≡ string_bytes out.old ++ line_text (grant_words line.now)) }
{
    match line {
        GrantLine::Recv {
            act,
            ep,
            slots,
            size,
        } => {
            let act = act.number();
            let ep = ep.number();
            put_field(out, "recv ", act as u64)?;
            put_field(out, " ", ep as u64)?;
            put_field(out, " slots ", *slots as u64)?;
            put_field(out, " size ", *size as u64)
        }
        GrantLine::Send {
            act,
            ep,
            of,
            label,
            credits,
        } => {
            let act = act.number();
            let ep = ep.number();
            let of = of.number();
            put_field(out, "send ", act as u64)?;
            put_field(out, " ", ep as u64)?;
            put_field(out, " of ", of as u64)?;
            put_field(out, " label ", *label)?;
            put_field(out, " credits ", *credits as u64)
        }
        GrantLine::Range {
            act,
            ep,
            at,
            len,
            perm,
        } => {
            let act = act.number();
            let ep = ep.number();
            put_field(out, "range ", act as u64)?;
            put_field(out, " ", ep as u64)?;
            put_extent(out, *at, *len, *perm)
        }
        GrantLine::Part {
            act,
            ep,
            of,
            at,
            len,
            perm,
        } => {
            let act = act.number();
            let ep = ep.number();
            let of = of.number();
            put_field(out, "part ", act as u64)?;
            put_field(out, " ", ep as u64)?;
            put_field(out, " of ", of as u64)?;
            put_extent(out, *at, *len, *perm)
        }
    }
}

#[tactic(auto, using(crate::proofs::Spacing::spaced_grant))]
pub fn put_order(out: &mut String, order: &Order) -> Result<(), AllocError>
    ensures { OnOk result (string_bytes out.new ≡ string_bytes out.old ++ line_text (order_words order.now)) }
{
    match order {
        Order::Switch { tile, act } => {
            let tile = tile.number();
            let act = act.number();
            put_field(out, "switch ", tile as u64)?;
            put_field(out, " ", act as u64)
        }
        Order::Grant(line) => {
            out.push_str("grant ")?;
            put_grant(out, line)
        }
        Order::Revoke(grant) => {
            let grant = grant.number();
            put_field(out, "revoke ", grant as u64)
        }
    }
}

pub fn put_file(out: &mut String, line: &FileLine) -> Result<(), AllocError>
    ensures { OnOk result (string_bytes out.new ≡ string_bytes out.old ++ line_text (file_words line.now)) }
{
    match line {
        FileLine::Create(name) => {
            let name = name.text();
            out.push_str("file create")?;
            put_word(out, name)
        }
        FileLine::Extend(name, bytes) => {
            let name = name.text();
            out.push_str("file extend")?;
            put_word(out, name)?;
            put_field(out, " ", *bytes as u64)
        }
        FileLine::Remove(name) => {
            let name = name.text();
            out.push_str("file remove")?;
            put_word(out, name)
        }
        FileLine::Open {
            name,
            off,
            act,
            ep,
            perm,
        } => {
            let name = name.text();
            let act = act.number();
            let ep = ep.number();
            let perm = perm_word(*perm);
            out.push_str("file open")?;
            put_word(out, name)?;
            put_field(out, " ", *off as u64)?;
            put_field(out, " ", act as u64)?;
            put_field(out, " ", ep as u64)?;
            put_word(out, perm)
        }
        FileLine::Close(grant) => {
            let grant = grant.number();
            put_field(out, "file close ", grant as u64)
        }
    }
}
