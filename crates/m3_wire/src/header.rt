//! Headers: 28 bytes.

ghost use Rattle.std.specs.Prelude.{◌≡◌, ◌++◌, List, ℕ, IfOk, IfErr};
ghost use Rattle.m3_wire.specs.ByteReader.{Gives};
ghost use Rattle.m3_wire.specs.Grammar.{IsFirst, Refuses, IsRead, TakesNone};
ghost use Rattle.m3_wire.specs.Headers.{FitsHeader, IsHeader, header_bytes, part_in_header};
ghost use Rattle.m3_wire.specs.Decoders.{header};
ghost use Rattle.m3_wire.specs.Refusals.{refusal_of};
ghost use Rattle.m3_base.specs.declared.message.Header.{Header};

use crate::encode::{u16_bytes, u32_bytes, u64_bytes};
use crate::reader::Reader;
use crate::refusal::{Fault, WireRefusal, bad_at, header_part};
use m3_base::limits::{MOST_GRANTS, MOST_MESSAGE, NO_REPLY};
use m3_base::message::Header;

/// The bytes of a header whose fields are within their ranges.
pub fn encode_header(h: &Header) -> [u8; 28]
    requires { FitsHeader h.now }
    ensures { result ≡ header_bytes h.now }
{
    let sender = h.sender.number();
    let [a0, a1] = u16_bytes(h.length);
    let [b0, b1, b2, b3] = u32_bytes(h.send);
    let [c0, c1, c2, c3] = u32_bytes(h.reply);
    let [d0, d1, d2, d3] = u32_bytes(h.number);
    let [e0, e1, e2, e3, e4, e5, e6, e7] = u64_bytes(h.label);
    [
        h.flags, h.reply_ep, sender, h.lane, a0, a1, 0, 0, b0, b1, b2, b3, c0, c1, c2, c3, d0, d1,
        d2, d3, e0, e1, e2, e3, e4, e5, e6, e7,
    ]
}

impl<'a> Reader<'a> {
    /// A header.
    #[tactic(auto, unfolding(crate::specs::ByteReader::pair, crate::specs::ByteReader::mapped))]
    #[inline(always)]
    pub fn header(&mut self) -> Result<Header, Fault>
        ensures { Gives result self.new.rest.now (header self.old.rest.now) }
    {
        let flags = self.byte_in_range(0, 1)?;
        let reply_ep = self.reply_ep(flags)?;
        let sender = self.act()?;
        let lane = self.byte_in_range(0, 0)?;
        let length = self.number(2, 0, MOST_MESSAGE as u64)?;
        let _ = self.number(2, 0, 0)?;
        let send = self.number(4, 1, MOST_GRANTS as u64)?;
        let (least, most) = if reply_ep == NO_REPLY {
            (0, 0)
        } else {
            (1, MOST_GRANTS as u64)
        };
        let reply = self.number(4, least, most)?;
        let number = self.count()?;
        let label = self.label()?;
        Ok(Header {
            flags,
            reply_ep,
            sender,
            lane,
            length: length as u16,
            send: send as u32,
            reply: reply as u32,
            number,
            label,
        })
    }
}

fn refusal(bytes: &[u8], fault: Fault) -> WireRefusal
    ensures { result ≡ refusal_of part_in_header bytes.now fault }
{
    match fault {
        Fault::Short => WireRefusal::Short { at: bytes.len() },
        Fault::Bad(left) => {
            let at = bytes.len().saturating_sub(left);
            bad_at(header_part(at), at)
        }
    }
}

/// The header in the first 28 bytes. It takes no memory: `NoMemory` never comes.
pub fn decode_header(bytes: &[u8]) -> Result<Header, WireRefusal>
    ensures found { IfOk result (λ h. IsFirst IsHeader bytes.now h 28) }
    ensures refused { IfErr result (λ e. Refuses IsHeader part_in_header bytes.now e × TakesNone e) }
    ensures again { (h : Header) (text rest : List ℕ) → IsHeader h text → bytes.now ≡ text ++ rest → IsRead result h }
{
    let mut input = Reader { rest: bytes };
    match input.header() {
        Ok(header) => Ok(header),
        Err(fault) => Err(refusal(bytes, fault)),
    }
}
