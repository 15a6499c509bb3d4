//! Bytes that stand for one of several things.

ghost use Rattle.std.specs.Prelude.{◌≡◌};
ghost use Rattle.m3_wire.specs.Decoders.{kind_of, answer_form_of, record_form_of, perm_of, code_of_refusal};

use m3_base::command::Refusal;
use m3_base::packet::Perm;

/// Something that a byte stands for.
pub trait TagCode: Sized + Drop {
    ghost use Rattle.std.specs.Prelude.{◌≡◌, ℕ, Option};

    // What each byte stands for.
    ghost of_byte: { ℕ → Option Self };

    /// What this byte stands for, if anything.
    fn from_code(byte: u8) -> Option<Self>
        ensures { result ≡ of_byte byte };
}

/// The kinds of packets, 1 to 7 in this order.
#[derive(Clone, Copy, Debug, PartialEq, Eq, Drop)]
pub enum PacketTag {
    Message,
    Credit,
    Read,
    Write,
    Answer,
    Install,
    Close,
}

/// The forms of answers, 0 to 4 in this order.
#[derive(Clone, Copy, Debug, PartialEq, Eq, Drop)]
pub enum AnswerTag {
    Sent,
    Replied,
    Written,
    Bytes,
    Refused,
}

/// The forms of records, 1 to 3 in this order.
#[derive(Clone, Copy, Debug, PartialEq, Eq, Drop)]
pub enum RecordTag {
    Send,
    Receive,
    Memory,
}

impl TagCode for PacketTag {
    ghost of_byte = { kind_of };

    fn from_code(byte: u8) -> Option<PacketTag> {
        match byte {
            1 => Some(PacketTag::Message),
            2 => Some(PacketTag::Credit),
            3 => Some(PacketTag::Read),
            4 => Some(PacketTag::Write),
            5 => Some(PacketTag::Answer),
            6 => Some(PacketTag::Install),
            7 => Some(PacketTag::Close),
            _ => None,
        }
    }
}

impl TagCode for AnswerTag {
    ghost of_byte = { answer_form_of };

    fn from_code(byte: u8) -> Option<AnswerTag> {
        match byte {
            0 => Some(AnswerTag::Sent),
            1 => Some(AnswerTag::Replied),
            2 => Some(AnswerTag::Written),
            3 => Some(AnswerTag::Bytes),
            4 => Some(AnswerTag::Refused),
            _ => None,
        }
    }
}

impl TagCode for RecordTag {
    ghost of_byte = { record_form_of };

    fn from_code(byte: u8) -> Option<RecordTag> {
        match byte {
            1 => Some(RecordTag::Send),
            2 => Some(RecordTag::Receive),
            3 => Some(RecordTag::Memory),
            _ => None,
        }
    }
}

impl TagCode for Perm {
    ghost of_byte = { perm_of };

    fn from_code(byte: u8) -> Option<Perm> {
        match byte {
            1 => Some(Perm::R),
            2 => Some(Perm::W),
            3 => Some(Perm::Rw),
            _ => None,
        }
    }
}

impl TagCode for Refusal {
    ghost of_byte = { code_of_refusal };

    fn from_code(byte: u8) -> Option<Refusal> {
        match byte {
            1 => Some(Refusal::NoEndpoint),
            2 => Some(Refusal::NoCredits),
            3 => Some(Refusal::TooLarge),
            4 => Some(Refusal::Revoked),
            5 => Some(Refusal::Full),
            6 => Some(Refusal::OutOfRange),
            7 => Some(Refusal::NoPermission),
            8 => Some(Refusal::NoReplyWanted),
            9 => Some(Refusal::NoSuchToken),
            10 => Some(Refusal::BadReplyEndpoint),
            _ => None,
        }
    }
}
