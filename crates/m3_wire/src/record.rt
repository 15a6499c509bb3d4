//! Answers and records, as packets carry them.

ghost use Rattle.std.specs.Prelude.{◌≡◌};
ghost use Rattle.m3_wire.specs.ByteReader.{Gives, Reads};
ghost use Rattle.m3_wire.specs.Decoders.{answer, fresh, fresh_by};
ghost use Rattle.m3_wire.specs.declared.codes.RecordTag.TheVariants as RecordTag;

use crate::codes::{AnswerTag, RecordTag};
use crate::reader::Reader;
use crate::refusal::{Fault, ReadError};
use m3_base::command::{Answer, Refusal};
use m3_base::limits::{MOST_BYTES, MOST_CREDITS, MOST_MEMORY, MOST_MESSAGE, MOST_SLOTS};
use m3_base::packet::{Fresh, Perm};
use std::alloc::Global;

impl<'a> Reader<'a> {
    /// An answer.
    #[tactic(auto, unfolding(crate::specs::ByteReader::pair, crate::specs::ByteReader::mapped))]
    #[inline(always)]
    pub fn answer(&mut self, alloc: Global) -> Result<Answer, ReadError>
        ensures { Reads result self.new.rest.now (answer self.old.rest.now) }
    {
        let form: AnswerTag = self.tagged()?;
        match form {
            AnswerTag::Sent => Ok(Answer::Sent),
            AnswerTag::Replied => Ok(Answer::Replied),
            AnswerTag::Written => Ok(Answer::Written),
            AnswerTag::Bytes => {
                let bytes = self.length_prefixed(alloc, MOST_BYTES)?;
                Ok(Answer::Bytes(bytes))
            }
            AnswerTag::Refused => {
                let why: Refusal = self.tagged()?;
                Ok(Answer::Refused(why))
            }
        }
    }

    /// A record.
    #[tactic(auto, unfolding(crate::specs::ByteReader::pair, crate::specs::ByteReader::mapped))]
    pub fn fresh(&mut self) -> Result<Fresh, Fault>
        ensures { Gives result self.new.rest.now (fresh self.old.rest.now) }
    {
        let form: RecordTag = self.tagged()?;
        match form {
            RecordTag::Send => self.send_record(),
            RecordTag::Receive => self.receive_record(),
            RecordTag::Memory => self.memory_record(),
        }
    }

    #[tactic(auto, unfolding(crate::specs::ByteReader::pair, crate::specs::ByteReader::mapped))]
    fn send_record(&mut self) -> Result<Fresh, Fault>
        ensures { Gives result self.new.rest.now (fresh_by RecordTag.Send self.old.rest.now) }
    {
        let grant = self.grant()?;
        let to = self.act()?;
        let to_ep = self.ep()?;
        let to_grant = self.grant()?;
        let label = self.label()?;
        let size = self.number(2, 1, MOST_MESSAGE as u64)?;
        let limit = self.byte_in_range(1, MOST_CREDITS)?;
        Ok(Fresh::Send {
            grant,
            to,
            to_ep,
            to_grant,
            label,
            size: size as u16,
            limit,
        })
    }

    #[tactic(auto, unfolding(crate::specs::ByteReader::pair, crate::specs::ByteReader::mapped))]
    fn receive_record(&mut self) -> Result<Fresh, Fault>
        ensures { Gives result self.new.rest.now (fresh_by RecordTag.Receive self.old.rest.now) }
    {
        let grant = self.grant()?;
        let slots = self.byte_in_range(1, MOST_SLOTS)?;
        let size = self.number(2, 1, MOST_MESSAGE as u64)?;
        Ok(Fresh::Receive {
            grant,
            slots,
            size: size as u16,
        })
    }

    // The range lies inside the largest memory and isn't empty.
    #[tactic(auto, unfolding(crate::specs::ByteReader::pair, crate::specs::ByteReader::mapped))]
    fn memory_record(&mut self) -> Result<Fresh, Fault>
        ensures { Gives result self.new.rest.now (fresh_by RecordTag.Memory self.old.rest.now) }
    {
        let grant = self.grant()?;
        let start = self.number(4, 0, (MOST_MEMORY - 1) as u64)?;
        let length = self.number(4, 1, MOST_MEMORY as u64 - start)?;
        let perm: Perm = self.tagged()?;
        Ok(Fresh::Memory {
            grant,
            start: start as u32,
            length: length as u32,
            perm,
        })
    }
}
