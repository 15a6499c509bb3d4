//! Memory that is taken before a program is asked, so that its move can be made whatever memory is left then.

ghost use Rattle.std.specs.Prelude.{◌≡◌, ◌≤◌, length, replicate, true, OnOk, IsTrue};
ghost use Rattle.m3_base.specs.Limits.{is_short};
ghost use Rattle.m3_core.specs.IssueView.{oldest};
ghost use Rattle.m3_core.specs.Preconditions.{IsBufferFor};
ghost use Rattle.m3_engine.specs.SparesView.{AreFull};

use m3_base::command::Command;
use m3_base::limits::MOST_PAYLOAD;
use m3_base::message::Message;
use m3_base::payload::Payload;
use m3_core::context::Context;
use std::alloc::{AllocError, Global};
use std::marker::Model;
use std::mem;

/// The longest read.
const MOST_READ: usize = 4096;

/// The longest message.
const MOST_MESSAGE: usize = 512;

/// Memory for so many bytes, without any. Contracts see how many.
#[derive(Drop)]
pub struct Spare {
    bytes: Vec<u8>,
}

impl Model for Spare {
    ghost use Rattle.std.specs.Prelude.{ℕ, [], vec_len, vec_capacity, ◌≡◌};

    ghost Value = { ℕ };

    ghost view = { λ s. vec_capacity s.bytes };

    ghost invariant = { λ s. (s.bytes.items ≡ []) × (vec_len s.bytes ≡ 0) };
}

/// What one turn of a program takes at most: the entry's copy of a payload, the buffer of a read, and a fetched message
/// for the entry and for the program.
#[derive(Drop)]
pub struct Spares {
    pub payload: Spare,
    pub buffer: Spare,
    pub shown: Spare,
    pub reply: Spare,
}

impl Spare {
    fn new(alloc: Global) -> Spare {
        Spare {
            bytes: Vec::new(alloc),
        }
    }

    /// From now on there is memory for so many bytes.
    #[inline(always)]
    fn refill(&mut self, size: usize) -> Result<(), AllocError>
        ensures grown { self.old ≤ self.new }
        ensures full { OnOk result (size ≤ self.new) }
    {
        self.bytes.reserve(size)
    }

    /// These bytes in the memory of the spare, which is used up.
    fn filled(&mut self, alloc: Global, bytes: &[u8]) -> Vec<u8>
        requires { length bytes.now ≤ self.old }
        ensures { result.items ≡ bytes.now }
    {
        let mut copy = mem::replace(&mut self.bytes, Vec::new(alloc));
        match copy.extend_from_slice(bytes) {
            Ok(()) => copy,
            Err(_) => unreachable!(),
        }
    }

    /// These bytes anew. Where no memory is left, the spare is used up.
    pub fn copied(&mut self, alloc: Global, bytes: &Payload) -> Payload
        requires { length bytes.now ≤ self.old }
        ensures { result ≡ bytes.now }
    {
        match bytes.copy(alloc) {
            Ok(copy) => copy,
            Err(_) => Payload::new(self.filled(alloc, bytes.bytes())),
        }
    }

    /// So many zeros in the memory of the spare, which is used up.
    fn blank(&mut self, alloc: Global, len: usize) -> Vec<u8>
        requires { len ≤ self.old }
        ensures { result.items ≡ replicate len 0 }
    {
        let mut zeros = mem::replace(&mut self.bytes, Vec::new(alloc));
        match zeros.resize(len, 0) {
            Ok(()) => zeros,
            Err(_) => unreachable!(),
        }
    }

    /// So many zeros. Where no memory is left, the spare is used up.
    fn zeros(&mut self, alloc: Global, len: usize) -> Payload
        requires { len ≤ self.old }
        ensures { result ≡ replicate len 0 }
    {
        let mut zeros = Vec::new(alloc);
        match zeros.resize(len, 0) {
            Ok(()) => Payload::new(zeros),
            Err(_) => Payload::new(self.blank(alloc, len)),
        }
    }
}

impl Spares {
    /// None is there yet.
    pub fn new(alloc: Global) -> Spares {
        Spares {
            payload: Spare::new(alloc),
            buffer: Spare::new(alloc),
            shown: Spare::new(alloc),
            reply: Spare::new(alloc),
        }
    }

    /// Takes the memory of those that were used up.
    #[inline(always)]
    pub fn refill(&mut self) -> Result<(), AllocError>
        ensures { OnOk result (AreFull self.new) }
    {
        self.payload.refill(MOST_PAYLOAD)?;
        self.buffer.refill(MOST_READ)?;
        self.shown.refill(MOST_MESSAGE)?;
        self.reply.refill(MOST_MESSAGE)
    }
}

/// The same command anew.
pub fn copied(alloc: Global, spare: &mut Spare, command: &Command) -> Command
    requires full { 8192 ≤ spare.old }
    requires short { is_short command.now ≡ true }
    ensures { result ≡ command.now }
{
    match command {
        Command::Send { ep, payload, reply } => Command::Send {
            ep: *ep,
            payload: spare.copied(alloc, payload),
            reply: *reply,
        },
        Command::Reply { ep, token, payload } => Command::Reply {
            ep: *ep,
            token: *token,
            payload: spare.copied(alloc, payload),
        },
        Command::Fetch { ep } => Command::Fetch { ep: *ep },
        Command::Acknowledge { ep, token } => Command::Acknowledge {
            ep: *ep,
            token: *token,
        },
        Command::Read { ep, off, len } => Command::Read {
            ep: *ep,
            off: *off,
            len: *len,
        },
        Command::Write { ep, off, payload } => Command::Write {
            ep: *ep,
            off: *off,
            payload: spare.copied(alloc, payload),
        },
    }
}

/// The buffer of a read within the limit, all 0; no other command needs one.
pub fn buffer(alloc: Global, spare: &mut Spare, command: &Command) -> Payload
    requires { 4096 ≤ spare.old }
    ensures { IsBufferFor command.now result }
{
    match command {
        Command::Read { len, .. } => {
            if *len <= 4096 {
                spare.zeros(alloc, usize::from(*len))
            } else {
                Payload::new(Vec::new(alloc))
            }
        }
        _ => Payload::new(Vec::new(alloc)),
    }
}

/// The message that the command fetches, anew, where it is a fetch and a message is unread.
#[tactic(auto, using(crate::proofs::ShortFront::short_front))]
pub fn front(
    alloc: Global,
    spare: &mut Spare,
    context: &Context,
    command: &Command,
) -> Option<Message>
    requires { 512 ≤ spare.old }
    ensures { result ≡ oldest context.now command.now }
{
    match command {
        Command::Fetch { ep } => {
            // Its messages are at most 512 bytes long.
            let _record = context.endpoint(*ep);
            match context.front(*ep) {
                None => None,
                Some(message) => Some(Message {
                    header: message.header,
                    payload: spare.copied(alloc, &message.payload),
                }),
            }
        }
        _ => None,
    }
}
