//! What an entry shows of a message that is fetched.

ghost use Rattle.std.specs.Prelude.{◌≡◌, IfOk, option_map};
ghost use Rattle.m3_core.specs.IssueView.{oldest};
ghost use Rattle.m3_engine.specs.TileStepView.{shown_of, said_fetched};

use m3_base::command::Command;
use m3_base::event::Said;
use m3_base::ids::ActId;
use m3_base::message::Message;
use m3_base::payload::Payload;
use m3_core::context::Context;
use std::alloc::{AllocError, Global};

/// Of a message: whether it is a reply, its sender, its label and its bytes.
#[derive(Debug, Drop)]
pub struct Shown {
    is_reply: bool,
    from: ActId,
    label: u64,
    payload: Payload,
}

fn copy_of(alloc: Global, message: &Message) -> Result<Shown, AllocError>
    ensures { IfOk result (λ s. s ≡ shown_of message.now) }
{
    let payload = message.payload.copy(alloc)?;
    let header = message.header;
    Ok(Shown {
        is_reply: header.flags != 0,
        from: header.sender,
        label: header.label,
        payload,
    })
}

/// Of a message that is handed in.
pub fn shown_in(message: Option<Message>) -> Option<Shown>
    ensures { result ≡ option_map shown_of message }
{
    match message {
        None => None,
        Some(message) => {
            let Message { header, payload } = message;
            Some(Shown {
                is_reply: header.flags != 0,
                from: header.sender,
                label: header.label,
                payload,
            })
        }
    }
}

/// What the command fetches, where it is a fetch and a message is unread.
#[inline(always)]
pub fn front(
    alloc: Global,
    context: &Context,
    command: &Command,
) -> Result<Option<Shown>, AllocError>
    ensures { IfOk result (λ s. s ≡ option_map shown_of (oldest context.now command.now)) }
{
    match command {
        Command::Fetch { ep } => match context.front(*ep) {
            None => Ok(None),
            Some(message) => Ok(Some(copy_of(alloc, message)?)),
        },
        _ => Ok(None),
    }
}

/// The outcome of a fetch that gave this token, or none.
#[inline(always)]
pub fn fetched(token: Option<u32>, front: Option<Shown>) -> Said
    ensures { result ≡ said_fetched front token }
{
    let (Some(token), Some(shown)) = (token, front) else {
        return Said::Nothing;
    };
    let Shown {
        is_reply,
        from,
        label,
        payload,
    } = shown;
    if is_reply {
        Said::ReplyMessage {
            token,
            from,
            label,
            payload,
        }
    } else {
        Said::Message {
            token,
            from,
            label,
            payload,
        }
    }
}
