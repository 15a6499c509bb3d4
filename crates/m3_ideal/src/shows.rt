//! Whether what steps say is the outcome that is printed.

ghost use Rattle.std.specs.Prelude.{◌≡◌, ◌==◌, ◌↔◌, ℕ, IsTrue, ◌∷◌, []};
ghost use Rattle.m3_base.specs.Ideal.Step.{Frees};
ghost use Rattle.m3_base.specs.Journal.Entry.{shown_message};
ghost use Rattle.m3_ideal.specs.Words.{meaning};
ghost use Rattle.m3_ideal.specs.Shows.{Tells, ShowsIf};

use crate::word::Word;
use m3_base::command::Answer;
use m3_base::event::Said;
use m3_base::ids::GrantId;
use m3_base::message::Message;

fn same_grant(a: Option<GrantId>, b: Option<GrantId>) -> bool
    ensures { IsTrue result ↔ a ≡ b }
{
    match (a, b) {
        (None, None) => true,
        (Some(a), Some(b)) => a.number() == b.number(),
        _ => false,
    }
}

fn same_answer(a: &Answer, b: &Answer) -> bool
    ensures { IsTrue result ↔ a.now ≡ b.now }
{
    match (a, b) {
        (Answer::Sent, Answer::Sent) => true,
        (Answer::Replied, Answer::Replied) => true,
        (Answer::Written, Answer::Written) => true,
        (Answer::Bytes(a), Answer::Bytes(b)) => a.bytes() == b.bytes(),
        (Answer::Refused(a), Answer::Refused(b)) => a == b,
        _ => false,
    }
}

fn is_message(said: &Said, own: u32, message: &Message) -> bool
    ensures { Tells result (shown_message own message.now (message.now.header.flags == 0)) said.now }
{
    let header = &message.header;
    match said {
        Said::Message {
            token,
            from,
            label,
            payload,
        } => {
            header.flags == 0
                && *token == own
                && from.number() == header.sender.number()
                && *label == header.label
                && payload.bytes() == message.payload.bytes()
        }
        Said::ReplyMessage {
            token,
            from,
            label,
            payload,
        } => {
            header.flags != 0
                && *token == own
                && from.number() == header.sender.number()
                && *label == header.label
                && payload.bytes() == message.payload.bytes()
        }
        _ => false,
    }
}

/// Whether a step that says this word alone shows the outcome.
pub fn shows(word: &Word, said: &Said) -> bool
    ensures { ShowsIf result (meaning word.now ∷ []) said.now }
{
    match (word, said) {
        (Word::Refused(a), Said::Refused(b)) => a == b,
        (Word::Nothing, Said::Nothing) => true,
        (Word::Fetched { token, message }, _) => is_message(said, *token, message),
        (Word::Acknowledged(a), Said::Acknowledged(b)) => a == b,
        (Word::Flies(a), Said::Flying(b)) => a == b,
        (Word::Present(there), Said::Awake) => *there,
        (Word::Present(there), Said::Yield | Said::Asleep) => !*there,
        (Word::Landed(a), Said::Landed(b)) => a == b,
        (Word::LandRefused(a, x), Said::LandRefused(b, y)) => a == b && x == y,
        (Word::Credited(a, g), Said::Credited(b, h)) => a == b && g.number() == h.number(),
        (Word::Discarded(a, g), Said::Discarded(b, h)) => a == b && g.number() == h.number(),
        (Word::Installed(a, g), Said::Installed(b, h)) => a == b && g.number() == h.number(),
        (Word::StartsClosing(a, g), Said::Closing(b, h)) => a == b && g.number() == h.number(),
        (Word::No(a), Said::No(b)) => a == b,
        (Word::Made(g, a), Said::Granted { grant, id, .. }) => {
            a == id && g.number() == grant.number()
        }
        (Word::Revoking(g), Said::Revoking(h)) => g.number() == h.number(),
        (Word::CloseSent(g, a), Said::CloseSent { grant, id, .. }) => {
            a == id && g.number() == grant.number()
        }
        (Word::Done { grant: g, is_root }, Said::Done { grant, revoked }) => {
            let root = if *is_root { Some(*g) } else { None };
            g.number() == grant.number() && same_grant(root, *revoked)
        }
        (
            Word::Answered { id, answer, closed },
            Said::Answered {
                id: b,
                answer: other,
                closed: freed,
            },
        ) => id == b && same_answer(answer, other) && same_grant(*closed, *freed),
        _ => false,
    }
}

/// Whether a step that says this word, and then a Closed, show the outcome.
pub fn shows_freed(word: &Word, said: &Said) -> bool
    ensures { (g : ℕ) → ShowsIf result (meaning word.now ∷ Frees g ∷ []) said.now }
{
    match (word, said) {
        (Word::Closed(a, g), Said::Closed(b, h)) => a == b && g.number() == h.number(),
        (Word::Answered { .. }, _) => shows(word, said),
        _ => false,
    }
}
