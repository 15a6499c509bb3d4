//! Events and their outcomes: the entries of a journal.

use crate::command::{Answer, Command, Refusal};
use crate::ids::{ActId, EpId, FlightId, GrantId, TileId};
use crate::order::{FileLine, Order};
use crate::payload::Payload;

/// One atomic step of the machine.
#[derive(Debug, Drop)]
pub enum Event {
    /// An activity without a program makes a command.
    Do { act: ActId, command: Command },
    /// The program of an activity makes a move.
    Turn(ActId),
    /// A tile takes the front of the link from another, or from itself.
    Take { to: TileId, from: TileId },
    /// The kernel applies the front of an activity's hold list.
    Tend(ActId),
    /// The kernel sends the Close of a grant that is due.
    Close,
    /// The kernel carries out an order.
    Order(Order),
    /// A line on files.
    File(FileLine),
}

/// The move of a turn. `Quantum` is the Yield that is due, and no move of the program's.
#[derive(Debug, Drop)]
pub enum Made {
    Command(Command),
    Await(EpId),
    Quantum,
    End,
}

/// Why an event changed nothing.
#[derive(Clone, Copy, Debug, PartialEq, Eq, Drop)]
pub enum IdleWhy {
    /// The activity isn't its tile's current one.
    NotCurrent,
    /// The program of the turn has ended.
    Ended,
    /// As many commands fly as may.
    Busy,
    /// The pending Await has no unread message, and this stay has sent its Yield.
    Waiting,
    /// The link of the take is empty.
    EmptyLink,
    /// The activity of the tend is Placed or Leaving.
    NotResting,
    /// The hold list of the tend is empty.
    EmptyHold,
    /// No grant is due.
    NothingToClose,
}

/// Why the kernel, or the files, refuse an order.
#[derive(Clone, Copy, Debug, PartialEq, Eq, Drop)]
pub enum No {
    /// The activity's home isn't the tile of the switch.
    NotHome,
    /// It is Placed or Coming already.
    Already,
    /// A switch of the tile is under way.
    Leaving,
    /// The named grant doesn't exist, is done, or isn't of the needed kind.
    NoGrant,
    /// It isn't live.
    Closing,
    /// The holder's endpoint has a grant that isn't done.
    SlotTaken,
    /// The range ends past its parent, or past memory.
    OutsideParent,
    /// A permission isn't the parent's.
    MorePermission,
    /// 4,096 grants were made, or the receive grant has 64 children that aren't done.
    TooMany,
    BadName,
    NoFile,
    Exists,
    InUse,
    NoSpace,
}

/// What an event came to. Each variant is one text of the journal.
#[derive(Debug, Drop)]
pub enum Said {
    Flying(FlightId),
    Message {
        token: u32,
        from: ActId,
        label: u64,
        payload: Payload,
    },
    ReplyMessage {
        token: u32,
        from: ActId,
        label: u64,
        payload: Payload,
    },
    Nothing,
    Acknowledged(Option<FlightId>),
    Refused(Refusal),
    Awake,
    Yield,
    Asleep,
    Ended,
    Idle(IdleWhy),
    Landed(FlightId),
    LandRefused(FlightId, Refusal),
    Answered {
        id: FlightId,
        answer: Answer,
        closed: Option<GrantId>,
    },
    Credited(FlightId, GrantId),
    Discarded(FlightId, GrantId),
    Installed(FlightId, GrantId),
    Closing(FlightId, GrantId),
    Closed(FlightId, GrantId),
    Bounced(FlightId),
    Routed(FlightId),
    Held(FlightId, ActId),
    Saving(ActId),
    Saved(ActId),
    Current(ActId),
    Yielded(ActId),
    Done {
        grant: GrantId,
        revoked: Option<GrantId>,
    },
    Save(ActId),
    No(No),
    Granted {
        grant: GrantId,
        id: FlightId,
        held: bool,
    },
    Revoking(GrantId),
    CloseSent {
        grant: GrantId,
        id: FlightId,
        held: bool,
    },
    Created,
    Extended,
    Removed,
    Part {
        of: GrantId,
        at: u32,
        len: u32,
    },
    Revoke,
}

/// The outcome of an event. `made` is there exactly where the event is a Turn that isn't idle; `restore` names the
/// activity whose Restore went out with the event.
#[derive(Debug, Drop)]
pub struct Outcome {
    pub made: Option<Made>,
    pub said: Said,
    pub restore: Option<ActId>,
}

/// An entry of a journal.
#[derive(Debug, Drop)]
pub struct Entry {
    pub event: Event,
    pub outcome: Outcome,
}
