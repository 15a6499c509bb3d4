//! The scheduler of the kernel: by tile, who is ready, and whether the stay there has yielded.

ghost use Rattle.std.specs.Prelude.{◌≡◌, true, false, [], replicate, slice_get, IfOk};
ghost use Rattle.m3_sched.specs.SchedView.{new_scheduler, ready_at, with_ready, with_ready_if, without_ready, with_yield, wants};

use crate::ready_list::ReadyList;
use m3_base::ids::{ActId, TileId};
use std::alloc::{AllocError, Global};
use std::marker::Model;

/// The ready lists of all tiles. Once it is made, no call on it takes memory.
#[derive(Drop)]
pub struct Sched {
    /// By tile.
    ready: Vec<ReadyList>,
    /// By tile: whether a Yield of this stay was taken.
    yielded: Vec<bool>,
    quantum: u8,
}

impl Model for Sched {
    ghost use Rattle.m3_sched.specs.SchedView.{Scheduler, IsByTile};

    ghost Value = { Scheduler };

    ghost view = { λ s. record { ready = s.ready.items; yielded = s.yielded.items; quantum = s.quantum } };

    ghost invariant = { λ s. IsByTile (record { ready = s.ready.items; yielded = s.yielded.items; quantum = s.quantum }) };
}

fn no_lists(alloc: Global) -> Result<Vec<ReadyList>, AllocError>
    ensures { IfOk result (λ v. v.items ≡ replicate 16 []) }
{
    let mut lists = Vec::new(alloc);
    for _ in 0..16u8 {
        let list = ReadyList::new(alloc)?;
        lists.push(list)?;
    }
    Ok(lists)
}

impl Sched {
    /// A scheduler with room for all activities, none of which is ready, and this quantum.
    pub fn new(alloc: Global, quantum: u8) -> Result<Sched, AllocError>
        ensures { IfOk result (λ s. s ≡ new_scheduler quantum) }
    {
        let ready = no_lists(alloc)?;
        let mut yielded = Vec::new(alloc);
        yielded.resize(16, false)?;
        Ok(Sched {
            ready,
            yielded,
            quantum,
        })
    }

    /// The activity joins the back of the tile's list, unless it is in the list.
    pub fn ready(&mut self, tile: TileId, act: ActId)
        ensures { self.new ≡ with_ready tile act self.old }
    {
        self.ready[usize::from(tile.number())].join(act);
    }

    /// The same, where it is to join.
    pub fn ready_if(&mut self, joins: bool, tile: TileId, act: ActId)
        ensures { self.new ≡ with_ready_if joins tile act self.old }
    {
        if joins {
            self.ready(tile, act);
        }
    }

    /// The activity is taken out of the tile's list.
    pub fn take_out(&mut self, tile: TileId, act: ActId)
        ensures { self.new ≡ without_ready tile act self.old }
    {
        self.ready[usize::from(tile.number())].leave(act);
    }

    /// A Yield of the tile's stay was taken.
    pub fn yielded(&mut self, tile: TileId)
        ensures { self.new ≡ with_yield tile true self.old }
    {
        self.yielded[usize::from(tile.number())] = true;
    }

    /// A stay begins at the tile.
    pub fn came(&mut self, tile: TileId)
        ensures { self.new ≡ with_yield tile false self.old }
    {
        self.yielded[usize::from(tile.number())] = false;
    }

    /// The front of the tile's list. None exactly where nobody of the tile is ready.
    pub fn pick(&self, tile: TileId) -> Option<ActId>
        ensures { result ≡ slice_get (ready_at tile self.now) 0 }
    {
        self.ready[usize::from(tile.number())].front()
    }

    /// Whether a Yield of the tile's stay was taken and somebody is ready.
    pub fn wants(&self, tile: TileId) -> bool
        ensures { result ≡ wants tile self.now }
    {
        let at = usize::from(tile.number());
        self.yielded[at] && !self.ready[at].is_empty()
    }

    /// How many Do moves a stay makes before it yields, where it shares its tile.
    pub fn quantum(&self) -> u8
        ensures { result ≡ self.now.quantum }
    {
        self.quantum
    }
}
