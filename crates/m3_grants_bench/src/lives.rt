//! The lives of grants.

ghost use Rattle.std.specs.Prelude.{◌≡◌, ◌<◌, ◌≤◌};

use m3_base::ids::{ActId, EpId, GrantId};
use m3_base::order::GrantLine;
use m3_base::packet::Perm;
use m3_grants::grants::Grants;
use m3_grants::refusal::GrantRefusal;

/// How many grants are made, in subtrees of this size.
#[derive(Clone, Copy, Debug, Drop)]
pub struct Lives {
    pub grants: u16,
    pub size: u16,
}

// The endpoint of this number, of 16 for each activity.
fn endpoint(at: u16) -> (ActId, EpId)
    requires { at < 1024 }
{
    (ActId::new((at / 16) as u8), EpId::new((at % 16) as u8))
}

fn range() -> GrantLine {
    let (act, ep) = endpoint(0);
    GrantLine::Range {
        act,
        ep,
        at: 0,
        len: 64,
        perm: Perm::Rw,
    }
}

fn part(at: u16, of: GrantId) -> GrantLine
    requires { at < 1024 }
{
    let (act, ep) = endpoint(at);
    GrantLine::Part {
        act,
        ep,
        of,
        at: 0,
        len: 64,
        perm: Perm::Rw,
    }
}

// A subtree of this many grants, at most 1,024. Each that has children has two.
fn plant(tree: &mut Grants, size: u16) -> Result<GrantId, GrantRefusal> {
    let root = tree.make(range())?;
    let mut of = root;
    let mut made = root;
    for at in 1..size.min(1024) {
        if at % 2 == 1 {
            of = made;
        }
        made = tree.make(part(at, of))?;
    }
    Ok(root)
}

// How many of three questions have an answer: on this grant's record, on its holder, and on the next Close.
fn ask(tree: &Grants, g: GrantId) -> u16 {
    let known = tree.fresh(g).is_some() as u16;
    let held = tree.holder(g).is_some() as u16;
    let due = tree.next_close().is_some() as u16;
    known + held + due
}

// The Close that is due goes out, its grant is asked about, and is done. How many questions had an answer; None where
// no Close is due.
fn close_one(tree: &mut Grants) -> Option<u16> {
    let due = tree.next_close()?;
    tree.sent(due);
    let answers = ask(tree, due);
    tree.closed(due);
    Some(answers)
}

/// How many grants were closed, and how many questions had an answer.
#[derive(Clone, Copy, Debug, Default, Drop)]
pub struct Tally {
    pub closed: u16,
    pub answers: u32,
}

impl Tally {
    // All whose Close is due are closed, from the leaves to the root.
    fn close_all(&mut self, tree: &mut Grants, size: u16) {
        for _ in 0..size {
            if let Some(answers) = close_one(tree) {
                self.closed = self.closed.saturating_add(1);
                self.answers = self.answers.saturating_add(answers as u32);
            }
        }
    }
}

impl Lives {
    /// One subtree after the other is made, revoked and closed.
    pub fn live(&self, tree: &mut Grants) -> Result<Tally, GrantRefusal> {
        let mut tally = Tally::default();
        for _ in 0..self.grants / self.size.max(1) {
            let root = plant(tree, self.size)?;
            tree.revoke(root)?;
            tally.close_all(tree, self.size);
        }
        Ok(tally)
    }
}
