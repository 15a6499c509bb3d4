//! Makes, asks about, revokes and closes grants, for `bench/grants.py` to time.
#![tactic(auto)]

mod lives;

use anyhow::bail;
use lives::{Lives, Tally};
use m3_base::setup::Setup;
use m3_grants::grants::Grants;
use std::env;

/// Three numbers on the command line: how many grants a tree gets, of how many each subtree is, and how many trees there
/// are.
fn run(rt: &HostRuntime) -> anyhow::Result<()> {
    let mut numbers = Vec::new(rt.alloc());
    for word in env::args(rt)?.skip(1) {
        numbers.push(word.as_str().parse::<u16>()?)?;
    }
    let &[grants, size, trees] = numbers.as_slice() else {
        bail!("the words are GRANTS SIZE TREES");
    };
    let lives = Lives { grants, size };
    let setup = Setup::new(rt.alloc(), 4, 4096)?;
    let mut tally = Tally::default();
    for _ in 0..trees {
        let mut tree = Grants::new(rt.alloc(), &setup)?;
        tally = lives.live(&mut tree)?;
    }
    println!(rt; "closed {}, answers {}", tally.closed, tally.answers)?;
    Ok(())
}

fn main(rt: HostRuntime) -> anyhow::Result<()> {
    run(&rt)
}
