//! The contexts that a setup opens with, and the tiles.

ghost use Rattle.std.specs.Prelude.{◌≡◌, ℕ, ◌+◌, ◌≤◌, List, ◌∷◌, [], length, replicate, slice_set, slice_index_or, None, Some, IfOk, OnOk};
ghost use Rattle.m3_base.specs.Ideal.Context.{Context, new_context, with_endpoint, new_endpoint};
ghost use Rattle.m3_base.specs.Ideal.Opening.{opening};
ghost use Rattle.m3_base.specs.declared.setup_line.SetupLine.{SetupLine};
ghost use Rattle.m3_base.specs.Setup.Rules.{IsValid};
ghost use Rattle.m3_model.specs.ContextTable.{HasContexts};
ghost use Rattle.m3_engine.specs.OpeningInvariant.{AtLine, Progress, CanInstall};
ghost use Rattle.m3_model.specs.NumberBounds.{HasBoundedCounters};
ghost use Rattle.m3_model.specs.Machine.{empty_tiles};
ghost use Rattle.m3_model.specs.SetupOpening.{opened_by_setup};
ghost use Rattle.m3_engine.specs.OpenedParts.{HasTileContexts};
ghost use Rattle.m3_engine.specs.TileView.{AreAtSite, tiles_of};

use crate::tile::TilePart;
use m3_base::ids::{ActId, EpId, GrantId, TileId};
use m3_base::order::GrantLine;
use m3_base::packet::Fresh;
use m3_base::setup::Setup;
use m3_base::setup_line::SetupLine;
use m3_core::context::Context;
use m3_kernel::kernel::Kernel;
use m3_kernel::site::Site;
use std::alloc::{AllocError, Global};

fn no_contexts(alloc: Global) -> Result<Vec<Option<Context>>, AllocError>
    ensures { IfOk result (λ v. v.items ≡ replicate 64 None) }
{
    let mut table = Vec::new(alloc);
    for _ in 0..64u8 {
        table.push(None)?;
    }
    Ok(table)
}

/// An activity gets its context.
fn declare(alloc: Global, table: &mut Vec<Option<Context>>, act: ActId) -> Result<(), AllocError>
    requires { length table.old.items ≡ 64 }
    ensures { OnOk result (table.new.items ≡ slice_set table.old.items act (Some (new_context act))) }
{
    let context = Context::new(alloc, act)?;
    table[usize::from(act.number())] = Some(context);
    Ok(())
}

/// A grant's record stands at its holder's endpoint.
fn install(table: &mut Vec<Option<Context>>, act: ActId, ep: EpId, fresh: Fresh)
    requires count { length table.old.items ≡ 64 }
    requires can { CanInstall table.old.items act ep fresh }
    ensures { (c : Context) → slice_index_or table.old.items act None ≡ Some c → table.new.items ≡
        slice_set table.old.items act (Some (with_endpoint c ep (new_endpoint fresh))) }
{
    match &mut table[usize::from(act.number())] {
        None => unreachable!(),
        Some(context) => context.install(ep, fresh),
    }
}

/// The grant of this line, of which there are `count` before, stands at its holder's endpoint. It answers how many there
/// are then.
fn install_grant(
    setup: &Setup,
    table: &mut Vec<Option<Context>>,
    count: u16,
    line: &GrantLine,
) -> u16
    requires { AtLine setup.now table.old.items count (SetupLine.Grant line.now) }
    ensures { (left : List SetupLine) → Progress setup.now table.old.items count (SetupLine.Grant
        line.now ∷ left) → Progress setup.now table.new.items result left }
{
    let number = count + 1;
    match setup.fresh(GrantId::new(number)) {
        None => unreachable!(),
        Some(fresh) => {
            install(table, line.act(), line.ep(), fresh);
            number
        }
    }
}

/// A line of the setup, before which there are `count` grants. It answers how many there are then.
fn apply_line(
    alloc: Global,
    setup: &Setup,
    table: &mut Vec<Option<Context>>,
    count: u16,
    line: &SetupLine,
) -> Result<u16, AllocError>
    requires { AtLine setup.now table.old.items count line.now }
    ensures { IfOk result (λ n. (left : List SetupLine) → Progress setup.now table.old.items count
        (line.now ∷ left) → Progress setup.now table.new.items n left) }
{
    match line {
        SetupLine::Act { act, .. } => {
            declare(alloc, table, *act)?;
            Ok(count)
        }
        SetupLine::Grant(line) => Ok(install_grant(setup, table, count, line)),
        _ => Ok(count),
    }
}

/// The contexts of the setup's activities at opening, by their numbers.
pub fn initial_contexts(alloc: Global, setup: &Setup) -> Result<Vec<Option<Context>>, AllocError>
    ensures valid { IfOk result (λ t. IsValid setup.now) }
    ensures contexts { IfOk result (λ t. HasContexts t.items (opening setup.now.memory setup.now.lines).contexts) }
    ensures low { IfOk result (λ t. (a : ℕ) (c : Context) → slice_index_or t.items a None ≡ Some c → HasBoundedCounters 0 c) }
{
    let mut table = no_contexts(alloc)?;
    let mut count = 0;
    for line in setup.lines() {
        count = apply_line(alloc, setup, &mut table, count, line)?;
    }
    Ok(table)
}

fn no_tiles(alloc: Global, site: &Site) -> Result<Vec<TilePart>, AllocError>
    ensures tiles { IfOk result (λ v. tiles_of v.items ≡ empty_tiles) }
    ensures count { IfOk result (λ v. length v.items ≡ 16) }
    ensures site { IfOk result (λ v. AreAtSite site.now v.items) }
{
    let mut tiles = Vec::new(alloc);
    for number in 0..16u8 {
        let own = site.share()?;
        let tile = TilePart::new(alloc, own, TileId::new(number))?;
        tiles.push(tile)?;
    }
    Ok(tiles)
}

/// The tiles, each with the activities at home there and the context of the first, which is taken out of the table.
pub fn tiles(
    alloc: Global,
    setup: &Setup,
    kernel: &Kernel,
    table: &mut Vec<Option<Context>>,
) -> Result<Vec<TilePart>, AllocError>
    requires { HasTileContexts setup.now kernel.now table.old.items }
    ensures tiles { IfOk result (λ v. tiles_of v.items ≡ (opened_by_setup setup.now).tiles) }
    ensures count { IfOk result (λ v. length v.items ≡ 16) }
    ensures site { IfOk result (λ v. AreAtSite kernel.now.site v.items) }
{
    let site = kernel.site();
    let mut tiles = no_tiles(alloc, site)?;
    for home in site.homes() {
        let context = table[usize::from(home.act().number())].take();
        tiles[usize::from(home.tile().number())].seat(home.act(), context)?;
    }
    Ok(tiles)
}
