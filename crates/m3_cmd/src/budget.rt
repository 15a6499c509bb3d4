//! How many entries the driver makes at most.

ghost use Rattle.std.specs.Prelude.{◌≡◌, ◌≤◌};
ghost use Rattle.m3_base.specs.DriverRun.Budget.{budget};
ghost use Rattle.m3_base.specs.Setup.Rules.{no_lines};
ghost use Rattle.m3_script.specs.Rules.{AllListed};
ghost use Rattle.m3_cmd.specs.BudgetCounts.{AreFew, counts_of, with_line};

use m3_base::setup::Setup;
use m3_base::setup_line::SetupLine;

/// What a budget is made of, beside the orders.
#[derive(Clone, Copy, Debug, Drop)]
pub struct Counts {
    /// The weight of all programs, at most 16,384.
    weight: u32,
    /// The activities, at most 64.
    acts: u32,
    /// The grants of the setup, at most 4,096.
    grants: u32,
}

/// Counts a line more.
fn count_line(counts: &mut Counts, line: &SetupLine)
    requires { AreFew counts.old }
    ensures { counts.new ≡ with_line line.now counts.old }
{
    match line {
        SetupLine::Act { .. } => counts.acts += 1,
        SetupLine::Grant(_) => counts.grants += 1,
        SetupLine::Item(..) => counts.weight += 1,
        SetupLine::AwaitItem(..) => counts.weight += 1,
        _ => {}
    }
}

/// The counts of a setup whose programs are lists of items.
fn counts_of(setup: &Setup) -> Counts
    requires { AllListed setup.now.lines }
    ensures counts { result ≡ counts_of setup.now.lines (no_lines setup.now.tiles setup.now.memory) }
    ensures few { AreFew result }
{
    let mut counts = Counts {
        weight: 0,
        acts: 0,
        grants: 0,
    };
    for line in setup.lines() {
        count_line(&mut counts, line);
    }
    counts
}

/// How many entries the driver makes at most of a setup whose programs are lists of items, and of so many orders, at most
/// 4,096.
pub fn budget(setup: &Setup, orders: usize) -> u32
    requires listed { AllListed setup.now.lines }
    requires few { orders ≤ 4096 }
    ensures { result ≡ budget setup.now orders }
{
    let counts = counts_of(setup);
    64 * (counts.weight + orders as u32 + counts.acts + counts.grants) + 64
}
