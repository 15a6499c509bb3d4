//! How many entries a run of the driver can have: a sum over state and places that each event which isn't idle lowers.
#![tactic(auto)]

ghost use Rattle.m3_quiet.specs.Runs.{BookkeepingOpens, ChoicesAreAllowed, ChoicesAreNotIdle, EventsLowerTheSum, FactsHold, OpeningIsBelowBudget, RunsLowerTheSum, RunsStayWithinBudget, SetupsStayWithinBudget, StepsKeepBookkeeping};

/// Each event that the driver, or a part of its own, can make lowers the sum, unless it is idle.
pub fn events_lower_the_sum()
    ensures { EventsLowerTheSum }
{}

/// What the driver chooses next is an event that it can make, where a program that is called has a call left.
pub fn choices_are_allowed()
    ensures { ChoicesAreAllowed }
{}

/// What the driver chooses next isn't idle.
pub fn choices_are_not_idle()
    ensures { ChoicesAreNotIdle }
{}

/// The premises on the machine, with ready lists, Yields and the flags of Saved in order, give all facts that an event needs.
pub fn facts_hold()
    ensures { FactsHold }
{}

/// Each step keeps ready lists, Yields and the flags of Saved in order.
pub fn steps_keep_bookkeeping()
    ensures { StepsKeepBookkeeping }
{}

/// Ready lists, Yields and the flags of Saved are in order at opening, where each activity is declared once, at a tile from 2 on, and the quantum is at least 1.
pub fn bookkeeping_opens()
    ensures { BookkeepingOpens }
{}

/// Each entry of a run takes at least one of the sum: what is left of it and the entries so far are no more than the first sum.
pub fn runs_lower_the_sum()
    ensures { RunsLowerTheSum }
{}

/// At opening the sum is less than the budget of the programs' calls, the orders, the activities and the grants.
pub fn opening_is_below_budget()
    ensures { OpeningIsBelowBudget }
{}

/// A run from opening, without idle entries, has fewer entries than the budget.
pub fn runs_stay_within_budget()
    ensures { RunsStayWithinBudget }
{}

/// Nor has such a run of a valid setup as many entries as the setup's budget, where its programs may make as many calls as they weigh.
pub fn setups_stay_within_budget()
    ensures { SetupsStayWithinBudget }
{}
