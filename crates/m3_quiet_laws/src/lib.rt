//! What the laws of the ideal machine give to the sum that bounds its runs.
#![tactic(auto)]

ghost use Rattle.m3_quiet_laws.specs.Grounds.{LawsGround};

/// The ideal machine's invariant gives those premises of the sum that speak of the state alone: names and records.
pub fn laws_ground()
    ensures { LawsGround }
{}
