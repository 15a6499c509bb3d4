//! One activity's context: what its commands do there, and what the packets that come for it do.
#![tactic(auto)]

pub mod arrived;
pub mod context;
pub mod flying;
pub mod issued;
pub mod parcel;
mod slot;
