//! The ideal machine as code: its contexts, flights, grants and memory, each step by its definition, and what the entries
//! of a journal say of its steps. Every activity has a context of its own; there is no tile, link, place or hold list.
#![tactic(auto)]

pub mod audits;
pub mod belongs;
pub mod check;
pub mod context;
pub mod contexts;
pub mod fetched;
pub mod flight;
pub mod flights;
pub mod flying;
pub mod grants;
pub mod ideal;
pub mod issued;
pub mod judge;
pub mod lane;
pub mod letter;
pub mod memory;
pub mod records;
pub mod shows;
pub mod slot;
pub mod steps;
pub mod verdict;
pub mod word;
