//! Unit tests of the lower crates: that the calls which take memory succeed, outside vectors, and printed text.
#![tactic(auto)]

#[cfg(test)]
mod base;
#[cfg(test)]
mod check;
#[cfg(test)]
mod contexts;
#[cfg(test)]
mod endpoint;
#[cfg(test)]
mod grants;
#[cfg(test)]
mod ideal;
#[cfg(test)]
mod journal;
#[cfg(test)]
mod journal_lines;
#[cfg(test)]
mod kernel;
#[cfg(test)]
mod kernel_orders;
#[cfg(test)]
mod link;
#[cfg(test)]
mod load;
#[cfg(test)]
mod memory;
#[cfg(test)]
mod programs;
#[cfg(test)]
mod script;
#[cfg(test)]
mod script_forms;
#[cfg(test)]
mod script_programs;
#[cfg(test)]
mod script_readers;
#[cfg(test)]
mod stays;
#[cfg(test)]
mod wire;
