//! Whole runs of the program, from the words and the script to what is written, worked by hand.
#![tactic(auto)]

#[cfg(test)]
mod bad_journals;
#[cfg(test)]
mod bad_lines;
#[cfg(test)]
mod command_line;
#[cfg(test)]
mod ends;
#[cfg(test)]
mod grant_verdicts;
#[cfg(test)]
mod json_journals;
#[cfg(test)]
mod memory;
#[cfg(test)]
mod programs;
#[cfg(test)]
mod replies;
#[cfg(test)]
mod revoking;
#[cfg(test)]
mod runs;
#[cfg(test)]
mod sends;
#[cfg(test)]
mod showing;
#[cfg(test)]
mod switching;
#[cfg(test)]
mod verdicts;
#[cfg(test)]
mod words;
