//! Journals of parts, merged: parts with clocks that pass parcels over links have made a run of one machine.
//!
//! The crate has no code. Its definitions stand in `specs/Parts.antt`, its theorems in `proofs/`: `merged_run`, `parts_run`,
//! `journal_run`, `unclocked_run` and `run_keeps`.
#![tactic(auto)]
