//! Journals and packets as text.
#![tactic(auto)]

mod audits;
mod commands;
mod entries;
mod events;
mod journals;
pub mod laws;
mod line_texts;
mod orders;
mod outcomes;
mod packets;
mod reading;
mod setups;

pub use audits::put_audit;
pub use entries::put_entries;
pub use journals::print;
pub use line_texts::{audit_texts, entry_texts, setup_texts};
pub use orders::put_grant;
pub use packets::put_packet;
pub use reading::draft::Draft;
pub use reading::line::{Line, Words};
pub use reading::parsing::{finish, parse_journal, refusal};
