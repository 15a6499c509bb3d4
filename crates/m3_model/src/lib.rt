//! The machine as plain data: its parts, what each does in one event by itself, and what the whole stands for. No code.
#![tactic(auto)]
