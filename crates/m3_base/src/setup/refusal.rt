//! Why a setup, or a line of it, is refused.

use thiserror::Error;

#[derive(Clone, Copy, Debug, PartialEq, Eq, Drop, Error)]
pub enum SetupRefusal {
    /// A number is outside its limit, or a rule of setups refuses the line.
    #[error("a rule of setups refuses this")]
    Rule,
    #[error("no memory is left")]
    NoMemory,
}
