//! Why a step isn't made.

ghost use Rattle.std.specs.Prelude.{◌≡◌};
ghost use Rattle.m3_machine.specs.declared.refusal.StepRefusal.{StepRefusal};

use std::alloc::AllocError;

/// Why a step wasn't made.
#[derive(Clone, Copy, Debug, PartialEq, Eq, Drop)]
pub enum StepRefusal {
    /// The journal has as many entries as it may have.
    Spent,
    /// No memory was left for the entry or for what it moves.
    NoMemory,
}

impl From<AllocError> for StepRefusal {
    ghost from_gives = { λ _ e. e ≡ StepRefusal.NoMemory };

    fn from(_error: AllocError) -> StepRefusal {
        StepRefusal::NoMemory
    }
}
