//! The verdict on a journal.

/// Why a journal isn't legal.
#[derive(Clone, Copy, Debug, PartialEq, Eq, Drop)]
pub enum Why {
    /// The outcome has no form of its event, or the steps of the entry, one after the other, don't all exist.
    Step,
    /// The steps say another outcome than the printed one.
    Reply,
    /// The lines on credits or on flights aren't those of the state that the entries reach.
    Audit,
}

/// What the ideal machine says of a journal.
#[derive(Clone, Copy, Debug, PartialEq, Eq, Drop)]
pub enum Verdict {
    /// It is a run of the machine. The number is that of its entries.
    Legal(u32),
    /// The first entry that fails, counted from 1, and why. The audit counts as one more entry.
    Illegal { entry: u32, why: Why },
}
