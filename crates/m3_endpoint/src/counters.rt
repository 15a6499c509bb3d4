//! Counts by number.

ghost use Rattle.m3_endpoint.specs.Counters.{only, Adds};

/// The count of this number rises by `more`, up to the largest number. A number past the counts has none.
pub fn add_saturating(counts: &mut [u32], number: u32, more: u32)
    ensures { Adds (only number more) counts.old counts.new }
{
    let at = number as usize;
    if at < counts.len() {
        counts[at] = counts[at].saturating_add(more);
    }
}
