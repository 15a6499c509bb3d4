//! Parts of a line, read side by side.

ghost use Rattle.std.specs.Prelude.{◌≡◌};
ghost use Rattle.m3_text.specs.CauseOrder.{rank, earlier, both_causes};

use crate::refusal::{LineRefusal, Why};

#[inline(always)]
fn rank(why: Why) -> u8
    ensures { result ≡ rank why }
{
    why as u8
}

#[inline(always)]
fn earlier(a: Why, b: Why) -> Why
    ensures { result ≡ earlier a b }
{
    if rank(a) <= rank(b) { a } else { b }
}

/// Both values, or the first cause of the two.
#[inline(always)]
pub fn both<A: Drop, B: Drop>(
    a: Result<A, LineRefusal>,
    b: Result<B, LineRefusal>,
) -> Result<(A, B), LineRefusal>
    ensures { result ≡ both_causes a b }
{
    match (a, b) {
        (Ok(a), Ok(b)) => Ok((a, b)),
        (Err(LineRefusal::Bad(a)), Err(LineRefusal::Bad(b))) => Err(LineRefusal::Bad(earlier(
            a, b,
        ))),
        (Err(LineRefusal::Bad(a)), Ok(_)) => Err(LineRefusal::Bad(a)),
        (Ok(_), Err(LineRefusal::Bad(b))) => Err(LineRefusal::Bad(b)),
        _ => Err(LineRefusal::NoMemory),
    }
}
