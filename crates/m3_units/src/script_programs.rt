//! Lines of programs, and which events may follow them.

use crate::script_forms::{RANGED, expect, expect_in, joined};
use m3_script::{Mode, Why};
use std::alloc::AllocError;

// The activity 0 has a program, and 63 has none; the line to try is the sixth.
const PROGRAMMED: &[u8] =
    b"machine tiles 4 memory 4096\nact 0 tile 2\nact 63 tile 3\nprog 0 await 0\nbegin\n";

#[test]
fn quanta_and_items_are_read_and_refused(rt: HostRuntime) -> Result<(), AllocError> {
    for (line, cause) in [
        ("quantum 1", None),
        ("quantum 64", None),
        ("quantum 0", Some(Why::Number)),
        ("quantum 65", Some(Why::Number)),
        ("quantum", Some(Why::Form)),
        ("quantum 8 8", Some(Why::Form)),
        ("prog 0 fetch 0", None),
        ("prog 0 send 1 00ff reply 2", None),
        ("prog 0 await 15", None),
        ("prog 0 await 16", Some(Why::Number)),
        ("prog 64 await 0", Some(Why::Number)),
        ("prog 0 await", Some(Why::Form)),
        ("prog 0 quantum", Some(Why::Form)),
        ("prog 0 send 0 zz", Some(Why::Hex)),
        ("prog 1 await 0", Some(Why::Rule)),
        ("prog 1 fetch 0", Some(Why::Rule)),
        ("prog", Some(Why::Form)),
        ("turn 0", Some(Why::Place)),
    ] {
        let text = joined(rt.alloc(), RANGED, line.as_bytes(), b"\nbegin")?;
        expect(&rt, rt.alloc(), text.as_slice(), 4, cause);
    }
    let twice = joined(rt.alloc(), RANGED, b"quantum 8\nquantum 8\n", b"begin")?;
    expect(&rt, rt.alloc(), twice.as_slice(), 5, Some(Why::Rule));
    Ok(())
}

#[test]
fn a_turn_is_of_a_program_and_a_do_is_of_none(rt: HostRuntime) -> Result<(), AllocError> {
    for (line, cause) in [
        ("turn 0", None),
        ("turn 63", Some(Why::Rule)),
        ("do 0 fetch 0", Some(Why::Rule)),
        ("do 63 fetch 0", None),
        ("quantum 8", Some(Why::Place)),
        ("prog 0 fetch 0", Some(Why::Place)),
    ] {
        let text = joined(rt.alloc(), PROGRAMMED, line.as_bytes(), b"\n")?;
        expect(&rt, rt.alloc(), text.as_slice(), 6, cause);
        let orders_alone = match cause {
            Some(Why::Place) => cause,
            _ => Some(Why::Place),
        };
        expect_in(
            &rt,
            rt.alloc(),
            Mode::Auto,
            text.as_slice(),
            6,
            orders_alone,
        );
    }
    Ok(())
}

#[test]
fn programs_weigh_at_most_16384(rt: HostRuntime) -> Result<(), AllocError> {
    let mut most = Vec::from_slice(rt.alloc(), b"machine tiles 3 memory 64\nact 0 tile 2\n")?;
    for _ in 0..16_384 {
        most.extend_from_slice(b"prog 0 await 0\n")?;
    }
    let whole = joined(rt.alloc(), most.as_slice(), b"begin\n", b"")?;
    let over = joined(rt.alloc(), most.as_slice(), b"prog 0 await 0\n", b"begin\n")?;
    for mode in [Mode::Run, Mode::Auto] {
        expect_in(&rt, rt.alloc(), mode, whole.as_slice(), 1, None);
        expect_in(
            &rt,
            rt.alloc(),
            mode,
            over.as_slice(),
            16_387,
            Some(Why::Rule),
        );
    }
    Ok(())
}
