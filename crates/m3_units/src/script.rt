//! A script that is read, and lines that are refused.

use m3_script::{Mode, ScriptRefusal, Why, parse};

const PAIR: &[u8] =
    b"# two activities\n\nmachine tiles 4 memory 4096\r\nact 0 tile 2\nact 1 tile 3\nrecv 1 0 slots 2 size 16\n  send 0 0 of 1 label 7  credits 2 \nbegin\ndo 0 send 0 68Ff\ntake 3 2\ntake 2 3\ndo 1 fetch 0";

#[test]
fn a_script_is_read(rt: HostRuntime) -> Result<(), ScriptRefusal> {
    let script = parse(rt.alloc(), PAIR, Mode::Run, 0)?;
    assert_eq!(rt; script.setup.tiles(), 4);
    assert_eq!(rt; script.setup.memory(), 4096);
    assert_eq!(rt; script.setup.lines().len(), 4);
    assert_eq!(rt; script.events.len(), 4);
    Ok(())
}

#[test]
fn the_first_bad_line_is_told_with_its_first_cause(rt: HostRuntime) {
    for (text, line, why) in [
        (b"".as_slice(), 1, Why::Place),
        (b"\n".as_slice(), 2, Why::Place),
        (b"act 0 tile 2\nmachine".as_slice(), 1, Why::Place),
        (
            b"machine tiles 4 memory 4096\nact 0 tile 9\nbegin\n".as_slice(),
            2,
            Why::Rule,
        ),
        (
            b"machine tiles 4 memory 4096\nact 0 tile 16".as_slice(),
            2,
            Why::Number,
        ),
        (b"machine tiles 04 memory 4096".as_slice(), 1, Why::Number),
        (
            b"machine tiles 4 memory 4096\r\r\n".as_slice(),
            1,
            Why::Form,
        ),
        (b"#\t\n".as_slice(), 1, Why::Form),
        (
            b"machine tiles 4 memory 4096\nbegin\ndo x jump".as_slice(),
            3,
            Why::Form,
        ),
        (
            b"machine tiles 4 memory 4096\nbegin\ndo x send 0 zz".as_slice(),
            3,
            Why::Number,
        ),
        (
            b"machine tiles 4 memory 4096\nbegin\ndo 0 send 0 0".as_slice(),
            3,
            Why::Hex,
        ),
        (
            b"machine tiles 4 memory 4096\nbegin\ndo 0 fetch 0".as_slice(),
            3,
            Why::Rule,
        ),
        (
            b"machine tiles 4 memory 4096\nbegin\ntake 2 4".as_slice(),
            3,
            Why::Rule,
        ),
        (
            b"machine tiles 4 memory 4096\ntake 2 4".as_slice(),
            2,
            Why::Place,
        ),
        (
            b"machine tiles 4 memory 4096\nact 0 tile 2\n\n".as_slice(),
            4,
            Why::Place,
        ),
    ] {
        match parse(rt.alloc(), text, Mode::Run, 0) {
            Err(
                ScriptRefusal::Bad {
                    line: at,
                    why: cause,
                },
            ) => {
                assert_eq!(rt; at, line);
                assert_eq!(rt; cause, why);
            }
            _ => assert!(rt; false, "line {line} is bad"),
        }
    }
}
