//! Journals as JSON: what is written, what is read, and what is refused.

use crate::runs::expect_written;
use crate::verdicts::expect_answer;
use std::alloc::AllocError;

/// JSON, or what is taken for it, each with the answer of the check.
const INPUTS: &[(&[u8], &str)] = &[
    // legal
    (
        b"{\"audit\":[\"audit flights 0\"],\"entries\":[],\"m3x\":1,\"setup\":[\"machine tiles 3 memory 1\",\"act 0 tile 2\"]}",
        "legal 0",
    ),
    (
        b"{\"setup\":[\"machine tiles 3 memory 1\",\"act 0 tile 2\"],\"m3x\":1,\"entries\":[],\"audit\":[\"audit flights 0\"]}",
        "legal 0",
    ),
    (
        b"{ \"audit\" : [ \"audit flights 0\" ] ,\n\t\"entries\" : [ ] , \"m3x\" : 1 ,\r\n \"setup\" : [ \"machine tiles 3 memory 1\" ] }\n\n",
        "legal 0",
    ),
    (
        b"{\"\\u0061udit\":[\"audit \\u0066lights 0\"],\"entries\":[],\"m3x\":1,\"setup\":[\"machine tiles 3 memory 1\",\"act 0 tile 2\"]}",
        "legal 0",
    ),
    (
        b"{\"audit\":[\"audit flights 0\"],\"entries\":[\" close:  idle nothing-to-close \"],\"m3x\":1,\"setup\":[\"machine tiles 3 memory 1\",\"act 0 tile 2\"]}",
        "legal 1",
    ),
    // of a repeated key the last value counts
    (
        b"{\"audit\":[\"audit flights 0\"],\"entries\":[\"do 9 jump\"],\"m3x\":1,\"entries\":[],\"setup\":[\"machine tiles 3 memory 1\",\"act 0 tile 2\"]}",
        "legal 0",
    ),
    (
        b"{\"audit\":[\"audit flights 0\"],\"entries\":7,\"m3x\":1,\"entries\":[],\"setup\":[\"machine tiles 3 memory 1\",\"act 0 tile 2\"]}",
        "legal 0",
    ),
    (
        b"{\"audit\":[\"audit flights 1\"],\"audit\":[\"audit flights 0\"],\"entries\":[],\"m3x\":1,\"setup\":[\"machine tiles 3 memory 1\",\"act 0 tile 2\"]}",
        "legal 0",
    ),
    (
        b"{\"audit\":[\"audit flights 0\"],\"audit\":[\"audit flights 1\"],\"entries\":[],\"m3x\":1,\"setup\":[\"machine tiles 3 memory 1\",\"act 0 tile 2\"]}",
        "illegal 1 audit",
    ),
    (
        b"{\"m3x\":2,\"audit\":[\"audit flights 0\"],\"entries\":[],\"m3x\":1,\"setup\":[\"machine tiles 3 memory 1\",\"act 0 tile 2\"]}",
        "legal 0",
    ),
    (
        b"{\"audit\":[\"audit flights 0\"],\"entries\":[],\"m3x\":1,\"setup\":[\"machine tiles 3 memory 1\",\"act 0 tile 2\"],\"m3x\":2}",
        "bad line 1: form",
    ),
    // other keys and values
    (
        b"{\"audit\":[\"audit flights 0\"],\"entries\":[],\"m3x\":1,\"setup\":[\"machine tiles 3 memory 1\",\"act 0 tile 2\"],\"x\":1}",
        "bad line 1: form",
    ),
    (
        b"{\"audit\":[\"audit flights 0\"],\"entries\":[],\"m3x\":1}",
        "bad line 1: form",
    ),
    (
        b"{\"audit\":[\"audit flights 0\"],\"entries\":[],\"setup\":[\"machine tiles 3 memory 1\",\"act 0 tile 2\"]}",
        "bad line 1: form",
    ),
    (b"{}", "bad line 1: form"),
    (
        b"{\"audit\":[\"audit flights 0\"],\"entries\":[],\"M3X\":1,\"setup\":[\"machine tiles 3 memory 1\",\"act 0 tile 2\"]}",
        "bad line 1: form",
    ),
    (
        b"{\"audit\":[\"audit flights 0\"],\"entries\":[],\"m3x\":\"1\",\"setup\":[\"machine tiles 3 memory 1\",\"act 0 tile 2\"]}",
        "bad line 1: form",
    ),
    (
        b"{\"audit\":[\"audit flights 0\"],\"entries\":[],\"m3x\":1.0,\"setup\":[\"machine tiles 3 memory 1\",\"act 0 tile 2\"]}",
        "bad line 1: form",
    ),
    (
        b"{\"audit\":[\"audit flights 0\"],\"entries\":[],\"m3x\":2,\"setup\":[\"machine tiles 3 memory 1\",\"act 0 tile 2\"]}",
        "bad line 1: form",
    ),
    (
        b"{\"audit\":[\"audit flights 0\"],\"entries\":{},\"m3x\":1,\"setup\":[\"machine tiles 3 memory 1\",\"act 0 tile 2\"]}",
        "bad line 1: form",
    ),
    (
        b"{\"audit\":[\"audit flights 0\"],\"entries\":\"x\",\"m3x\":1,\"setup\":[\"machine tiles 3 memory 1\",\"act 0 tile 2\"]}",
        "bad line 1: form",
    ),
    (
        b"{\"audit\":[\"audit flights 0\"],\"entries\":null,\"m3x\":1,\"setup\":[\"machine tiles 3 memory 1\",\"act 0 tile 2\"]}",
        "bad line 1: form",
    ),
    (
        b"{\"audit\":[\"audit flights 0\"],\"entries\":[1],\"m3x\":1,\"setup\":[\"machine tiles 3 memory 1\",\"act 0 tile 2\"]}",
        "bad line 1: form",
    ),
    (
        b"{\"audit\":[\"audit flights 0\"],\"entries\":[[\"x\"]],\"m3x\":1,\"setup\":[\"machine tiles 3 memory 1\",\"act 0 tile 2\"]}",
        "bad line 1: form",
    ),
    (
        b"{\"audit\":[\"audit flights 0\"],\"entries\":[\"do 9 jump\",1],\"m3x\":1,\"setup\":[\"machine tiles 3 memory 1\",\"act 0 tile 2\"]}",
        "bad line 1: form",
    ),
    // no JSON
    (b"{", "bad line 1: form"),
    (
        b"{\"audit\":[\"audit flights 0\"],\"entries\":[],\"m3x\":1,\"setup\":[\"machine tiles 3 memory 1\",\"act 0 tile 2\"]}x",
        "bad line 1: form",
    ),
    (
        b"{\"audit\":[\"audit flights 0\"],\"entries\":[],\"m3x\":1,\"setup\":[\"machine tiles 3 memory 1\",\"act 0 tile 2\"],}",
        "bad line 1: form",
    ),
    (
        b"{\"audit\":[\"audit flights 0\"],\"entries\":[],\"m3x\":1,\"setup\":[\"machine tiles 3 memory 1\",\"act 0 tile 2\"]",
        "bad line 1: form",
    ),
    (
        b"{\"audit\":[\"audit flights 0\"],\"entries\":[\"\n\"],\"m3x\":1,\"setup\":[\"machine tiles 3 memory 1\",\"act 0 tile 2\"]}",
        "bad line 1: form",
    ),
    (
        b"{\"audit\":[\"audit flights 0\"],\"entries\":[\"\xff\"],\"m3x\":1,\"setup\":[\"machine tiles 3 memory 1\",\"act 0 tile 2\"]}",
        "bad line 1: form",
    ),
    (
        b"{\"audit\":[\"audit flights 0\"],\"entries\":[\"\\ud800\"],\"m3x\":1,\"setup\":[\"machine tiles 3 memory 1\",\"act 0 tile 2\"]}",
        "bad line 1: form",
    ),
    (
        b"{\"audit\":[\"audit flights 0\"],\"entries\":[],\"m3x\":01,\"setup\":[\"machine tiles 3 memory 1\",\"act 0 tile 2\"]}",
        "bad line 1: form",
    ),
    // not taken for JSON
    (
        b" {\"audit\":[\"audit flights 0\"],\"entries\":[],\"m3x\":1,\"setup\":[\"machine tiles 3 memory 1\",\"act 0 tile 2\"]}",
        "bad line 1: form",
    ),
    (
        b"[{\"audit\":[\"audit flights 0\"],\"entries\":[],\"m3x\":1,\"setup\":[\"machine tiles 3 memory 1\",\"act 0 tile 2\"]}]",
        "bad line 1: form",
    ),
    // strings are counted through the setup, the entries and the audit
    (
        b"{\"audit\":[\"audit flights 0\"],\"entries\":[],\"m3x\":1,\"setup\":[]}",
        "bad line 1: place",
    ),
    (
        b"{\"audit\":[\"audit flights 0\"],\"entries\":[],\"m3x\":1,\"setup\":[\"act 0 tile 2\"]}",
        "bad line 1: place",
    ),
    (
        b"{\"audit\":[\"audit flights 0\"],\"entries\":[],\"m3x\":1,\"setup\":[\"machine tiles 3 memory 1\",\"act 0 tile 9\"]}",
        "bad line 2: rule",
    ),
    (
        b"{\"audit\":[\"audit flights 0\"],\"entries\":[],\"m3x\":1,\"setup\":[\"machine tiles 3 memory 1\",\"begin\"]}",
        "bad line 2: place",
    ),
    (
        b"{\"audit\":[\"audit flights 0\"],\"entries\":[\"close: idle nothing-to-close\",\"close\"],\"m3x\":1,\"setup\":[\"machine tiles 3 memory 1\",\"act 0 tile 2\"]}",
        "bad line 4: form",
    ),
    (
        b"{\"audit\":[\"audit flights 0\"],\"entries\":[\"\"],\"m3x\":1,\"setup\":[\"machine tiles 3 memory 1\",\"act 0 tile 2\"]}",
        "bad line 3: form",
    ),
    (
        b"{\"audit\":[\"audit flights 0\"],\"entries\":[\"# x\"],\"m3x\":1,\"setup\":[\"machine tiles 3 memory 1\",\"act 0 tile 2\"]}",
        "bad line 3: form",
    ),
    // a string has no line end
    (
        b"{\"audit\":[\"audit flights 0\"],\"entries\":[\"close: idle nothing-to-close\\r\"],\"m3x\":1,\"setup\":[\"machine tiles 3 memory 1\",\"act 0 tile 2\"]}",
        "bad line 3: form",
    ),
    (
        b"{\"audit\":[\"audit flights 0\"],\"entries\":[\"close:\\nidle nothing-to-close\"],\"m3x\":1,\"setup\":[\"machine tiles 3 memory 1\",\"act 0 tile 2\"]}",
        "bad line 3: form",
    ),
    (
        b"{\"audit\":[\"audit flights 0\"],\"entries\":[\"end\"],\"m3x\":1,\"setup\":[\"machine tiles 3 memory 1\",\"act 0 tile 2\"]}",
        "bad line 3: place",
    ),
    (
        b"{\"audit\":[\"audit flights 0\"],\"entries\":[\"audit flights 0\"],\"m3x\":1,\"setup\":[\"machine tiles 3 memory 1\",\"act 0 tile 2\"]}",
        "bad line 3: place",
    ),
    (
        b"{\"audit\":[\"audit flights 0\"],\"entries\":[\"do 0 write 0 0 AB: flying 0.1\"],\"m3x\":1,\"setup\":[\"machine tiles 3 memory 1\",\"act 0 tile 2\"]}",
        "bad line 3: hex",
    ),
    (
        b"{\"audit\":[\"audit flights 0\",\"audit flights x\"],\"entries\":[\"close: idle nothing-to-close\"],\"m3x\":1,\"setup\":[\"machine tiles 3 memory 1\",\"act 0 tile 2\"]}",
        "bad line 5: number",
    ),
    (
        b"{\"audit\":[\"close: idle nothing-to-close\"],\"entries\":[],\"m3x\":1,\"setup\":[\"machine tiles 3 memory 1\",\"act 0 tile 2\"]}",
        "bad line 3: place",
    ),
    // what isn't there
    (
        b"{\"audit\":[\"audit flights 0\"],\"entries\":[\"do 9 fetch 0: none\"],\"m3x\":1,\"setup\":[\"machine tiles 3 memory 1\",\"act 0 tile 2\"]}",
        "illegal 1 step",
    ),
    (
        b"{\"audit\":[\"audit flights 0\"],\"entries\":[\"take 2 2: landed 0.1\"],\"m3x\":1,\"setup\":[\"machine tiles 3 memory 1\",\"act 0 tile 2\"]}",
        "illegal 1 step",
    ),
    (
        b"{\"audit\":[\"audit flights 0\"],\"entries\":[\"take 2 2: answered k.4294967295 sent\"],\"m3x\":1,\"setup\":[\"machine tiles 3 memory 1\",\"act 0 tile 2\"]}",
        "illegal 1 step",
    ),
    (
        b"{\"audit\":[\"audit flights 0\"],\"entries\":[\"revoke 4096: revoking 4096\"],\"m3x\":1,\"setup\":[\"machine tiles 3 memory 1\",\"act 0 tile 2\"]}",
        "illegal 1 reply",
    ),
    (
        b"{\"audit\":[\"audit flights 0\"],\"entries\":[\"take 0 2: done 9\"],\"m3x\":1,\"setup\":[\"machine tiles 3 memory 1\",\"act 0 tile 2\"]}",
        "illegal 1 step",
    ),
    (
        b"{\"audit\":[\"audit flights 0\"],\"entries\":[\"do 0 ack 0 4294967295: acknowledged\"],\"m3x\":1,\"setup\":[\"machine tiles 3 memory 1\",\"act 0 tile 2\"]}",
        "illegal 1 reply",
    ),
    (
        b"{\"audit\":[\"audit flights 0\"],\"entries\":[\"do 0 ack 0 4294967295: refused 1 no-endpoint\"],\"m3x\":1,\"setup\":[\"machine tiles 3 memory 1\",\"act 0 tile 2\"]}",
        "legal 1",
    ),
    (
        b"{\"audit\":[\"audit flights 0\"],\"entries\":[\"turn 0 await 0: awake\"],\"m3x\":1,\"setup\":[\"machine tiles 3 memory 1\",\"act 0 tile 2\"]}",
        "illegal 1 reply",
    ),
    (
        b"{\"audit\":[\"audit flights 0\"],\"entries\":[\"grant part 0 0 of 9 at 0 len 1 perm r: granted 1 k.1 routed\"],\"m3x\":1,\"setup\":[\"machine tiles 3 memory 1\",\"act 0 tile 2\"]}",
        "illegal 1 reply",
    ),
];

/// The keys stand in the order of their letters, with no space, and a newline ends the line.
#[test]
fn a_run_is_written_as_json(rt: HostRuntime) -> Result<(), AllocError> {
    let alloc = rt.alloc();
    let script = b"machine tiles 3 memory 1\nact 0 tile 2\nbegin".as_slice();
    let written =
        b"{\"audit\":[\"audit tile 2 act 0\",\"audit flights 0\",\"audit quiet yes\"],\"entries\":[],\"m3x\":1,\"setup\":[\"machine tiles 3 memory 1\",\"act 0 tile 2\"]}\n".as_slice();
    for word in ["run", "auto"] {
        let input = Vec::from_slice(alloc, script)?;
        expect_written(&rt, alloc, &[word, "--json"], input, 0, written)?;
    }
    let input = Vec::from_slice(alloc, b"machine tiles 3 memory 64\nbegin\nrevoke 2\n")?;
    let written =
        b"{\"audit\":[\"audit tile 2 none\",\"audit flights 0\",\"audit quiet yes\"],\"entries\":[\"revoke 2: refused no-grant\"],\"m3x\":1,\"setup\":[\"machine tiles 3 memory 64\"]}\n".as_slice();
    expect_written(&rt, alloc, &["auto", "--json"], input, 0, written)
}

#[test]
fn json_is_read_or_refused(rt: HostRuntime) -> Result<(), AllocError> {
    let alloc = rt.alloc();
    for (input, answer) in INPUTS {
        expect_answer(&rt, alloc, Vec::from_slice(alloc, input)?, answer)?;
    }
    Ok(())
}

/// Brackets without end, as text and within an object, take no more than their bytes.
#[test]
fn brackets_are_refused(rt: HostRuntime) -> Result<(), AllocError> {
    let alloc = rt.alloc();
    for (head, count) in [
        (b"".as_slice(), 200),
        (b"{\"setup\":", 200),
        (b"{\"setup\":", 100_000),
    ] {
        let mut input = Vec::from_slice(alloc, head)?;
        input.resize(head.len() + count, b'[')?;
        expect_answer(&rt, alloc, input, "bad line 1: form")?;
    }
    Ok(())
}
