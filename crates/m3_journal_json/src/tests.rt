//! Journals as JSON, and back.

use crate::{from_json, to_json};
use m3_journal::{parse_journal, print};
use m3_script::{ScriptRefusal, Why};
use std::alloc::{AllocError, Global};

const TEXT: &[u8] =
    b"m3x journal 1\nmachine tiles 4 memory 4096\nact 0 tile 2\nrecv 0 0 slots 2 size 16\nsend 0 1 of 1 label 7 credits 2\nbegin\ndo 0 send 1 6869: flying 0.1\ntake 2 2: answered 0.1 sent\nfile create a:: refused bad-name\ntake 0 2: installed k.1 2 restore 0\nend\naudit credit 2 held 1 flying 0 queued 1 limit 2\naudit tile 2 act 0\naudit tile 3 none\naudit flights 0\naudit quiet yes\n";

const JSON: &[u8] =
    b"{\"audit\":[\"audit credit 2 held 1 flying 0 queued 1 limit 2\",\"audit tile 2 act 0\",\"audit tile 3 none\",\"audit flights 0\",\"audit quiet yes\"],\"entries\":[\"do 0 send 1 6869: flying 0.1\",\"take 2 2: answered 0.1 sent\",\"file create a:: refused bad-name\",\"take 0 2: installed k.1 2 restore 0\"],\"m3x\":1,\"setup\":[\"machine tiles 4 memory 4096\",\"act 0 tile 2\",\"recv 0 0 slots 2 size 16\",\"send 0 1 of 1 label 7 credits 2\"]}";

#[test]
fn a_journal_becomes_json_and_comes_back(rt: HostRuntime) -> Result<(), AllocError> {
    let alloc = rt.alloc();
    let (journal, audit) = parse_journal(alloc, TEXT).map_err(|_| AllocError)?;
    let json = to_json(alloc, &journal, &audit)?;
    assert_eq!(rt; json.as_slice(), JSON);
    let (journal, audit) = from_json(alloc, json.as_slice()).map_err(|_| AllocError)?;
    let text = print(alloc, &journal, &audit)?;
    assert_eq!(rt; text.as_slice(), TEXT);
    Ok(())
}

// The line and the cause for which bytes are refused; 0 where they are taken.
fn refused_at(alloc: Global, bytes: &[u8]) -> Result<(u32, Option<Why>), AllocError> {
    match from_json(alloc, bytes) {
        Ok(_) => Ok((0, None)),
        Err(ScriptRefusal::Bad { line, why }) => Ok((line, Some(why))),
        Err(ScriptRefusal::NoMemory) => Err(AllocError),
    }
}

#[test]
fn other_json_is_refused(rt: HostRuntime) -> Result<(), AllocError> {
    let alloc = rt.alloc();
    let cases: [(&[u8], u32, Option<Why>); 16] = [
        (
            b"{\"setup\":[\"machine tiles 3 memory 1\"],\"m3x\":1,\"entries\":[],\"audit\":[]}",
            0,
            None,
        ),
        (
            b" {\"setup\":[ \"machine  tiles 3 memory 1 \"] ,\"m3x\":1,\"entries\":[],\"audit\":[]}\n",
            0,
            None,
        ),
        (b"", 1, Some(Why::Form)),
        (b"{", 1, Some(Why::Form)),
        (
            b"{\"setup\":[],\"m3x\":1,\"entries\":[],\"audit\":[]}",
            1,
            Some(Why::Place),
        ),
        (
            b"{\"setup\":[\"begin\"],\"m3x\":1,\"entries\":[],\"audit\":[]}",
            1,
            Some(Why::Place),
        ),
        (
            b"{\"setup\":[\"machine tiles 3 memory 1\",\"\"],\"m3x\":1,\"entries\":[],\"audit\":[]}",
            2,
            Some(Why::Form),
        ),
        (
            b"{\"setup\":[\"machine tiles 3 memory 1\"],\"m3x\":1,\"entries\":[\"take 2 2\"],\"audit\":[]}",
            2,
            Some(Why::Form),
        ),
        (
            b"{\"setup\":[\"machine tiles 3 memory 1\"],\"m3x\":1,\"entries\":[\"end\"],\"audit\":[]}",
            2,
            Some(Why::Place),
        ),
        (
            b"{\"setup\":[\"machine tiles 3 memory 1\"],\"m3x\":1,\"entries\":[\"do 0 send 0 AB: flying 0.1\"],\"audit\":[]}",
            2,
            Some(Why::Hex),
        ),
        (
            b"{\"setup\":[\"machine tiles 3 memory 1\"],\"m3x\":1,\"entries\":[],\"audit\":[\"audit flights 01\"]}",
            2,
            Some(Why::Number),
        ),
        (
            b"{\"setup\":[\"machine tiles 3 memory 1\"],\"m3x\":1.0,\"entries\":[],\"audit\":[]}",
            1,
            Some(Why::Form),
        ),
        (
            b"{\"setup\":[\"machine tiles 3 memory 1\"],\"m3x\":1,\"entries\":[],\"audit\":[],\"more\":1}",
            1,
            Some(Why::Form),
        ),
        (
            b"{\"setup\":[\"x\"],\"m3x\":1,\"entries\":[],\"audit\":[7]}",
            1,
            Some(Why::Form),
        ),
        (
            b"{\"setup\":7,\"m3x\":2,\"entries\":[],\"audit\":[],\"m3x\":1,\"setup\":[\"machine tiles 3 memory 1\"]}",
            0,
            None,
        ),
        (
            b"{\"setup\":[\"machine tiles 3 memory 1\"],\"m3x\":1,\"entries\":[],\"audit\":[],\"setup\":7}",
            1,
            Some(Why::Form),
        ),
    ];
    for (bytes, line, why) in cases {
        let (at, cause) = refused_at(alloc, bytes)?;
        assert_eq!(rt; at, line);
        assert!(rt; cause == why);
    }
    Ok(())
}
