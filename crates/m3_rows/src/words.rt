//! The lists of words that are a form, and others.

use crate::runs::{expect_written, run_of};
use std::alloc::AllocError;

const USAGE: &[u8] =
    b"usage: m3x run [--json] | auto [--json] | tiles [--json] | check | show | load N\n";

/// A script without events, which is no journal and no packets.
const SCRIPT: &[u8] = b"machine tiles 3 memory 1\nact 0 tile 2\nbegin\n";

/// Lists of words, with the status on that script, and what comes first of what is written.
const LISTS: &[(&[&str], u8, &[u8])] = &[
    (&["run"], 0, b"m3x journal 1\nmachine "),
    (&["run", "--json"], 0, b"{\"audit\":["),
    (&["auto"], 0, b"m3x journal 1\nmachine "),
    (&["auto", "--json"], 0, b"{\"audit\":["),
    (&["check"], 2, b"bad line 1: place\n"),
    (&["show"], 2, b"bad byte 0: kind\n"),
    (&["load", "1"], 0, b"load 1\nentries "),
    (&["load", "500"], 0, b"load 500\nentries "),
    // a form that isn't built yet
    (&["tiles"], 1, USAGE),
    (&["tiles", "--json"], 1, USAGE),
    // no forms
    (&[], 1, USAGE),
    (&[""], 1, USAGE),
    (&["run", "fast"], 1, USAGE),
    (&["run", ""], 1, USAGE),
    (&["run", "run"], 1, USAGE),
    (&["run", "--json", "x"], 1, USAGE),
    (&["run", "--json", "--json"], 1, USAGE),
    (&["--json", "run"], 1, USAGE),
    (&["--json"], 1, USAGE),
    (&["RUN"], 1, USAGE),
    (&["run "], 1, USAGE),
    (&["auto", "--js"], 1, USAGE),
    (&["auto", "1"], 1, USAGE),
    (&["tiles", "x"], 1, USAGE),
    (&["check", "--json"], 1, USAGE),
    (&["check", "x"], 1, USAGE),
    (&["show", "--json"], 1, USAGE),
    (&["load"], 1, USAGE),
    (&["load", ""], 1, USAGE),
    (&["load", "0"], 1, USAGE),
    (&["load", "501"], 1, USAGE),
    (&["load", "01"], 1, USAGE),
    (&["load", "+1"], 1, USAGE),
    (&["load", "1x"], 1, USAGE),
    (&["load", "1 "], 1, USAGE),
    (&["load", "18446744073709551617"], 1, USAGE),
    (&["load", "1", "1"], 1, USAGE),
    (&["load", "1", "--json"], 1, USAGE),
    (&["--help"], 1, USAGE),
    (&["help"], 1, USAGE),
    (&["image"], 1, USAGE),
];

#[test]
fn words_are_a_form_or_a_usage_fault(rt: HostRuntime) -> Result<(), AllocError> {
    let alloc = rt.alloc();
    for (words, status, head) in LISTS {
        let input = Vec::from_slice(alloc, SCRIPT)?;
        if *status == 1 {
            expect_written(&rt, alloc, words, input, 1, head)?;
        } else {
            let (answer, written) = run_of(alloc, words, input)?;
            assert_eq!(rt; answer, *status);
            assert!(rt;
                written.starts_with(head),
                "what is written begins otherwise"
            );
        }
    }
    Ok(())
}
