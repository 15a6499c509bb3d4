//! Journals that are legal, and journals that fail by a step, by a reply or by their audit.

use m3_base::limits::MOST_ENTRIES;
use m3_ideal::check::check;
use m3_ideal::verdict::{Verdict, Why};
use m3_journal::parse_journal;
use std::alloc::{AllocError, Global};
use std::process::Abort;

const MESSAGES: &str =
    "act 0 tile 2\nact 1 tile 3\nrecv 1 0 slots 2 size 16\nsend 0 0 of 1 label 7 credits 2\nbegin\ndo 0 send 0 6869: flying 0.1\n";

const DELIVERY: &str =
    "take 3 2: landed 0.1\ntake 2 3: answered 0.1 sent\ndo 1 fetch 0: message 0 from 0 label 7 6869\n";

const CREDITS: &str = "audit credit 2 held 1 flying 0 queued 1 limit 2\naudit flights 0\n";

const RANGE: &str = "act 0 tile 2\nact 1 tile 3\nrange 0 0 at 0 len 64 perm r\nbegin\n";

const PART: &str =
    "grant part 0 0 of 1 at 0 len 1 perm r: refused slot-taken\ngrant part 0 1 of 1 at 32 len 32 perm r: granted 2 k.1 routed\ntake 2 0: installed k.1 2\n";

const GONE: &str =
    "revoke 1: revoking 1\nclose: close 2 k.2 routed\ntake 2 0: closed k.2 2\ntake 0 2: done 2\nclose: close 1 k.3 routed\ntake 2 0: closed k.3 1\ntake 0 2: done 1 revoked 1\n";

// The verdict on the journal of these parts.
fn verdict_on(
    rt: &impl Abort,
    alloc: Global,
    parts: [&str; 3],
    audit: &str,
) -> Result<Verdict, AllocError> {
    let mut text = String::new(alloc);
    text.push_str("m3x journal 1\nmachine tiles 4 memory 4096\n")?;
    for part in parts {
        text.push_str(part)?;
    }
    text.push_str("end\n")?;
    text.push_str(audit)?;
    assert!(rt; text.len() <= 67_108_864, "the journal is short");
    let (journal, audit) = parse_journal(alloc, text.as_bytes()).map_err(|_| AllocError)?;
    assert!(rt;
        journal.entries.len() <= MOST_ENTRIES,
        "there are few entries"
    );
    check(alloc, &journal, &audit)
}

#[test]
fn legal_journals_have_their_number_of_entries(rt: HostRuntime) -> Result<(), AllocError> {
    let journals = [
        (MESSAGES, DELIVERY, "", CREDITS, 4),
        (
            MESSAGES,
            DELIVERY,
            "close: idle nothing-to-close\n",
            CREDITS,
            5,
        ),
        (
            MESSAGES,
            "",
            "",
            "audit quiet yes\naudit credit 2 held 1 flying 1 queued 0 limit 2\naudit flights 1\naudit tile 9 act 9\n",
            1,
        ),
        (RANGE, PART, GONE, "audit flights 0\n", 10),
    ];
    for (setup, entries, more, audit, count) in journals {
        let verdict = verdict_on(&rt, rt.alloc(), [setup, entries, more], audit)?;
        assert_eq!(rt; verdict, Verdict::Legal(count), "{entries}{more}{audit}");
    }
    Ok(())
}

#[test]
fn the_first_entry_that_fails_is_named(rt: HostRuntime) -> Result<(), AllocError> {
    let journals = [
        // a flight that was never issued, and an activity that isn't declared
        (
            MESSAGES,
            "take 3 2: landed 0.2\n",
            "",
            CREDITS,
            2,
            Why::Step,
        ),
        (
            MESSAGES,
            DELIVERY,
            "do 9 fetch 0: none\n",
            CREDITS,
            5,
            Why::Step,
        ),
        // an answer before the message landed
        (
            MESSAGES,
            "take 2 3: answered 0.1 sent\n",
            DELIVERY,
            CREDITS,
            2,
            Why::Step,
        ),
        // outcomes of other events
        (MESSAGES, "close: landed 0.1\n", "", CREDITS, 2, Why::Step),
        (
            MESSAGES,
            DELIVERY,
            "take 3 2: landed 0.1 restore 1\n",
            CREDITS,
            5,
            Why::Step,
        ),
        // a Close of another grant than the one that closes
        (
            RANGE,
            PART,
            "revoke 1: revoking 1\nclose: close 1 k.2 routed\n",
            "audit flights 0\n",
            5,
            Why::Step,
        ),
        // another label, another byte, another number
        (
            MESSAGES,
            "take 3 2: landed 0.1\ntake 2 3: answered 0.1 sent\n",
            "do 1 fetch 0: message 0 from 0 label 8 6869\n",
            CREDITS,
            4,
            Why::Reply,
        ),
        (
            MESSAGES,
            "take 3 2: landed 0.1\ntake 2 3: answered 0.1 sent\n",
            "do 1 fetch 0: message 0 from 0 label 7 6868\n",
            CREDITS,
            4,
            Why::Reply,
        ),
        (
            MESSAGES,
            "do 1 fetch 0: none\n",
            "do 1 fetch 0: flying 1.1\n",
            CREDITS,
            3,
            Why::Reply,
        ),
        // a grant that isn't to be had
        (
            RANGE,
            "grant part 0 0 of 1 at 0 len 1 perm r: granted 2 k.1 routed\n",
            PART,
            "audit flights 0\n",
            1,
            Why::Reply,
        ),
        // more credits than there are, no line on flights, and two of them
        (
            MESSAGES,
            DELIVERY,
            "",
            "audit credit 2 held 2 flying 0 queued 1 limit 2\naudit flights 0\n",
            5,
            Why::Audit,
        ),
        (
            MESSAGES,
            DELIVERY,
            "",
            "audit credit 2 held 1 flying 0 queued 1 limit 2\n",
            5,
            Why::Audit,
        ),
        (
            MESSAGES,
            "",
            "",
            "audit credit 2 held 1 flying 1 queued 0 limit 2\naudit flights 1\naudit flights 1\n",
            2,
            Why::Audit,
        ),
    ];
    for (setup, entries, more, audit, entry, why) in journals {
        let verdict = verdict_on(&rt, rt.alloc(), [setup, entries, more], audit)?;
        assert_eq!(rt;
            verdict,
            Verdict::Illegal { entry, why },
            "{entries}{more}{audit}"
        );
    }
    Ok(())
}
