//! Logons, script by script: the contacts that are sent, and how far each logon has come.

use super::*;
use afn_logon::Logon;

/// What came to an aircraft with two links, its outboxes, and the logon of each link.
struct Row {
    came: &'static [Came],
    sent: &'static [&'static [u8]],
    logons: &'static [Logon],
}

/// The two ground addresses.
const TWO: [&[u8]; 2] = [b"AKLCDYA", b"NFFNDYA"];

/// The contact on the first link at time 0, where the link is not live.
const CONTACT: &[u8] =
    b"/AKLCDYA.AFN/FMHANZ1,.N12345,C81234,000000/FPON00000E000000,0/FCOADS,013093\n";

/// The same with a demand before it, which makes the link live.
const LIVE: &[u8] =
    b"/AKLCDYA.ADS.N12345030107000000000000000000007E26\n/AKLCDYA.AFN/FMHANZ1,.N12345,C81234,000000/FPON00000E000000,1/FCOADS,01E8DA\n";

/// The contact behind a demand and a cancel of all contracts, a day and 13,600 s after the start.
const NEXT_DAY: &[u8] =
    b"/AKLCDYA.ADS.N12345030107000000000000000000007E26\n/AKLCDYA.AFN/FMHANZ1,.N12345,C81234,034640/FPON00000E000000,0/FCOADS,014CBC\n";

/// The contact at the ends of the ranges: at the south pole, 180 degrees west.
const AT_THE_POLE: &[u8] =
    b"/AKLCDYA.AFN/FMHANZ1,.N12345,C81234,000000/FPOS90000W180000,0/FCOADS,0111A9\n";

/// The scripts.
const ROWS: [Row; 9] = [
    // An answer before any logon changes nothing.
    Row {
        came: &[Answered(0, 0)],
        sent: &[b"", b""],
        logons: &[Logon::Nothing, Logon::Nothing],
    },
    Row {
        came: &[LoggedOn(0)],
        sent: &[CONTACT, b""],
        logons: &[Logon::Sent, Logon::Nothing],
    },
    Row {
        came: &[LoggedOn(0), Answered(0, 0)],
        sent: &[CONTACT, b""],
        logons: &[Logon::Accepted, Logon::Nothing],
    },
    Row {
        came: &[LoggedOn(0), Answered(0, 3)],
        sent: &[CONTACT, b""],
        logons: &[Logon::Rejected { code: 3 }, Logon::Nothing],
    },
    // The last answer decides.
    Row {
        came: &[LoggedOn(0), Answered(0, 9), Answered(0, 0)],
        sent: &[CONTACT, b""],
        logons: &[Logon::Accepted, Logon::Nothing],
    },
    // An answer on another link, where no contact was sent.
    Row {
        came: &[LoggedOn(0), Answered(1, 0)],
        sent: &[CONTACT, b""],
        logons: &[Logon::Sent, Logon::Nothing],
    },
    // Both links, each with its own answer.
    Row {
        came: &[LoggedOn(1), LoggedOn(0), Answered(0, 1), Answered(1, 0)],
        sent: &[
            CONTACT,
            b"/NFFNDYA.AFN/FMHANZ1,.N12345,C81234,000000/FPON00000E000000,0/FCOADS,013093\n",
        ],
        logons: &[Logon::Rejected { code: 1 }, Logon::Accepted],
    },
    Row {
        came: &[Payload(0, &[0x07, 0x01]), LoggedOn(0)],
        sent: &[LIVE, b""],
        logons: &[Logon::Sent, Logon::Nothing],
    },
    Row {
        came: &[
            Payload(0, &[0x07, 0x01]),
            Payload(0, &[0x01]),
            Tick(100_000),
            LoggedOn(0),
        ],
        sent: &[NEXT_DAY, b""],
        logons: &[Logon::Sent, Logon::Nothing],
    },
];

#[test]
fn logons_come_as_far_as_their_answers(rt: HostRuntime) -> Result<(), Fail> {
    for row in ROWS.iter() {
        let craft = flown_with_two(rt.alloc(), row.came)?;
        for (link, sent) in row.sent.iter().enumerate() {
            if link >= craft.links() {
                return Err(Fail::from("a listed link"));
            }
            assert_eq!(rt; craft.outbox(link), *sent);
            assert_eq!(rt; Some(craft.logon(link)), row.logons.get(link).copied());
        }
    }
    Ok(())
}

/// The aircraft with two links after what came.
fn flown_with_two(alloc: Global, came: &'static [Came]) -> Result<Craft, Fail> {
    flown(
        alloc,
        &Script {
            profile: Profile::One,
            addresses: &TWO,
            kept: None,
            came,
            sent: &[],
        },
    )
}

#[test]
fn a_contact_tells_the_latest_position(rt: HostRuntime) -> Result<(), Fail> {
    let mut craft = flown_with_two(rt.alloc(), &[])?;
    craft.reserve()?;
    craft.apply(Entry::Sample {
        line: 5,
        sample: sample(),
    });
    enter(&mut craft, &LoggedOn(0))?;
    if craft.links() == 0 {
        return Err(Fail::from("a link"));
    }
    assert_eq!(rt; craft.outbox(0), AT_THE_POLE);
    Ok(())
}
