//! What an aircraft sends, script by script. The texts were made by another program, from the
//! tables of the formats.
ghost use Rattle.std.specs.Prelude.{◌≡◌, ◌<◌, ◌≤◌, IfOk, length};
ghost use Rattle.std.specs.Option.{ForSome};
ghost use Rattle.aircraft_core.specs.Entries.{IsTakenBy};
ghost use Rattle.aircraft_core.specs.Setting.{Setting};

use super::*;
use acars_envelope::{Address, Flight, Registration};
use arrayvec::ArrayVec;
use due_event::Profile;
use flight_samples::Sample;
use std::alloc::Global;
use std::test::Fail;

mod live;
mod logons;

/// What comes to the aircraft.
enum Came {
    /// A payload on a link.
    Payload(u8, &'static [u8]),
    /// A sample that is all zeros but for its cross-track distance.
    OffTrack(i8),
    /// A sample that is all zeros but for its altitude.
    Altitude(i16),
    /// A tick.
    Tick(u32),
    /// The crew's switch of emergency.
    Crew(bool),
    /// The crew logs on to the ground address of a link.
    LoggedOn(u8),
    /// An answer to a logon on a link, with its code.
    Answered(u8, u8),
}

use Came::{Altitude, Answered, Crew, LoggedOn, OffTrack, Payload, Tick};

/// A script, and the outboxes after it.
#[derive(Drop)]
struct Script {
    profile: Profile,
    addresses: &'static [&'static [u8]],
    kept: Option<u8>,
    came: &'static [Came],
    sent: &'static [&'static [u8]],
}

/// The one ground address of a script of one link.
const ONE: [&[u8]; 1] = [b"AKLCDYA"];

/// The texts were made by another program, from the tables of the formats.
const SCRIPTS: [Script; 14] = [
    Script {
        profile: Profile::One,
        addresses: &ONE,
        kept: None,
        came: &[],
        sent: &[b""],
    },
    // Two demands one after the other, and one of two groups.
    Script {
        profile: Profile::One,
        addresses: &ONE,
        kept: None,
        came: &[Payload(0, &[0x07, 0x01]), Payload(0, &[0x07, 0xff])],
        sent: &[
            b"/AKLCDYA.ADS.N12345030107000000000000000000007E26\n/AKLCDYA.ADS.N1234503FF070000000000000000000040A1\n",
        ],
    },
    Script {
        profile: Profile::One,
        addresses: &ONE,
        kept: None,
        came: &[Payload(0, &[0x07, 0x05, 0x11, 0xff, 0x0e, 0x00, 0x0c, 0x02])],
        sent: &[b"/AKLCDYA.ADS.N12345030507000000000000000000000C04E6B182082011C812348DA5\n"],
    },
    // Four demands in one payload make one text.
    Script {
        profile: Profile::One,
        addresses: &ONE,
        kept: None,
        came: &[Payload(0, &[0x07, 0x01, 0x07, 0x02, 0x07, 0x03, 0x07, 0x04])],
        sent: &[
            b"/AKLCDYA.ADS.N12345030107000000000000000000000302070000000000000000000003030700000000000000000000030407000000000000000000003FF3\n",
        ],
    },
    // A payload that can't be read, on a link that is not live, and on one that is.
    Script {
        profile: Profile::One,
        addresses: &ONE,
        kept: None,
        came: &[Payload(0, &[0x07, 0x01, 0x0b, 0xa5, 0x0b, 0xa5])],
        sent: &[b""],
    },
    Script {
        profile: Profile::One,
        addresses: &ONE,
        kept: None,
        came: &[
            Payload(0, &[0x07, 0x01]),
            Payload(0, &[0x07, 0x01, 0x0b, 0xa5, 0x0b, 0xa5]),
        ],
        sent: &[
            b"/AKLCDYA.ADS.N12345030107000000000000000000007E26\n/AKLCDYA.ADS.N12345040102059E91\n",
        ],
    },
    // A periodic contract of 304 s with the predicted route in every second report, repeated, and its number taken again.
    Script {
        profile: Profile::One,
        addresses: &ONE,
        kept: None,
        came: &[
            Payload(0, &[0x07, 0x02, 0x0b, 0xa5, 0x0d, 0x02]),
            Tick(0),
            Tick(303),
            Tick(304),
            Tick(912),
        ],
        sent: &[
            b"/AKLCDYA.ADS.N12345030207000000000000000000000D000000000000000000000000000000000003F6\n/AKLCDYA.ADS.N123450700000000000000000000B259\n/AKLCDYA.ADS.N1234507000000000000000000000D0000000000000000000000000000000000AA26\n",
        ],
    },
    Script {
        profile: Profile::One,
        addresses: &ONE,
        kept: None,
        came: &[
            Payload(0, &[0x07, 0x02, 0x0b, 0xa5, 0x0d, 0x02]),
            Payload(0, &[0x07, 0x02, 0x0b, 0xa5, 0x0d, 0x02]),
            Payload(0, &[0x07, 0x02, 0x0b, 0xa6]),
        ],
        sent: &[
            b"/AKLCDYA.ADS.N12345030207000000000000000000000D000000000000000000000000000000000003F6\n/AKLCDYA.ADS.N12345030241E8\n/AKLCDYA.ADS.N123450402064BBC\n",
        ],
    },
    // Emergency mode in a periodic contract, and its cancel.
    Script {
        profile: Profile::One,
        addresses: &ONE,
        kept: None,
        came: &[
            Payload(0, &[0x07, 0x01, 0x0b, 0xa5]),
            Tick(100),
            Crew(true),
            Tick(304),
            Tick(404),
            Tick(608),
            Tick(708),
            Crew(false),
            Tick(912),
        ],
        sent: &[
            b"/AKLCDYA.ADS.N12345030107000000000000000000007E26\n/AKLCDYA.ADS.N123450900000000000000000000E123\n/AKLCDYA.ADS.N123450900000000000000000000E123\n/AKLCDYA.ADS.N123450900000000000000000000E123\n/AKLCDYA.ADS.N1234506009E5F\n/AKLCDYA.ADS.N123450700000000000000000000B259\n",
        ],
    },
    Script {
        profile: Profile::One,
        addresses: &ONE,
        kept: None,
        came: &[
            Crew(true),
            Payload(0, &[0x07, 0x01]),
            Tick(303),
            Tick(304),
            Payload(0, &[0x06, 0x00]),
            Tick(608),
        ],
        sent: &[
            b"/AKLCDYA.ADS.N12345030107000000000000000000007E26\n/AKLCDYA.ADS.N123450900000000000000000000E123\n/AKLCDYA.ADS.N12345030061AA\n",
        ],
    },
    // An event contract by profile 1 and by profile 2.
    Script {
        profile: Profile::One,
        addresses: &ONE,
        kept: None,
        came: &LATERAL,
        sent: &[b"/AKLCDYA.ADS.N12345030351C9\n/AKLCDYA.ADS.N123450A0000000000000000000099D9\n"],
    },
    Script {
        profile: Profile::Two,
        addresses: &ONE,
        kept: None,
        came: &LATERAL,
        sent: &[
            b"/AKLCDYA.ADS.N12345030351C9\n/AKLCDYA.ADS.N123450A0000000000000000000099D9\n/AKLCDYA.ADS.N123450A0000000000000000000099D9\n",
        ],
    },
    // Six links and five connections: the sixth is not heard, and where one is kept for it, the fifth.
    Script {
        profile: Profile::One,
        addresses: &SIX,
        kept: None,
        came: &EACH_ASKS,
        sent: &[FIRST, SECOND, THIRD, FOURTH, FIFTH, b""],
    },
    Script {
        profile: Profile::One,
        addresses: &SIX,
        kept: Some(5),
        came: &EACH_ASKS,
        sent: &[FIRST, SECOND, THIRD, FOURTH, b"", SIXTH],
    },
];

/// A lateral deviation above 1 NM, left and reached again.
const LATERAL: [Came; 6] = [
    Payload(0, &[0x08, 0x03, 0x0a, 0x08]),
    OffTrack(8),
    OffTrack(9),
    OffTrack(9),
    OffTrack(0),
    OffTrack(9),
];

/// Six ground addresses.
const SIX: [&[u8]; 6] = [
    b"GRND001", b"GRND002", b"GRND003", b"GRND004", b"GRND005", b"GRND006",
];

/// A demand of each of six links.
const EACH_ASKS: [Came; 6] = [
    Payload(0, &[0x07, 0x01]),
    Payload(1, &[0x07, 0x01]),
    Payload(2, &[0x07, 0x01]),
    Payload(3, &[0x07, 0x01]),
    Payload(4, &[0x07, 0x01]),
    Payload(5, &[0x07, 0x01]),
];

const FIRST: &[u8] = b"/GRND001.ADS.N12345030107000000000000000000007E26\n";

const SECOND: &[u8] = b"/GRND002.ADS.N12345030107000000000000000000007E26\n";

const THIRD: &[u8] = b"/GRND003.ADS.N12345030107000000000000000000007E26\n";

const FOURTH: &[u8] = b"/GRND004.ADS.N12345030107000000000000000000007E26\n";

const FIFTH: &[u8] = b"/GRND005.ADS.N12345030107000000000000000000007E26\n";

const SIXTH: &[u8] = b"/GRND006.ADS.N12345030107000000000000000000007E26\n";

#[test]
fn scripts_are_answered(rt: HostRuntime) -> Result<(), Fail> {
    for script in SCRIPTS.iter() {
        let craft = flown(rt.alloc(), script)?;
        assert_eq!(rt; craft.journal().len(), script.came.len());
        assert_eq!(rt; craft.links(), script.sent.len());
        for (link, sent) in script.sent.iter().enumerate() {
            if link >= craft.links() {
                return Err(Fail::from("a listed link"));
            }
            assert_eq!(rt; craft.outbox(link), *sent);
            assert_eq!(rt;
                Some(craft.address(link)),
                Address::new(script.addresses[link])
            );
        }
    }
    Ok(())
}

/// The aircraft after a script.
fn flown(alloc: Global, script: &Script) -> Result<Craft, Fail> {
    let addresses = addresses(alloc, script)?;
    let mut craft = craft(alloc, who(script)?, addresses.as_slice(), script.kept)?;
    for came in script.came {
        enter(&mut craft, came)?;
    }
    Ok(craft)
}

/// The ground addresses of a script.
fn addresses(alloc: Global, script: &Script) -> Result<Vec<Address>, Fail> {
    let mut addresses = Vec::new(alloc);
    for name in script.addresses {
        addresses.push(Address::new(name).ok_or("an address")?)?;
    }
    Ok(addresses)
}

/// Who the aircraft of a script is.
fn who(script: &Script) -> Result<Who, Fail> {
    Ok(Who {
        registration: Registration::new(b"N12345").ok_or("a registration")?,
        flight: Flight::new(b"ANZ1").ok_or("a flight")?,
        airframe: 0xC8_12_34,
        profile: script.profile,
    })
}

/// Keeps room for what came, and enters it.
fn enter(craft: &mut Craft, came: &Came) -> Result<(), Fail> {
    let entry = entry(craft.links(), came)?;
    craft.reserve()?;
    craft.apply(entry);
    Ok(())
}

/// An aircraft whose first sample is all zeros.
fn craft(alloc: Global, who: Who, addresses: &[Address], kept: Option<u8>) -> Result<Craft, Fail>
    ensures { IfOk result (λ craft. craft.setting.addresses ≡ addresses.now) }
{
    if addresses.is_empty() || addresses.len() > 64 {
        return Err(Fail::from("1 to 64 addresses"));
    }
    let kept = listed(kept, addresses.len())?;
    Ok(Craft::new(alloc, who, addresses, kept, Sample::zero())?)
}

/// The kept link, which is one of so many.
fn listed(kept: Option<u8>, links: usize) -> Result<Option<u8>, Fail>
    ensures { IfOk result (λ link. ForSome link (λ number. number < links)) }
{
    match kept {
        None => Ok(None),
        Some(link) if usize::from(link) < links => Ok(Some(link)),
        Some(_) => Err(Fail::from("a listed link")),
    }
}

/// The entry of what came to an aircraft with so many links.
fn entry(links: usize, came: &Came) -> Result<Entry, Fail>
    ensures { IfOk result (λ entry. (setting : Setting) → length setting.addresses ≡ links
        → IsTakenBy setting entry) }
{
    match came {
        Payload(link, payload) => uplink(links, *link, payload),
        OffTrack(distance) => Ok(Entry::Sample {
            line: 4,
            sample: off_track(*distance),
        }),
        Altitude(altitude) => Ok(Entry::Sample {
            line: 4,
            sample: at_altitude(*altitude),
        }),
        Tick(t) if *t < 1_000_000_000 => Ok(Entry::Tick { line: 4, t: *t }),
        Tick(_) => Err(Fail::from("a moment")),
        Crew(on) => Ok(Entry::Crew { line: 4, on: *on }),
        LoggedOn(link) => logon(links, *link),
        Answered(link, code) => answer(links, *link, *code),
    }
}

/// The entry of an uplink on one of so many links.
fn uplink(links: usize, link: u8, payload: &[u8]) -> Result<Entry, Fail>
    ensures { IfOk result (λ entry. (setting : Setting) → length setting.addresses ≡ links
        → IsTakenBy setting entry) }
{
    if usize::from(link) >= links || payload.is_empty() || payload.len() > 255 {
        return Err(Fail::from("a payload on a listed link"));
    }
    let bytes = ArrayVec::try_from(payload).ok().ok_or("a payload")?;
    Ok(Entry::Uplink {
        line: 4,
        link,
        bytes,
    })
}

/// A sample that is all zeros but for its cross-track distance.
fn off_track(distance: i8) -> Sample {
    let mut sample = Sample::zero();
    sample.xtk = i32::from(distance);
    sample
}

/// A sample that is all zeros but for its altitude.
fn at_altitude(altitude: i16) -> Sample {
    let mut sample = Sample::zero();
    sample.alt = i32::from(altitude);
    sample
}

/// A demand of all six groups.
const ALL_GROUPS: [u8; 14] = [
    0x07, 0x06, 0x11, 0x01, 0x0c, 0x01, 0x0d, 0x01, 0x0e, 0x01, 0x0f, 0x01, 0x10, 0x01,
];

/// The outbox of a demand before the sample, and of a demand and one of all groups behind it.
const REPORTED: &[u8] =
    b"/AKLCDYA.ADS.N12345030107000000000000000000007E26\n/AKLCDYA.ADS.N12345030107C0000400002000383F9FE428\n/AKLCDYA.ADS.N12345030607C0000400002000383F9F0C04E6B18208200D40000400003FFFFFFFC00003FFFFDFFFC00EFFFFFFE0000F800800A00010FFE0100011C812349577\n";

/// A sample with a value of its own in each column, at the ends of many ranges.
fn sample() -> Sample {
    Sample {
        lat: -524288,
        lon: -1048576,
        alt: -32768,
        sec: 28799,
        tcas: 1,
        acc: 7,
        red: 1,
        wlat: 524288,
        wlon: -1048576,
        walt: -1,
        eta: 16383,
        nlat: -524288,
        nlon: 1048575,
        nalt: 32767,
        tinv: 1,
        track: 4095,
        gs: 8191,
        vr: -2048,
        hinv: 1,
        heading: 1,
        mach: 2,
        wind: 511,
        winv: 1,
        wdir: 256,
        temp: -2048,
        xtk: 5,
    }
}

#[test]
fn reports_are_on_the_latest_sample(rt: HostRuntime) -> Result<(), Fail> {
    let mut craft = flown(rt.alloc(), &SCRIPTS[0])?;
    enter(&mut craft, &Payload(0, &[0x07, 0x01]))?;
    craft.reserve()?;
    craft.apply(Entry::Sample {
        line: 5,
        sample: sample(),
    });
    enter(&mut craft, &Payload(0, &[0x07, 0x01]))?;
    enter(&mut craft, &Payload(0, &ALL_GROUPS))?;
    if craft.links() == 0 {
        return Err(Fail::from("a link"));
    }
    assert_eq!(rt; craft.outbox(0), REPORTED);
    assert_eq!(rt; craft.registration().seven(), *b".N12345");
    assert!(rt; craft.table().is_live(0));
    Ok(())
}

/// The entry of a logon on one of so many links.
fn logon(links: usize, link: u8) -> Result<Entry, Fail>
    ensures { IfOk result (λ entry. (setting : Setting) → length setting.addresses ≡ links
        → IsTakenBy setting entry) }
{
    if usize::from(link) >= links {
        return Err(Fail::from("a listed link"));
    }
    Ok(Entry::Logon { line: 4, link })
}

/// The entry of an answer to a logon on one of so many links.
fn answer(links: usize, link: u8, code: u8) -> Result<Entry, Fail>
    ensures { IfOk result (λ entry. (setting : Setting) → length setting.addresses ≡ links
        → IsTakenBy setting entry) }
{
    if usize::from(link) >= links || code > 9 {
        return Err(Fail::from("a code on a listed link"));
    }
    Ok(Entry::Answer {
        line: 4,
        link,
        code,
    })
}
