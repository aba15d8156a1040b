//! Outcomes and their texts. The texts were made by another program, from the tables of the formats.
ghost use Rattle.std.specs.Prelude.{IfOk, IsSome};
ghost use Rattle.adsc_requests.specs.Kind.{kind_in};
ghost use Rattle.aircraft_core.specs.Entries.{IsTakenBy};
ghost use Rattle.aircraft_core.specs.Setting.{Setting};

use super::*;
use acars_envelope::{Address, Body, Envelope, Flight, Registration, Text, seal, unseal};
use adsc_io::{MemSink, WriteFault};
use adsc_requests::{Kind, Message, decode_uplink, kind_of};
use aircraft_core::{Craft, Entry, Who};
use arrayvec::ArrayVec;
use centre_core::Centre;
use due_event::Profile;
use flight_samples::Sample;
use net_script::{BadLine, Code};
use std::alloc::Global;
use std::test::Fail;

/// The contact of the aircraft N12345 to the centre at AKLCDYA.
const CONTACT: &[u8] =
    b"/AKLCDYA.AFN/FMHANZ1,.N12345,C81234,000000/FPON00000E000000,0/FCOADS,013093";

/// The acknowledgement of request 1, with a report.
const ACKNOWLEDGED: &[u8] = b"/AKLCDYA.ADS.N12345030107000000000000000000007E26";

/// The text of a flight that was done.
const DONE: &str =
    "J,4,7\nL,AKLCDYA,sent\nD,/AKLCDYA.AFN/FMHANZ1,.N12345,C81234,000000/FPON00000E000000,0/FCOADS,013093\nD,/AKLCDYA.ADS.N12345030107000000000000000000007E26\nL,NFFNDYA,none\nX,5,UNKNOWN,1\nX,6,TEXT,16\nX,8,OTHER,12\nX,9,REASON-2,32\nX,10,CHECK,BD4E,BD4F\nC,AKLCDYA,D,refused,10,0702\nC,AKLCDYA,P,confirmed,07010BA5\nC,AKLCDYA,V,cancelling,08030A1014\nC,AKLCDYA,M,pending,09040BA5\nOK\n";

fn address(name: &[u8]) -> Result<Address, Fail> {
    Ok(Address::new(name).ok_or("an address")?)
}

fn registration() -> Result<Registration, Fail> {
    Ok(Registration::new(b"N12345").ok_or("a registration")?)
}

/// The request that a payload encodes.
fn request(payload: &[u8]) -> Result<Message, Fail>
    ensures { IfOk result (λ request. IsSome (kind_in request)) }
{
    let Ok(uplink) = decode_uplink(payload) else {
        return Err(Fail::from("a payload that is read"));
    };
    match uplink.messages.as_slice() {
        [message] if kind_of(message).is_some() => Ok(*message),
        _ => Err(Fail::from("a payload of one request")),
    }
}

/// Asks for a contract.
fn ask(centre: &mut Centre, payload: &[u8]) -> Result<(), Fail> {
    match centre.ask(&request(payload)?) {
        Ok(_) => Ok(()),
        Err(_) => Err(Fail::from("a request that is sent")),
    }
}

/// The text of a downlink with this payload from the aircraft N12345 to the centre at AKLCDYA.
fn downlink(payload: &[u8]) -> Result<Text, Fail> {
    let octets: ArrayVec<u8, 255> = ArrayVec::try_from(payload).ok().ok_or("a payload")?;
    if octets.is_empty() {
        return Err(Fail::from("a payload of octets"));
    }
    let envelope = Envelope {
        address: address(b"AKLCDYA")?,
        body: Body::Ads {
            registration: registration()?,
            payload: octets,
        },
    };
    Ok(seal(&envelope))
}

/// A centre whose periodic contract is confirmed, whose demand is refused, whose event contract is being cancelled, and whose
/// emergency contract is pending.
fn centre() -> Result<Centre, Fail> {
    let mut centre = Centre::new(address(b"AKLCDYA")?, registration()?);
    centre.hear(CONTACT);
    ask(&mut centre, &[0x07, 0x00, 0x0b, 0xa5])?;
    centre.hear(ACKNOWLEDGED);
    ask(&mut centre, &[0x07, 0x00])?;
    centre.hear(downlink(&[0x04, 0x02, 0x0a])?.as_slice());
    ask(&mut centre, &[0x08, 0x00, 0x0a, 0x10, 0x14])?;
    match centre.cancel(Kind::Event) {
        Ok(_) => (),
        Err(_) => return Err(Fail::from("a cancel that is sent")),
    }
    ask(&mut centre, &[0x09, 0x00, 0x0b, 0xa5])?;
    Ok(centre)
}

/// An aircraft that logged on to its first link and took a request there.
fn craft(alloc: Global) -> Result<Craft, Fail> {
    let mut addresses = Vec::new(alloc);
    addresses.push(address(b"AKLCDYA")?)?;
    addresses.push(address(b"NFFNDYA")?)?;
    let who = Who {
        registration: registration()?,
        flight: Flight::new(b"ANZ1").ok_or("a flight")?,
        airframe: 0xC8_12_34,
        profile: Profile::One,
    };
    let mut craft = Craft::new(alloc, who, addresses.as_slice(), None, Sample::zero())?;
    craft.reserve()?;
    craft.apply(Entry::Logon { line: 4, link: 0 });
    let mut bytes = ArrayVec::new();
    bytes.push(0x07);
    bytes.push(0x01);
    craft.reserve()?;
    craft.apply(Entry::Uplink {
        line: 7,
        link: 0,
        bytes,
    });
    Ok(craft)
}

/// Refused texts of each kind.
fn refused(alloc: Global) -> Result<Vec<RefusedLine>, Fail> {
    let wrong_check = unseal(b"/AKLCDYA.ADS.N123450701BD4E")
        .err()
        .ok_or("a wrong check")?;
    let repeated = decode_uplink(&[7, 1, 11, 165, 11, 165])
        .err()
        .ok_or("a repeated group")?;
    let whys = [
        (5, RefusedWhy::UnknownAddress),
        (6, RefusedWhy::Afn { place: 16 }),
        (8, RefusedWhy::OtherRegistration { place: 12 }),
        (9, RefusedWhy::Bits(repeated)),
        (10, RefusedWhy::Envelope(wrong_check)),
    ];
    let mut refused = Vec::new(alloc);
    for (line, why) in whys {
        refused.push(RefusedLine { line, why })?;
    }
    Ok(refused)
}

/// The outcome of a flight that was done.
fn done(alloc: Global) -> Result<Outcome, Fail> {
    let mut centres = Vec::new(alloc);
    centres.push(CentreRow {
        address: address(b"AKLCDYA")?,
        centre: centre()?,
    })?;
    Ok(Outcome {
        craft: Some(craft(alloc)?),
        refused: refused(alloc)?,
        centres,
        end: End::Done,
    })
}

/// The outcome of a run that ended so before the aircraft flew.
fn ended(alloc: Global, end: End) -> Outcome {
    Outcome {
        craft: None,
        refused: Vec::new(alloc),
        centres: Vec::new(alloc),
        end,
    }
}

#[test]
fn a_run_that_was_done(rt: HostRuntime) -> Result<(), Fail> {
    let alloc = rt.alloc();
    let mut sink = MemSink::new(alloc, 10_000, 7, &[])?;
    assert_eq!(rt; write_outcome(&mut sink, &done(alloc)?), Ok(()));
    assert_eq!(rt; sink.written(), DONE.as_bytes());
    Ok(())
}

#[test]
fn runs_that_ended_early(rt: HostRuntime) -> Result<(), Fail> {
    let alloc = rt.alloc();
    let bad = |line, code, value| End::Bad(BadLine { line, code, value });
    let cases = [
        (bad(1, Code::Head, 0), "J\nBAD,1,HEAD,0\n"),
        (bad(3, Code::Kind, 0), "J\nBAD,3,KIND,0\n"),
        (bad(4, Code::Waiting, 255), "J\nBAD,4,WAITING,255\n"),
        (bad(200_000, Code::Long, 4_096), "J\nBAD,200000,LONG,4096\n"),
        (End::Limit { line: 200_001 }, "J\nLIMIT,200001\n"),
        (End::Done, "J\nOK\n"),
    ];
    for (end, text) in cases {
        let mut sink = MemSink::new(alloc, 100, 100, &[])?;
        assert_eq!(rt; write_outcome(&mut sink, &ended(alloc, end)), Ok(()));
        assert_eq!(rt; sink.written(), text.as_bytes());
    }
    Ok(())
}

#[test]
fn writes_that_fail(rt: HostRuntime) -> Result<(), Fail> {
    let alloc = rt.alloc();
    for (failing, text) in [(1, ""), (2, "J,4,7\nL"), (3, "J,4,7\nL,AKLCDY")] {
        let mut sink = MemSink::new(alloc, 10_000, 7, &[failing])?;
        assert_eq!(rt; write_outcome(&mut sink, &done(alloc)?), Err(WriteFault));
        assert_eq!(rt; sink.faults(), 1);
        assert_eq!(rt; sink.written(), text.as_bytes());
    }
    Ok(())
}

#[test]
fn more_than_a_block(rt: HostRuntime) -> Result<(), Fail> {
    let alloc = rt.alloc();
    let mut outcome = ended(alloc, End::Done);
    let mut text = String::from_str(alloc, "J\n")?;
    for line in 1..2_000u32 {
        let why = RefusedWhy::UnknownAddress;
        outcome.refused.push(RefusedLine { line, why })?;
        let shown = format!(in alloc; "X,{line},UNKNOWN,1\n")?;
        text.push_str(&shown)?;
    }
    text.push_str("OK\n")?;
    let mut sink = MemSink::new(alloc, 100_000, 100_000, &[])?;
    assert_eq!(rt; write_outcome(&mut sink, &outcome), Ok(()));
    assert_eq!(rt; sink.written(), text.as_bytes());
    let mut sink = MemSink::new(alloc, 100_000, 100_000, &[2])?;
    assert_eq!(rt; write_outcome(&mut sink, &outcome), Err(WriteFault));
    assert!(rt; text.as_bytes().starts_with(sink.written()));
    Ok(())
}
