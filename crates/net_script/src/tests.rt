//! Lines of each letter with their values, and bad lines of each code.

use super::*;
use acars_envelope::{Address, Flight, Registration};
use adsc_io::next_line;
use adsc_requests::{Kind, Limits, Message, Moduli};
use aircraft_core::Who;
use due_event::Profile;
use flight_samples::{Sample, SampleReader};
use std::alloc::AllocGlobal;
use std::process::Abort;
use std::test::Fail;

/// What the first line of an input says, or why it is bad.
fn read(
    rt: &(impl Abort + AllocGlobal),
    samples: &mut SampleReader,
    input: &[u8],
) -> Result<ScriptLine, LineRefusal> {
    let (line, _) = next_line(input).expect(rt, "a line");
    assert!(rt; line.len() <= 4096);
    read_script_line(samples, rt.alloc(), line)
}

/// What the first line of an input says, read by itself.
fn read_alone(rt: &(impl Abort + AllocGlobal), input: &[u8]) -> Result<ScriptLine, LineRefusal> {
    read(rt, &mut SampleReader::new(rt.alloc()), input)
}

fn address(rt: &impl Abort, text: &[u8]) -> Address {
    Address::new(text).expect(rt, "an address")
}

fn periodic(interval: Option<u8>, m: [Option<u8>; 6]) -> Message {
    Message::Periodic {
        n: 0,
        interval,
        groups: Moduli { m },
        intent: None,
    }
}

#[test]
fn lines_of_the_flight(rt: HostRuntime) -> Result<(), Fail> {
    let profiles: [(&[u8], Profile); 3] = [
        (b"A,N-12,AB123,ABCDEF", Profile::One),
        (b"A,N-12,AB123,ABCDEF,1", Profile::One),
        (b"A,N-12,AB123,ABCDEF,2", Profile::Two),
    ];
    let mut samples = SampleReader::new(rt.alloc());
    for (text, profile) in profiles {
        let who = Who {
            registration: Registration::new(b"N-12").expect(&rt, "a registration"),
            flight: Flight::new(b"AB123").expect(&rt, "a flight"),
            airframe: 0xabcdef,
            profile,
        };
        assert_eq!(rt; read(&rt, &mut samples, text), Ok(ScriptLine::A(who)));
    }
    let sample = Sample {
        lat: 1,
        lon: -2,
        alt: 3,
        sec: 4,
        tcas: 1,
        acc: 7,
        red: 0,
        wlat: 5,
        wlon: -6,
        walt: 7,
        eta: 8,
        nlat: 9,
        nlon: -10,
        nalt: 11,
        tinv: 1,
        track: 12,
        gs: 13,
        vr: -14,
        hinv: 0,
        heading: 15,
        mach: 16,
        wind: 17,
        winv: 1,
        wdir: 18,
        temp: -19,
        xtk: -20,
    };
    let text = b"S,1,-2,3,4,1,7,0,5,-6,7,8,9,-10,11,1,12,13,-14,0,15,16,17,1,18,-19,-20";
    assert_eq!(rt; read(&rt, &mut samples, text), Ok(ScriptLine::S(sample)));
    let cases: [(&[u8], ScriptLine); 6] = [
        (b"T,0", ScriptLine::T(0)),
        (b"T,999999999\n", ScriptLine::T(999_999_999)),
        (b"E,1", ScriptLine::E(true)),
        (b"E,0", ScriptLine::E(false)),
        (b"U,", ScriptLine::U { from: 2 }),
        (b"U,\"\r\x7f,,", ScriptLine::U { from: 2 }),
    ];
    for (text, wanted) in cases {
        assert_eq!(rt; read(&rt, &mut samples, text), Ok(wanted));
    }
    Ok(())
}

#[test]
fn lines_of_addresses(rt: HostRuntime) -> Result<(), Fail> {
    let one = address(&rt, b"GRND001");
    let two = address(&rt, b"0000000");
    let lists: [(&[u8], Option<u8>); 3] = [
        (b"G,GRND001,0000000", None),
        (b"G,GRND001*,0000000", Some(0)),
        (b"G,GRND001,0000000*", Some(1)),
    ];
    for (text, reserved) in lists {
        let wanted = ScriptLine::G {
            addresses: Addresses::new([one, two].to_vec(rt.alloc())?),
            reserved,
        };
        assert_eq!(rt; read_alone(&rt, text), Ok(wanted));
    }
    let limits = Limits {
        lateral: Some(0x10),
        vrate: None,
        range: None,
        waypoint: true,
    };
    let emergency = Message::Emergency {
        n: 0,
        interval: None,
        groups: Moduli { m: [None; 6] },
        intent: None,
    };
    let earth = [None, Some(1), Some(1), None, None, None];
    let cases: [(&[u8], ScriptLine); 11] = [
        (b"L,GRND001", ScriptLine::L(one)),
        (
            b"C,GRND001,0700",
            ScriptLine::C(one, periodic(None, [None; 6])),
        ),
        (
            b"C,GRND001,07000BCF0D010E01",
            ScriptLine::C(one, periodic(Some(0xcf), earth)),
        ),
        (
            b"C,GRND001,08000A1014",
            ScriptLine::C(one, Message::Event { n: 0, limits }),
        ),
        (b"C,GRND001,0900", ScriptLine::C(one, emergency)),
        (
            b"K,GRND001,P",
            ScriptLine::K(one, Cancel::Of(Kind::Periodic)),
        ),
        (b"K,GRND001,V", ScriptLine::K(one, Cancel::Of(Kind::Event))),
        (
            b"K,GRND001,M",
            ScriptLine::K(one, Cancel::Of(Kind::Emergency)),
        ),
        (b"K,GRND001,X", ScriptLine::K(one, Cancel::EmergencyMode)),
        (b"B,0000000,1", ScriptLine::B(two, 1)),
        (b"R,0000000,999999999", ScriptLine::R(two, 999_999_999)),
    ];
    for (text, wanted) in cases {
        assert_eq!(rt; read_alone(&rt, text), Ok(wanted));
    }
    assert_eq!(rt;
        read_alone(&rt, b"K,GRND001,A"),
        Ok(ScriptLine::K(one, Cancel::All))
    );
    Ok(())
}

/// Tests that each line is bad with this code and value.
fn bad_lines(rt: &(impl Abort + AllocGlobal), code: Code, cases: &[(&'static [u8], u32)]) {
    for (text, value) in cases {
        let wanted = LineRefusal::Bad {
            code,
            value: *value,
        };
        assert_eq!(rt; read_alone(rt, text), Err(wanted));
    }
}

#[test]
fn bad_letters_bytes_and_counts(rt: HostRuntime) {
    bad_lines(
        &rt,
        Code::Kind,
        &[
            (b"\n", 0),
            (b"X", 0),
            (b"t,0", 0),
            (b" T,0", 0),
            (b",T,0", 0),
            (b"AB,0", 0),
            (b"U\"", 0),
            (b"A\r", 0),
        ],
    );
    bad_lines(
        &rt,
        Code::Byte,
        &[
            (b"T,0\"", 3),
            (b"T,\r", 2),
            (b"T,\x7f\xff", 2),
            (b"L,GRND\xff01", 6),
            (b"S,\"", 2),
            (b"E,1,2,\r", 6),
        ],
    );
    bad_lines(
        &rt,
        Code::Count,
        &[
            (b"A", 0),
            (b"A,N1,F1", 2),
            (b"A,N1,F1,000000,1,", 5),
            (b"G", 0),
            (
                b"G,,,,,,,,,,,,,,,,,,,,,,,,,,,,,,,,,,,,,,,,,,,,,,,,,,,,,,,,,,,,,,,,,",
                65,
            ),
            (b"S", 0),
            (b"S,", 1),
            (b"S,,,,,,,,,,,,,,,,,,,,,,,,,,,", 27),
            (b"T", 0),
            (b"T,1,", 2),
            (b"E,1,0", 2),
            (b"L", 0),
            (b"U", 0),
            (b"C,GRND001", 1),
            (b"K,GRND001,P,", 3),
            (b"B,,,", 3),
            (b"R,GRND001", 1),
        ],
    );
}

#[test]
fn bad_fields(rt: HostRuntime) {
    bad_lines(
        &rt,
        Code::Field,
        &[
            (b"A,,,", 1),
            (b"A,N1234567,F1,000000", 1),
            (b"A,.N1,F1,000000", 1),
            (b"A,N1,,000000", 2),
            (b"A,N1,F12345678,000000", 2),
            (b"A,N1,F1,", 3),
            (b"A,N1,F1,00000", 3),
            (b"A,N1,F1,0000000", 3),
            (b"A,N1,F1,abcdef", 3),
            (b"A,N1,F1,000000,", 4),
            (b"A,N1,F1,000000,3", 4),
            (b"A,N1,F1,000000,01", 4),
            (b"A,N1,F1,00000,3", 3),
            (b"G,", 1),
            (b"G,GRND001,", 2),
            (b"G,GRND001,GRND001,grnd002", 3),
            (
                b"G,,,,,,,,,,,,,,,,,,,,,,,,,,,,,,,,,,,,,,,,,,,,,,,,,,,,,,,,,,,,,,,,",
                1,
            ),
            (b"G,*", 1),
            (b"G,*GRND001", 1),
            (b"G,GRND001**", 1),
            (b"G,GRND00*", 1),
            (b"G,GRND001*,GRND002*", 2),
            (b"G,GRND001,GRND001*,GRND002*", 3),
            (b"S,0,0,0,0,2,0,0,0,0,0,0,0,0,0,0,0,0,0,0,0,0,0,0,0,0,-0", 5),
            (
                b"S,0,0,0,0,0,0,0,0,0,0,0,0,0,0,0,0,0,0,0,0,0,0,0,0,0,-0",
                26,
            ),
            (b"T,", 1),
            (b"T,-1", 1),
            (b"T,-0", 1),
            (b"T,00", 1),
            (b"T,0 ", 1),
            (b"T,\x01", 1),
            (b"T,1000000000", 1),
            (b"T,99999999999999999999", 1),
            (b"E,", 1),
            (b"E,2", 1),
            (b"E,01", 1),
            (b"L,", 1),
            (b"L,grnd001", 1),
            (b"L,GRND01", 1),
            (b"L,GRND0001", 1),
        ],
    );
    bad_lines(
        &rt,
        Code::Field,
        &[
            (b"C,grnd001,", 1),
            (b"C,GRND001,", 2),
            (b"C,GRND001,070", 2),
            (b"C,GRND001,07", 2),
            (b"C,GRND001,0701", 2),
            (b"C,GRND001,07000bcf", 2),
            (b"C,GRND001,07000700", 2),
            (b"C,GRND001,01", 2),
            (b"C,GRND001,0200", 2),
            (b"C,GRND001,0600", 2),
            (b"C,GRND001,0800", 2),
            (b"K,,", 1),
            (b"K,GRND001,", 2),
            (b"K,GRND001,D", 2),
            (b"K,GRND001,PP", 2),
            (b"B,GRND001,0", 2),
            (b"B,GRND001,01", 2),
            (b"B,GRND001,1000000000", 2),
            (b"R,,1", 1),
            (b"R,GRND001,-1", 2),
        ],
    );
}

#[test]
fn addresses_that_stand_twice(rt: HostRuntime) {
    bad_lines(
        &rt,
        Code::Twice,
        &[
            (b"G,GRND001,GRND001", 2),
            (b"G,GRND001*,GRND001", 2),
            (b"G,GRND001,GRND002,GRND001*", 3),
            (b"G,GRND001,GRND002,GRND002,GRND001", 3),
            (b"G,GRND001,GRND002,GRND003,GRND001", 4),
        ],
    );
}

#[test]
fn letters_that_lines_have(rt: HostRuntime) {
    let cases: [(&[u8], Letter, bool); 9] = [
        (b"A", Letter::Aircraft, true),
        (b"A,\"", Letter::Aircraft, true),
        (b"A", Letter::Ground, false),
        (b"A\r", Letter::Aircraft, false),
        (b"AB", Letter::Aircraft, false),
        (b",A", Letter::Aircraft, false),
        (b"a,", Letter::Aircraft, false),
        (b"", Letter::Sample, false),
        (b"U,,", Letter::Uplink, true),
    ];
    for (line, letter, wanted) in cases {
        assert_eq!(rt; has_letter(line, letter), wanted);
    }
}
