//! Texts from the ground and what they say. The checks were made by another program.

use super::*;
use acars_envelope::{Address, EnvelopeRefusal, EnvelopeWhy, Flight, Registration};
use adsc_requests::{Message, Moduli, Refusal, Uplink};
use afn_logon::{AfnRefusal, Answer, Application};
use arrayvec::ArrayVec;
use std::process::Abort;

/// The ground address of the texts.
fn address(rt: &impl Abort) -> Address {
    Address::new(b"AKLCDYA").expect(rt, "an address")
}

#[test]
fn texts_that_are_no_envelopes(rt: HostRuntime) {
    let slash = EnvelopeRefusal {
        place: 0,
        why: EnvelopeWhy::Slash,
    };
    assert_eq!(rt; read_ground_text(b"x"), GroundText::Refused(slash));
    let check = EnvelopeRefusal {
        place: 23,
        why: EnvelopeWhy::Check {
            found: 0xbd4e,
            due: 0xbd4f,
        },
    };
    assert_eq!(rt;
        read_ground_text(b"/AKLCDYA.ADS.N123450701BD4E"),
        GroundText::Refused(check)
    );
}

/// What the text says that carries these octets to the aircraft N12345.
fn uplink(rt: &impl Abort, octets: &[u8], asked: Result<Uplink, Refusal>) -> GroundText {
    let mut held = ArrayVec::new();
    held.try_extend_from_slice(octets).expect(rt, "room");
    GroundText::Ads(AdsUplink {
        address: address(rt),
        registration: Registration::new(b"N12345").expect(rt, "a registration"),
        octets: held,
        asked,
    })
}

#[test]
fn texts_of_surveillance(rt: HostRuntime) {
    let mut messages = ArrayVec::new();
    messages.push(Message::Periodic {
        n: 1,
        interval: None,
        groups: Moduli { m: [None; 6] },
        intent: None,
    });
    assert_eq!(rt;
        read_ground_text(b"/AKLCDYA.ADS.N123450701BD4F"),
        uplink(&rt, b"\x07\x01", Ok(Uplink { messages }))
    );
    let malformed = Refusal {
        bit: 32,
        reason: 2,
        number: 1,
        octet: 5,
    };
    assert_eq!(rt;
        read_ground_text(b"/AKLCDYA.ADS.N1234507010BA50BA5F332"),
        uplink(&rt, b"\x07\x01\x0b\xa5\x0b\xa5", Err(malformed))
    );
}

/// What a text says of the facilities notification.
fn notice(rt: &impl Abort, answer: Result<Answer, AfnRefusal>) -> GroundText {
    GroundText::Afn(AfnUplink {
        address: address(rt),
        answer,
    })
}

#[test]
fn texts_of_the_facilities_notification(rt: HostRuntime) {
    let mut applications = ArrayVec::new();
    applications.push(Application {
        name: *b"ADS",
        number: 0,
    });
    let answer = Answer {
        flight: Flight::new(b"ANZ1").expect(&rt, "a flight"),
        registration: Registration::new(b"N12345").expect(&rt, "a registration"),
        code: 0,
        applications,
    };
    assert_eq!(rt;
        read_ground_text(b"/AKLCDYA.AFN/FMHANZ1,.N12345/FAK0/FARADS,05087"),
        notice(&rt, Ok(answer))
    );
    assert_eq!(rt;
        read_ground_text(b"/AKLCDYA.AFN/FMHANZ1AA90"),
        notice(&rt, Err(AfnRefusal { place: 8 }))
    );
}
