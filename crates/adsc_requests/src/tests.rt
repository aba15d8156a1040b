use super::*;
use std::process::Abort;
use std::test::*;

/// A payload that is refused, and its bit, reason, number and octet.
type Refused = (&'static [u8], u32, u8, u8, u8);

fn refused(rt: &impl Abort, cases: &[Refused]) {
    for case in cases {
        let want = Refusal {
            bit: case.1,
            reason: case.2,
            number: case.3,
            octet: case.4,
        };
        match decode_uplink(case.0) {
            Ok(uplink) => assert!(rt; false, "{:?} was read: {uplink:?}", case.0),
            Err(refusal) => assert_eq!(rt; refusal, want, "{:?}", case.0),
        }
    }
}

/// The messages of a payload that is read; its groups stand by rising tag.
fn read(rt: &impl Abort, payload: &[u8], want: &[Message]) {
    match decode_uplink(payload) {
        Ok(uplink) => {
            assert_eq!(rt; uplink.messages.as_slice(), want, "{payload:?}");
            assert_eq!(rt; encode_uplink(&uplink).as_slice(), payload, "{payload:?}");
        }
        Err(refusal) => assert!(rt; false, "{payload:?}: {refusal:?}"),
    }
}

fn periodic(n: u8, interval: Option<u8>, predicted_route: Option<u8>) -> Message {
    let m = [None, predicted_route, None, None, None, None];
    Message::Periodic {
        n,
        interval,
        groups: Moduli { m },
        intent: None,
    }
}

fn waypoint(n: u8) -> Message {
    let limits = Limits {
        lateral: None,
        vrate: None,
        range: None,
        waypoint: true,
    };
    Message::Event { n, limits }
}

#[test]
fn vectors_are_read(rt: HostRuntime) {
    read(&rt, &[0x07, 0x01], &[periodic(1, None, None)]);
    read(
        &rt,
        &[0x07, 0x01, 0x0b, 0xa5, 0x08, 0x02, 0x14],
        &[periodic(1, Some(0xa5), None), waypoint(2)],
    );
    read(
        &rt,
        &[0x07, 0x02, 0x0b, 0xa5, 0x0d, 0x02],
        &[periodic(2, Some(0xa5), Some(2))],
    );
    let range = Some(Range {
        ceiling: 10_000,
        floor: 9_000,
    });
    let limits = Limits {
        lateral: None,
        vrate: None,
        range,
        waypoint: false,
    };
    read(
        &rt,
        &[0x08, 0x03, 0x13, 0x27, 0x10, 0x23, 0x28],
        &[Message::Event { n: 3, limits }],
    );
    let limits = Limits {
        lateral: Some(8),
        vrate: Some(-3),
        range: None,
        waypoint: true,
    };
    read(
        &rt,
        &[
            0x01, 0x02, 0x09, 0x06, 0x0a, 0x08, 0x01, 0x0a, 0x08, 0x12, 0xfd, 0x14,
        ],
        &[
            Message::CancelAll,
            Message::Cancel { n: 9 },
            Message::CancelEmergency { n: 10 },
            Message::Event { n: 1, limits },
        ],
    );
}

#[test]
fn vectors_are_refused(rt: HostRuntime) {
    refused(
        &rt,
        &[
            (&[], 0, 9, 0, 1),
            (&[0x05], 0, 7, 0, 1),
            (&[0x07], 8, 9, 0, 2),
            (&[0x07, 0x01, 0x0b, 0xa5, 0x0b, 0xa5], 32, 2, 1, 5),
            (&[0x07, 0x01, 0x0d, 0x01, 0x0d, 0x01], 32, 1, 1, 5),
            (&[0x07, 0x01, 0x0a, 0x08], 16, 7, 1, 3),
            (&[0x08, 0x01], 16, 3, 1, 3),
            (&[0x08, 0x01, 0x0a, 0x00], 24, 13, 1, 4),
            (&[0x08, 0x01, 0x12, 0x00], 24, 11, 1, 4),
            (&[0x08, 0x01, 0x13, 0x27], 24, 9, 1, 4),
            (&[0x08, 0x04, 0x13, 0x27, 0x10, 0x27, 0x10], 40, 10, 4, 6),
            (&[0x08, 0x01, 0x13, 0x80, 0x00, 0x80, 0x00], 40, 10, 1, 6),
            (&[0x07, 0x01, 0x15, 0x01, 0x00], 32, 12, 1, 5),
            (&[0x01, 0x01, 0x01, 0x01, 0x01], 32, 8, 0, 5),
            (&[0x01, 0x01, 0x01, 0x02, 0x09, 0x07], 40, 8, 9, 6),
        ],
    );
}

/// The vectors cut at each octet, as far as the cuts are no vectors themselves.
#[test]
fn cut_vectors(rt: HostRuntime) {
    read(
        &rt,
        &[0x07, 0x01, 0x0b, 0xa5],
        &[periodic(1, Some(0xa5), None)],
    );
    read(
        &rt,
        &[0x07, 0x01, 0x0d, 0x01],
        &[periodic(1, None, Some(1))],
    );
    read(&rt, &[0x01], &[Message::CancelAll]);
    read(&rt, &[0x01, 0x01], &[Message::CancelAll; 2]);
    read(&rt, &[0x01, 0x01, 0x01], &[Message::CancelAll; 3]);
    read(&rt, &[0x01, 0x01, 0x01, 0x01], &[Message::CancelAll; 4]);
    refused(
        &rt,
        &[
            (&[0x07, 0x01, 0x0b], 24, 9, 1, 4),
            (&[0x07, 0x01, 0x0b, 0xa5, 0x0b], 32, 2, 1, 5),
            (&[0x07, 0x01, 0x0d], 24, 9, 1, 4),
            (&[0x07, 0x01, 0x0d, 0x01, 0x0d], 32, 1, 1, 5),
            (&[0x07, 0x01, 0x0a], 16, 7, 1, 3),
            (&[0x08], 8, 9, 0, 2),
            (&[0x08, 0x01, 0x0a], 24, 9, 1, 4),
            (&[0x08, 0x01, 0x12], 24, 9, 1, 4),
            (&[0x08, 0x01, 0x13], 24, 9, 1, 4),
            (&[0x08, 0x04], 16, 3, 4, 3),
            (&[0x08, 0x04, 0x13], 24, 9, 4, 4),
            (&[0x08, 0x04, 0x13, 0x27], 24, 9, 4, 4),
            (&[0x08, 0x04, 0x13, 0x27, 0x10], 40, 9, 4, 6),
            (&[0x08, 0x04, 0x13, 0x27, 0x10, 0x27], 40, 9, 4, 6),
            (&[0x08, 0x01, 0x13, 0x80], 24, 9, 1, 4),
            (&[0x08, 0x01, 0x13, 0x80, 0x00], 40, 9, 1, 6),
            (&[0x08, 0x01, 0x13, 0x80, 0x00, 0x80], 40, 9, 1, 6),
            (&[0x07, 0x01, 0x15], 24, 9, 1, 4),
            (&[0x07, 0x01, 0x15, 0x01], 32, 9, 1, 5),
            (&[0x07, 0x01, 0x0b, 0xa5, 0x08], 40, 9, 0, 6),
            (&[0x07, 0x01, 0x0b, 0xa5, 0x08, 0x02], 48, 3, 2, 7),
        ],
    );
}

/// A second payload for each reason, and the places where two rows of the table come near each
/// other.
#[test]
fn reasons(rt: HostRuntime) {
    refused(
        &rt,
        &[
            (
                &[0x09, 0x02, 0x15, 0x01, 0x01, 0x15, 0x01, 0x01],
                40,
                reason::DUPLICATE_GROUP,
                2,
                6,
            ),
            (
                &[0x09, 0x03, 0x0b, 0x40, 0x0c, 0x01, 0x0b],
                48,
                reason::DUPLICATE_INTERVAL,
                3,
                7,
            ),
            (&[0x08, 0x07, 0x07], 16, reason::EMPTY_EVENT_REQUEST, 7, 3),
            (
                &[0x01, 0x01, 0x01, 0x08, 0x05, 0x01],
                40,
                reason::EMPTY_EVENT_REQUEST,
                5,
                6,
            ),
            (&[0x02, 0x05, 0x0b], 16, reason::UNDEFINED_TAG, 5, 3),
            (&[0x08, 0x05, 0x0b], 16, reason::UNDEFINED_TAG, 5, 3),
            (
                &[0x01, 0x01, 0x01, 0x01, 0x05],
                32,
                reason::UNDEFINED_TAG,
                0,
                5,
            ),
            (
                &[0x02, 0x01, 0x06, 0x02, 0x01, 0x02, 0x03, 0x09],
                56,
                reason::UNDEFINED_ERROR,
                3,
                8,
            ),
            (&[0x02, 0x05, 0x06], 24, reason::NOT_ENOUGH_DATA, 0, 4),
            (
                &[0x08, 0x02, 0x14, 0x13, 0x00, 0x00, 0x7f, 0xff],
                48,
                reason::RANGE_NOT_ORDERED,
                2,
                7,
            ),
            (
                &[0x08, 0x02, 0x14, 0x12, 0x00],
                32,
                reason::VERTICAL_RATE_0,
                2,
                5,
            ),
            (
                &[0x09, 0x01, 0x15, 0x00, 0x00],
                32,
                reason::PROJECTION_0,
                1,
                5,
            ),
            (&[0x08, 0x09, 0x14, 0x0a, 0x00], 32, reason::LATERAL_0, 9, 5),
        ],
    );
}

/// Four requests with every group that they may have: 76 octets, and a fifth message behind them.
#[test]
fn longest_uplink(rt: HostRuntime) {
    let request = [
        0x09, 0xff, 0x0b, 0xff, 0x0c, 1, 0x0d, 2, 0x0e, 3, 0x0f, 4, 0x10, 0, 0x11, 255, 0x15, 5, 6,
    ];
    let mut payload = [0; 76];
    let mut longer = [0x07; 77];
    for i in 0..76 {
        payload[i] = request[i % 19];
        longer[i] = request[i % 19];
    }
    let message = Message::Emergency {
        n: 255,
        interval: Some(255),
        groups: Moduli {
            m: [Some(1), Some(2), Some(3), Some(4), Some(0), Some(255)],
        },
        intent: Some(Intent {
            modulus: 5,
            minutes: 6,
        }),
    };
    read(&rt, &payload, &[message; 4]);
    match decode_uplink(&longer) {
        Ok(uplink) => assert!(rt; false, "read: {uplink:?}"),
        Err(refusal) => {
            let want = Refusal {
                bit: 608,
                reason: reason::UNDEFINED_ERROR,
                number: 255,
                octet: 77,
            };
            assert_eq!(rt; refusal, want);
        }
    }
}

#[test]
fn groups_in_any_order(rt: HostRuntime) {
    match decode_uplink(&[0x07, 0x02, 0x0d, 0x02, 0x0b, 0xa5]) {
        Ok(uplink) => {
            assert_eq!(rt;
                uplink.messages.as_slice(),
                [periodic(2, Some(0xa5), Some(2))].as_slice()
            );
            let written = [0x07, 0x02, 0x0b, 0xa5, 0x0d, 0x02];
            assert_eq!(rt; encode_uplink(&uplink).as_slice(), written.as_slice());
        }
        Err(refusal) => assert!(rt; false, "{refusal:?}"),
    }
}

#[test]
fn intervals_and_kinds(rt: HostRuntime) {
    for (octet, seconds) in [
        (0xa5, 304),
        (0xcf, 1024),
        (0x40, 1),
        (0x3f, 0),
        (0x80, 8),
        (0xff, 4096),
    ] {
        assert_eq!(rt; interval_seconds(octet), seconds, "{octet:x}");
    }
    assert_eq!(rt; kind_of(&periodic(1, None, None)), Some(Kind::Demand));
    assert_eq!(rt; kind_of(&periodic(1, Some(0x3f), None)), Some(Kind::Demand));
    assert_eq!(rt;
        kind_of(&periodic(1, Some(0x40), None)),
        Some(Kind::Periodic)
    );
    assert_eq!(rt; kind_of(&waypoint(1)), Some(Kind::Event));
    let emergency = Message::Emergency {
        n: 1,
        interval: None,
        groups: Moduli { m: [None; 6] },
        intent: None,
    };
    assert_eq!(rt; kind_of(&emergency), Some(Kind::Emergency));
    for cancel in [
        Message::CancelAll,
        Message::Cancel { n: 1 },
        Message::CancelEmergency { n: 1 },
    ] {
        assert_eq!(rt; kind_of(&cancel), None);
    }
    uplink_or_fault(&[7, 1]);
    grammar_or_fault();
    written_is_encoding();
}
