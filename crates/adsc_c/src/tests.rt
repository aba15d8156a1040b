use super::*;
use std::process::Abort;
use std::test::*;

const NONE: FlatOctet = FlatOctet {
    present: 0,
    value: 0,
};

const NO_MESSAGE: FlatMessage = FlatMessage {
    tag: 0,
    number: 0,
    reporting: FlatReporting {
        interval: NONE,
        moduli: FlatModuli {
            flight_id: NONE,
            route: NONE,
            earth: NONE,
            air: NONE,
            weather: NONE,
            airframe: NONE,
        },
        intent: FlatIntent {
            present: 0,
            modulus: 0,
            minutes: 0,
        },
    },
    limits: FlatLimits {
        lateral: NONE,
        vertical_rate: FlatRate {
            present: 0,
            value: 0,
        },
        waypoint: 0,
        range: FlatRange {
            present: 0,
            ceiling: 0,
            floor: 0,
        },
    },
};

const NO_REFUSAL: FlatUplinkRefusal = FlatUplinkRefusal {
    bit: 0,
    reason: 0,
    number: 0,
    octet: 0,
};

const EMPTY: FlatPayload = FlatPayload {
    count: 0,
    octets: [0; 255],
};

/// A payload is read with so many messages, the last of this tag and kind, and is written back as it stands.
fn is_read(rt: &impl Abort, octets: &[u8], count: u8, tag: u8, kind: u8) {
    let mut uplink = FlatUplink {
        count: 0,
        messages: [NO_MESSAGE; 4],
    };
    let (mut refusal, mut payload, mut found) = (NO_REFUSAL, EMPTY, 99);
    assert_eq!(rt; adsc_decode_uplink(octets, &mut uplink, &mut refusal), 0);
    assert_eq!(rt; uplink.count, count);
    let Some(last) = uplink.messages.get((count - 1) as usize) else {
        return
    };
    assert_eq!(rt; last.tag, tag);
    assert_eq!(rt; adsc_kind_of(last, &mut found), 0);
    assert_eq!(rt; found, kind);
    assert_eq!(rt; adsc_encode_uplink(&uplink, &mut payload), 0);
    assert_eq!(rt; &payload.octets[..payload.count as usize], octets);
    let mut same = 9;
    assert_eq!(rt; adsc_same_message(last, &NO_MESSAGE, &mut same), 2);
    assert_eq!(rt; adsc_same_message(last, last, &mut same), 0);
    assert_eq!(rt; same, 1);
}

#[test]
fn payloads(rt: HostRuntime) {
    is_read(&rt, &[7, 1], 1, 7, 1);
    is_read(&rt, &[7, 2, 0x0b, 0xa5, 0x0d, 2], 1, 7, 2);
    is_read(&rt, &[8, 3, 0x13, 0x27, 0x10, 0x23, 0x28], 1, 8, 3);
    is_read(&rt, &[1, 2, 9, 6, 10, 9, 1, 0x0b, 0xa5], 4, 9, 4);
    let (mut uplink, mut refusal) = (
        FlatUplink {
            count: 0,
            messages: [NO_MESSAGE; 4],
        },
        NO_REFUSAL,
    );
    assert_eq!(&rt;
        adsc_decode_uplink(&[8, 1, 0x0a, 0], &mut uplink, &mut refusal),
        1
    );
    assert_eq!(&rt;
        (refusal.bit, refusal.reason, refusal.number, refusal.octet),
        (24, 13, 1, 4)
    );
    assert_eq!(&rt; adsc_encode_uplink(&uplink, &mut { EMPTY }), 2);
    assert_eq!(&rt; adsc_interval_seconds(0xa5), 304);
    assert_eq!(&rt; adsc_check_code(b"123456789"), 0xd64e);
}

#[test]
fn texts(rt: HostRuntime) {
    let mut envelope = FlatEnvelope {
        address: [0; 7],
        application: 0,
        registration: [0; 7],
        count: 0,
        body: [0; 255],
    };
    let mut refusal = FlatEnvelopeRefusal {
        place: 0,
        why: 0,
        found: 0,
        due: 0,
    };
    let right = b"/AKLCDYA.ADS.N123450701BD4F";
    assert_eq!(&rt; adsc_unseal(right, &mut envelope, &mut refusal), 0);
    assert_eq!(&rt; &envelope.address, b"AKLCDYA");
    assert_eq!(&rt; &envelope.registration, b".N12345");
    assert_eq!(&rt;
        (envelope.application, envelope.count, envelope.body[1]),
        (1, 2, 1)
    );
    let wrong = b"/AKLCDYA.ADS.N123450701BD4E";
    assert_eq!(&rt; adsc_unseal(wrong, &mut envelope, &mut refusal), 1);
    assert_eq!(&rt;
        (refusal.place, refusal.why, refusal.found, refusal.due),
        (23, 10, 0xbd4e, 0xbd4f)
    );
}
