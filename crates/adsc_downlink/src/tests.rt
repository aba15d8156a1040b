use super::*;
use adsc_groups::{Airframe, Basic, Fixed, FlightId, Group, Intermediate, Motion, Route, Weather};
use std::test::*;

fn basic() -> Basic {
    Basic {
        lat: -524_288,
        lon: -1_048_576,
        alt: -32_768,
        sec: 28_799,
        tcas: 1,
        accuracy: 7,
        redundancy: 1,
    }
}

// A report with each group.
fn full_report() -> Report {
    let motion = Motion {
        invalid: 0,
        angle: 1024,
        speed: 960,
        vrate: -4,
    };
    let mut report = Report::new(20, basic());
    report.push(Group::FlightId(FlightId {
        codes: [1, 14, 26, 49, 32, 32, 32, 32],
    }));
    report.push(Group::Route(Route {
        lat: -524_288,
        lon: 1_048_575,
        alt: -32_768,
        eta: 16_383,
        next_lat: 1,
        next_lon: -1,
        next_alt: 32_767,
    }));
    report.push(Group::Earth(motion));
    report.push(Group::Air(motion));
    report.push(Group::Weather(Weather {
        wind: 100,
        invalid: 0,
        from: 128,
        temp: -220,
    }));
    report.push(Group::Airframe(Airframe {
        address: 0xc8_12_34,
    }));
    report.push(Group::Intermediate(Intermediate {
        distance: 65_535,
        invalid: 1,
        angle: 4_095,
        alt: -1,
        eta: 1,
    }));
    report.push(Group::Fixed(Fixed {
        lat: 0,
        lon: -1_048_576,
        alt: 1,
        eta: 2,
    }));
    report
}

// Each kind of item.
fn each_item() -> Items {
    let mut items = Items::one(Item::Ack { n: 1 });
    items.push(Item::Nack(Nack {
        n: 2,
        reason: 6,
        octet: 0,
    }));
    items.push(Item::Nack(Nack {
        n: 3,
        reason: 1,
        octet: 5,
    }));
    items.push(Item::Noncompliance { n: 4 });
    items.push(Item::EmergencyOff { n: 0 });
    items.push(Item::Report(full_report()));
    items.push(Item::Report(Report::new(9, basic())));
    items.push(Item::Ack { n: 255 });
    items
}

// Their octets, worked out by hand from the tables of items and fields.
const EACH: [u8; 105] = [
    0x03, 0x01, 0x04, 0x02, 0x06, 0x04, 0x03, 0x01, 0x05, 0x05, 0x04, 0x01, 0x15, 0x40, 0x06, 0x00,
    0x14, 0xc0, 0x00, 0x04, 0x00, 0x00, 0x20, 0x00, 0x38, 0x3f, 0x9f, 0x0c, 0x04, 0xe6, 0xb1, 0x82,
    0x08, 0x20, 0x0d, 0xc0, 0x00, 0x03, 0xff, 0xff, 0xe0, 0x00, 0x3f, 0xff, 0x00, 0x00, 0x0f, 0xff,
    0xff, 0xdf, 0xff, 0xc0, 0x0e, 0x20, 0x00, 0xf0, 0x3f, 0xf0, 0x0f, 0x20, 0x00, 0xf0, 0x3f, 0xf0,
    0x10, 0x32, 0x10, 0x1e, 0x48, 0x11, 0xc8, 0x12, 0x34, 0x16, 0xff, 0xff, 0xff, 0xff, 0xff, 0xf8,
    0x00, 0x20, 0x17, 0x00, 0x00, 0x04, 0x00, 0x00, 0x00, 0x00, 0x40, 0x02, 0x09, 0xc0, 0x00, 0x04,
    0x00, 0x00, 0x20, 0x00, 0x38, 0x3f, 0x9f, 0x03, 0xff,
];

// The place of the first field that is cut where so many of these octets are left; nothing where
// whole items are left.
const CUTS: [Option<u32>; 105] = [
    Some(0),
    Some(8),
    None,
    Some(24),
    Some(32),
    None,
    Some(48),
    Some(56),
    Some(64),
    None,
    Some(80),
    Some(88),
    Some(96),
    Some(104),
    None,
    Some(120),
    None,
    Some(136),
    Some(136),
    Some(136),
    Some(157),
    Some(157),
    Some(157),
    Some(178),
    Some(178),
    Some(194),
    Some(194),
    None,
    Some(224),
    Some(230),
    Some(236),
    Some(248),
    Some(254),
    Some(260),
    None,
    Some(280),
    Some(280),
    Some(280),
    Some(301),
    Some(301),
    Some(301),
    Some(322),
    Some(322),
    Some(338),
    Some(352),
    Some(352),
    Some(352),
    Some(373),
    Some(373),
    Some(373),
    Some(394),
    Some(394),
    None,
    Some(424),
    Some(425),
    Some(437),
    Some(437),
    Some(450),
    None,
    Some(472),
    Some(473),
    Some(485),
    Some(485),
    Some(498),
    None,
    Some(520),
    Some(520),
    Some(530),
    Some(539),
    None,
    Some(560),
    Some(560),
    Some(560),
    None,
    Some(592),
    Some(592),
    Some(608),
    Some(609),
    Some(621),
    Some(621),
    Some(637),
    Some(637),
    None,
    Some(664),
    Some(664),
    Some(664),
    Some(685),
    Some(685),
    Some(685),
    Some(706),
    Some(706),
    Some(722),
    None,
    Some(744),
    Some(744),
    Some(744),
    Some(765),
    Some(765),
    Some(765),
    Some(786),
    Some(786),
    Some(802),
    Some(802),
    None,
    Some(832),
];

#[test]
fn each_item_is_written_and_read(rt: HostRuntime) {
    let items = each_item();
    let size = downlink_size(&items);
    assert_eq!(rt; size, 105);
    let payload = encode_downlink(&items);
    assert_eq!(rt; payload.as_slice(), EACH.as_slice());
    assert_eq!(rt; decode_downlink(EACH.as_slice()), Ok(items));
}

#[test]
fn a_payload_that_is_cut_is_short(rt: HostRuntime) {
    let octets = EACH.as_slice();
    for (count, cut) in CUTS.iter().enumerate() {
        assert!(rt; count <= octets.len());
        let found = decode_downlink(&octets[..count]).err();
        let due = cut.map(|bit| DownRefusal {
            bit,
            why: DownWhy::Short,
        });
        assert_eq!(rt; found, due, "{count} octets");
    }
}

// Payloads, and what is wrong with each first.
const FAULTS: [(&[u8], u32, DownWhy); 26] = [
    (&[], 0, DownWhy::Short),
    (&[0x07, 0x00, 0x00, 0x00, 0x00], 29, DownWhy::Short),
    (&[0x08], 0, DownWhy::Tag),
    (&[0x00], 0, DownWhy::Tag),
    (&[0x0c, 0x01], 0, DownWhy::Tag),
    (&[0x03, 0x01, 0x0c], 16, DownWhy::Tag),
    (&[0x04], 8, DownWhy::Short),
    (&[0x04, 0x01], 16, DownWhy::Short),
    (&[0x04, 0x01, 0x00], 16, DownWhy::Value),
    (&[0x04, 0x01, 0x0e], 16, DownWhy::Value),
    (&[0x04, 0x01, 0xff], 16, DownWhy::Value),
    (&[0x04, 0x01, 0x07], 24, DownWhy::Short),
    (&[0x04, 0x01, 0x00, 0x03], 16, DownWhy::Value),
    (&[0x05, 0x01, 0x00], 16, DownWhy::Value),
    (&[0x05, 0x01, 0x01], 24, DownWhy::Short),
    (&[0x05, 0x01, 0x01, 0x16, 0x40], 24, DownWhy::Value),
    (&[0x05, 0x01, 0x01, 0x15, 0x41], 32, DownWhy::Value),
    (
        &[
            0x03, 0x01, 0x03, 0x01, 0x03, 0x01, 0x03, 0x01, 0x03, 0x01, 0x03, 0x01, 0x03, 0x01,
            0x03, 0x01, 0x03,
        ],
        128,
        DownWhy::Many,
    ),
    (
        &[
            0x03, 0x01, 0x03, 0x01, 0x03, 0x01, 0x03, 0x01, 0x03, 0x01, 0x03, 0x01, 0x03, 0x01,
            0x03, 0x01, 0x07,
        ],
        128,
        DownWhy::Many,
    ),
    (
        &[
            0x03, 0x01, 0x03, 0x01, 0x03, 0x01, 0x03, 0x01, 0x03, 0x01, 0x03, 0x01, 0x03, 0x01,
            0x03, 0x01, 0x08,
        ],
        128,
        DownWhy::Tag,
    ),
    (
        &[
            0x03, 0x01, 0x03, 0x01, 0x03, 0x01, 0x03, 0x01, 0x03, 0x01, 0x03, 0x01, 0x03, 0x01,
            0x03, 0x01, 0x0c,
        ],
        128,
        DownWhy::Tag,
    ),
    (
        &[
            0x07, 0x00, 0x00, 0x00, 0x00, 0x00, 0x00, 0x00, 0x00, 0x00, 0x00, 0x18,
        ],
        88,
        DownWhy::Tag,
    ),
    (
        &[
            0x07, 0x00, 0x00, 0x00, 0x00, 0x00, 0x00, 0x00, 0x00, 0x00, 0x00, 0x11, 0xc8,
        ],
        96,
        DownWhy::Short,
    ),
    (
        &[
            0x07, 0x00, 0x00, 0x00, 0x00, 0x00, 0x00, 0x00, 0x00, 0x00, 0x00, 0x11, 0x00, 0x00,
            0x00, 0x11, 0x00, 0x00, 0x00, 0x11, 0x00, 0x00, 0x00, 0x11, 0x00, 0x00, 0x00, 0x11,
            0x00, 0x00, 0x00, 0x11, 0x00, 0x00, 0x00, 0x11, 0x00, 0x00, 0x00, 0x11, 0x00, 0x00,
            0x00, 0x11,
        ],
        344,
        DownWhy::Many,
    ),
    (
        &[
            0x07, 0x00, 0x00, 0x00, 0x00, 0x00, 0x00, 0x00, 0x00, 0x00, 0x00, 0x11, 0x00, 0x00,
            0x00, 0x11, 0x00, 0x00, 0x00, 0x11, 0x00, 0x00, 0x00, 0x11, 0x00, 0x00, 0x00, 0x11,
            0x00, 0x00, 0x00, 0x11, 0x00, 0x00, 0x00, 0x11, 0x00, 0x00, 0x00, 0x11, 0x00, 0x00,
            0x00, 0x0b,
        ],
        344,
        DownWhy::Tag,
    ),
    (
        &[
            0x03, 0x01, 0x03, 0x01, 0x03, 0x01, 0x03, 0x01, 0x03, 0x01, 0x03, 0x01, 0x03, 0x01,
            0x07, 0x00, 0x00, 0x00, 0x00, 0x00, 0x00, 0x00, 0x00, 0x00, 0x00, 0x11, 0x00, 0x00,
            0x00, 0x09,
        ],
        232,
        DownWhy::Many,
    ),
];

#[test]
fn the_first_fault_is_told(rt: HostRuntime) {
    for (payload, bit, why) in FAULTS.iter() {
        assert!(rt; payload.len() <= 255);
        let due = DownRefusal {
            bit: *bit,
            why: *why,
        };
        assert_eq!(rt; decode_downlink(payload), Err(due), "{payload:?}");
    }
}
