use super::*;
use adsc_bits::{BitReader, BitWriter, Short};
use std::test::*;

fn all_groups() -> [Group; 8] {
    let motion = Motion {
        invalid: 0,
        angle: 1024,
        speed: 960,
        vrate: -4,
    };
    [
        Group::FlightId(FlightId {
            codes: [1, 14, 26, 49, 32, 32, 32, 32],
        }),
        Group::Route(Route {
            lat: -524_288,
            lon: 1_048_575,
            alt: -32_768,
            eta: 16_383,
            next_lat: 1,
            next_lon: -1,
            next_alt: 32_767,
        }),
        Group::Earth(motion),
        Group::Air(motion),
        Group::Weather(Weather {
            wind: 100,
            invalid: 0,
            from: 128,
            temp: -220,
        }),
        Group::Airframe(Airframe {
            address: 0xc8_12_34,
        }),
        Group::Intermediate(Intermediate {
            distance: 65_535,
            invalid: 1,
            angle: 4_095,
            alt: -1,
            eta: 1,
        }),
        Group::Fixed(Fixed {
            lat: 0,
            lon: -1_048_576,
            alt: 1,
            eta: 2,
        }),
    ]
}

// Each group's octets without the tag, worked out by hand from the tables of fields.
const OCTETS: [&[u8]; 8] = [
    &[0x04, 0xe6, 0xb1, 0x82, 0x08, 0x20],
    &[
        0xc0, 0x00, 0x03, 0xff, 0xff, 0xe0, 0x00, 0x3f, 0xff, 0x00, 0x00, 0x0f, 0xff, 0xff, 0xdf,
        0xff, 0xc0,
    ],
    &[0x20, 0x00, 0xf0, 0x3f, 0xf0],
    &[0x20, 0x00, 0xf0, 0x3f, 0xf0],
    &[0x32, 0x10, 0x1e, 0x48],
    &[0xc8, 0x12, 0x34],
    &[0xff, 0xff, 0xff, 0xff, 0xff, 0xf8, 0x00, 0x20],
    &[0x00, 0x00, 0x04, 0x00, 0x00, 0x00, 0x00, 0x40, 0x02],
];

#[test]
fn each_group_is_written_and_read(rt: HostRuntime) {
    let tags = [12, 13, 14, 15, 16, 17, 22, 23];
    let groups = all_groups();
    for i in 0..8 {
        let group = &groups[i];
        let octets = OCTETS[i];
        let size = group_octets(group);
        let mut writer = BitWriter::new();
        encode_group(group, &mut writer);
        let written = writer.finish();
        assert_eq!(rt; group_tag(group), tags[i]);
        assert_eq!(rt; written.as_slice(), octets, "group {i}");
        assert_eq!(rt; written.as_slice().len(), size as usize, "group {i}");

        let mut reader = BitReader::new(written.as_slice());
        assert_eq!(rt; decode_group(tags[i], &mut reader), Ok(*group), "group {i}");
        assert!(rt; reader.at_end(), "group {i}");
    }
}

// The place of the first field that is cut, where so many octets of a predicted route are left.
const ROUTE_CUTS: [u32; 17] = [
    0, 0, 0, 21, 21, 21, 42, 42, 58, 72, 72, 72, 93, 93, 93, 114, 114,
];

#[test]
fn a_cut_group_is_refused_at_its_first_cut_field(rt: HostRuntime) {
    let octets = OCTETS[1];
    for count in 0..17 {
        assert!(rt; count <= octets.len());
        let mut reader = BitReader::new(&octets[..count]);
        let refusal = GroupRefusal {
            bit: ROUTE_CUTS[count],
            why: GroupWhy::Short,
        };
        assert_eq!(rt;
            decode_group(13, &mut reader),
            Err(refusal),
            "{count} octets"
        );
        assert_eq!(rt; reader.bit(), 0);
    }
    let mut reader = BitReader::new(octets);
    let refusal = GroupRefusal {
        bit: 0,
        why: GroupWhy::Tag,
    };
    for tag in [0, 11, 18, 21, 24, 255] {
        assert_eq!(rt; decode_group(tag, &mut reader), Err(refusal), "tag {tag}");
    }
}

// Padding is ignored when it is read, and must be there.
#[test]
fn padding_is_ignored(rt: HostRuntime) {
    let mut reader = BitReader::new(&[0x20, 0x00, 0xf0, 0x3f, 0xf3]);
    assert_eq!(rt; decode_group(14, &mut reader), Ok(all_groups()[2]));
}

#[test]
fn basic_data_is_written_and_read(rt: HostRuntime) {
    let basic = Basic {
        lat: -524_288,
        lon: -1_048_576,
        alt: -32_768,
        sec: 28_799,
        tcas: 1,
        accuracy: 7,
        redundancy: 1,
    };
    let octets = [0xc0, 0x00, 0x04, 0x00, 0x00, 0x20, 0x00, 0x38, 0x3f, 0x9f];
    let mut writer = BitWriter::new();
    encode_basic(&basic, &mut writer);
    let written = writer.finish();
    assert_eq!(rt; written.as_slice(), octets.as_slice());
    assert_eq!(rt;
        decode_basic(&mut BitReader::new(written.as_slice())),
        Ok(basic)
    );

    let mut short = BitReader::new(&[0x07, 0, 0, 0, 0]);
    assert_eq!(rt; short.take(8), Ok(7));
    assert_eq!(rt; decode_basic(&mut short), Err(Short { bit: 29 }));
    assert_eq!(rt; short.bit(), 8);
}
