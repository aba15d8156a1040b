use super::*;
use std::test::*;

// The basic data of a report at the ends of its ranges, worked out by hand.
const OCTETS: [u8; 10] = [0xc0, 0x00, 0x04, 0x00, 0x00, 0x20, 0x00, 0x38, 0x3f, 0x9f];

#[test]
fn fields_are_written_and_read(rt: HostRuntime) {
    let mut writer = BitWriter::new();
    writer.put_signed(-524_288, 21);
    writer.put_signed(-1_048_576, 21);
    writer.put_signed(-32_768, 16);
    writer.put(28_799, 15);
    writer.put(0, 2);
    assert_eq!(rt; writer.bit(), 75);
    writer.put(0b11, 2);
    writer.put(0b111, 3);
    let written = writer.finish();
    assert_eq!(rt; written.as_slice(), OCTETS.as_slice());

    let mut reader = BitReader::new(written.as_slice());
    assert_eq!(rt; reader.take_signed(21), Ok(-524_288));
    assert_eq!(rt; reader.take_signed(21), Ok(-1_048_576));
    assert_eq!(rt; reader.take_signed(16), Ok(-32_768));
    let mut ahead = reader.fork();
    assert_eq!(rt; ahead.take(15), Ok(28_799));
    assert_eq!(rt; ahead.take(7), Ok(0b11111));
    assert!(rt; ahead.at_end());
    assert!(rt; !reader.at_end());
    assert_eq!(rt; reader.take(32), Err(Short { bit: 58 }));
    assert_eq!(rt; reader.bit(), 58);
}

#[test]
fn a_field_is_cut_short_at_its_first_bit(rt: HostRuntime) {
    let mut reader = BitReader::new(&[0x07, 0, 0, 0, 0]);
    assert_eq!(rt; reader.take(8), Ok(7));
    assert_eq!(rt; reader.take_signed(21), Ok(0));
    assert_eq!(rt; reader.take_signed(21), Err(Short { bit: 29 }));
    assert_eq!(rt; BitReader::new(&[]).take(1), Err(Short { bit: 0 }));
}

#[test]
fn an_octet_is_filled_with_zeros(rt: HostRuntime) {
    let mut writer = BitWriter::new();
    writer.pad_octet();
    assert_eq!(rt; writer.bit(), 0);
    writer.put(1, 1);
    writer.pad_octet();
    writer.put_signed(-1, 32);
    let written = writer.finish();
    assert_eq!(rt;
        written.as_slice(),
        [0x80, 0xff, 0xff, 0xff, 0xff].as_slice()
    );
}
