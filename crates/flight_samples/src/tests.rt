//! Tables of texts and what is read of them.

use super::*;
use crate::decimal::{NumberFault, read_integer, read_natural};
use std::alloc::AllocGlobal;
use std::process::Abort;
use std::test::Fail;

const NO_NUMBER: NumberFault = NumberFault::NotNumber;

const OUTSIDE: NumberFault = NumberFault::Range;

#[test]
fn integers(rt: HostRuntime) -> Result<(), Fail> {
    let cases: [(&[u8], Result<i32, NumberFault>); 26] = [
        (b"0", Ok(0)),
        (b"7", Ok(7)),
        (b"-1", Ok(-1)),
        (b"2047", Ok(2047)),
        (b"-2048", Ok(-2048)),
        (b"2048", Err(OUTSIDE)),
        (b"-2049", Err(OUTSIDE)),
        (b"4294967296", Err(OUTSIDE)),
        (b"18446744073709551616", Err(OUTSIDE)),
        (b"-99999999999999999999999", Err(OUTSIDE)),
        (b"", Err(NO_NUMBER)),
        (b"-", Err(NO_NUMBER)),
        (b"-0", Err(NO_NUMBER)),
        (b"00", Err(NO_NUMBER)),
        (b"01", Err(NO_NUMBER)),
        (b"-01", Err(NO_NUMBER)),
        (b"--1", Err(NO_NUMBER)),
        (b"+1", Err(NO_NUMBER)),
        (b" 1", Err(NO_NUMBER)),
        (b"1 ", Err(NO_NUMBER)),
        (b"1-", Err(NO_NUMBER)),
        (b"1.0", Err(NO_NUMBER)),
        (b"0x1", Err(NO_NUMBER)),
        (b"1e3", Err(NO_NUMBER)),
        (b"/", Err(NO_NUMBER)),
        (b":", Err(NO_NUMBER)),
    ];
    for (text, wanted) in cases {
        assert_eq!(rt; read_integer(text, -2048, 2047), wanted);
    }
    Ok(())
}

#[test]
fn naturals(rt: HostRuntime) -> Result<(), Fail> {
    let cases: [(&[u8], Result<u32, NumberFault>); 9] = [
        (b"1", Ok(1)),
        (b"999999999", Ok(999_999_999)),
        (b"0", Err(OUTSIDE)),
        (b"1000000000", Err(OUTSIDE)),
        (b"4294967297", Err(OUTSIDE)),
        (b"-1", Err(NO_NUMBER)),
        (b"", Err(NO_NUMBER)),
        (b"001", Err(NO_NUMBER)),
        (b"12a", Err(NO_NUMBER)),
    ];
    for (text, wanted) in cases {
        assert_eq!(rt; read_natural(text, 1, 999_999_999), wanted);
    }
    // A `-` stands only where the range has numbers below 0.
    assert_eq!(rt; read_integer(b"-1", 0, 1), Err(NO_NUMBER));
    assert_eq!(rt; read_integer(b"2", 0, 1), Err(OUTSIDE));
    Ok(())
}

const ZEROS: &[u8] = b"0,0,0,0,0,0,0,0,0,0,0,0,0,0,0,0,0,0,0,0,0,0,0,0,0,0";

/// What the kept reader and a new one read of the text, which is one answer.
fn read(
    rt: &(impl Abort + AllocGlobal),
    samples: &mut SampleReader,
    text: &[u8],
) -> Result<Sample, SampleRefusal> {
    assert!(rt; text.len() <= LONGEST_COLUMNS);
    assert!(rt; is_plain(text));
    let kept = samples.read(text);
    assert_eq!(rt; kept, read_sample(rt.alloc(), text));
    kept
}

#[test]
fn right_samples(rt: HostRuntime) -> Result<(), Fail> {
    let mut samples = SampleReader::new(rt.alloc());
    assert_eq!(rt; read(&rt, &mut samples, ZEROS), Ok(Sample::zero()));
    let lowest =
        b"-524288,-1048576,-32768,0,0,0,0,-524288,-1048576,-32768,0,-524288,-1048576,-32768,0,0,0,-2048,0,0,0,0,0,0,-2048,-32767";
    assert_eq!(rt;
        read(&rt, &mut samples, lowest),
        Ok(Sample {
            lat: -524_288,
            lon: -1_048_576,
            alt: -32_768,
            sec: 0,
            tcas: 0,
            acc: 0,
            red: 0,
            wlat: -524_288,
            wlon: -1_048_576,
            walt: -32_768,
            eta: 0,
            nlat: -524_288,
            nlon: -1_048_576,
            nalt: -32_768,
            tinv: 0,
            track: 0,
            gs: 0,
            vr: -2048,
            hinv: 0,
            heading: 0,
            mach: 0,
            wind: 0,
            winv: 0,
            wdir: 0,
            temp: -2048,
            xtk: -32_767,
        })
    );
    let highest =
        b"524288,1048575,32767,28799,1,7,1,524288,1048575,32767,16383,524288,1048575,32767,1,4095,8191,2047,1,4095,8191,511,1,511,2047,32767";
    assert_eq!(rt;
        read(&rt, &mut samples, highest),
        Ok(Sample {
            lat: 524_288,
            lon: 1_048_575,
            alt: 32_767,
            sec: 28_799,
            tcas: 1,
            acc: 7,
            red: 1,
            wlat: 524_288,
            wlon: 1_048_575,
            walt: 32_767,
            eta: 16_383,
            nlat: 524_288,
            nlon: 1_048_575,
            nalt: 32_767,
            tinv: 1,
            track: 4095,
            gs: 8191,
            vr: 2047,
            hinv: 1,
            heading: 4095,
            mach: 8191,
            wind: 511,
            winv: 1,
            wdir: 511,
            temp: 2047,
            xtk: 32_767,
        })
    );
    let distinct = b"1,-2,3,4,0,5,1,-6,7,-8,9,10,11,12,1,13,14,-15,0,16,17,18,1,19,-20,21";
    assert_eq!(rt;
        read(&rt, &mut samples, distinct),
        Ok(Sample {
            lat: 1,
            lon: -2,
            alt: 3,
            sec: 4,
            tcas: 0,
            acc: 5,
            red: 1,
            wlat: -6,
            wlon: 7,
            walt: -8,
            eta: 9,
            nlat: 10,
            nlon: 11,
            nalt: 12,
            tinv: 1,
            track: 13,
            gs: 14,
            vr: -15,
            hinv: 0,
            heading: 16,
            mach: 17,
            wind: 18,
            winv: 1,
            wdir: 19,
            temp: -20,
            xtk: 21,
        })
    );
    Ok(())
}

#[test]
fn wrong_samples_among_right_ones(rt: HostRuntime) -> Result<(), Fail> {
    let cases: [(&[u8], Result<Sample, SampleRefusal>); 22] = [
        (b"", Err(SampleRefusal::Count { found: 1 })),
        (b",", Err(SampleRefusal::Count { found: 2 })),
        (
            b"0,0,0,0,0,0,0,0,0,0,0,0,0,0,0,0,0,0,0,0,0,0,0,0,0",
            Err(SampleRefusal::Count { found: 25 }),
        ),
        (
            b"0,0,0,0,0,0,0,0,0,0,0,0,0,0,0,0,0,0,0,0,0,0,0,0,0,0,0",
            Err(SampleRefusal::Count { found: 27 }),
        ),
        (
            b"0,0,0,0,0,0,0,0,0,0,0,0,0,0,0,0,0,0,0,0,0,0,0,0,0,0,",
            Err(SampleRefusal::Count { found: 27 }),
        ),
        (
            b"x,x,x,x,x,x,x,x,x,x,x,x,x,x,x,x,x,x,x,x,x,x,x,x,x",
            Err(SampleRefusal::Count { found: 25 }),
        ),
        (
            b"0,0,0,0,0,0,0,0,0,0,0,0,0,0,0,0,0,0,0,0,0,0,0,0,0,",
            Err(SampleRefusal::Column {
                index: 26,
                why: ColumnWhy::NotNumber,
            }),
        ),
        (
            b",,,,,,,,,,,,,,,,,,,,,,,,,",
            Err(SampleRefusal::Column {
                index: 1,
                why: ColumnWhy::NotNumber,
            }),
        ),
        (
            b"0,0,0,0,0,0,0,0,0,0,0,0,0,0,0,0,0,0,0,0,0,0,0,0,0,x",
            Err(SampleRefusal::Column {
                index: 26,
                why: ColumnWhy::NotNumber,
            }),
        ),
        (
            b"0,0,0,0,2,0,0,0,0,0,0,0,0,0,0,0,0,0,0,0,0,0,0,0,0,0",
            Err(SampleRefusal::Column {
                index: 5,
                why: ColumnWhy::Range,
            }),
        ),
        (
            b"0,0,0,0,-1,0,0,0,0,0,0,0,0,0,0,0,0,0,0,0,0,0,0,0,0,0",
            Err(SampleRefusal::Column {
                index: 5,
                why: ColumnWhy::NotNumber,
            }),
        ),
        (
            b"524289,0,0,0,0,0,0,0,0,0,0,0,0,0,0,0,0,0,0,0,0,0,0,0,0,0",
            Err(SampleRefusal::Column {
                index: 1,
                why: ColumnWhy::Range,
            }),
        ),
        (
            b"-524289,0,0,0,0,0,0,0,0,0,0,0,0,0,0,0,0,0,0,0,0,0,0,0,0,0",
            Err(SampleRefusal::Column {
                index: 1,
                why: ColumnWhy::Range,
            }),
        ),
        (
            b"0,1048576,0,0,0,0,0,0,0,0,0,0,0,0,0,0,0,0,0,0,0,0,0,0,0,0",
            Err(SampleRefusal::Column {
                index: 2,
                why: ColumnWhy::Range,
            }),
        ),
        (
            b"0,0,0,0,0,0,0,0,0,0,0,0,0,0,0,0,0,-2049,0,0,0,0,0,0,0,0",
            Err(SampleRefusal::Column {
                index: 18,
                why: ColumnWhy::Range,
            }),
        ),
        (
            b"0,0,0,0,0,0,0,0,0,0,0,0,0,0,0,0,0,0,0,0,0,0,0,0,0,-32768",
            Err(SampleRefusal::Column {
                index: 26,
                why: ColumnWhy::Range,
            }),
        ),
        (
            b"0,0,0,28800,0,0,0,0,0,0,0,0,0,0,0,0,0,0,0,0,0,0,0,0,0,0",
            Err(SampleRefusal::Column {
                index: 4,
                why: ColumnWhy::Range,
            }),
        ),
        (
            b"0,0,-0,0,0,0,0,0,0,0,0,0,0,0,0,0,0,0,0,0,0,0,0,0,0,0",
            Err(SampleRefusal::Column {
                index: 3,
                why: ColumnWhy::NotNumber,
            }),
        ),
        (
            b"0,0,01,0,0,0,0,0,0,0,0,0,0,0,0,0,0,0,0,0,0,0,0,0,0,0",
            Err(SampleRefusal::Column {
                index: 3,
                why: ColumnWhy::NotNumber,
            }),
        ),
        (
            b"0,0, 1,0,0,0,0,0,0,0,0,0,0,0,0,0,0,0,0,0,0,0,0,0,0,0",
            Err(SampleRefusal::Column {
                index: 3,
                why: ColumnWhy::NotNumber,
            }),
        ),
        (
            b"0,0,0,0,0,0,2,0,x,0,0,0,0,0,0,0,0,0,0,0,0,0,0,0,0,0",
            Err(SampleRefusal::Column {
                index: 7,
                why: ColumnWhy::Range,
            }),
        ),
        (
            b"0,0,0,0,0,0,0,0,0,0,,9999999,0,0,0,0,0,0,0,0,0,0,0,0,0,0",
            Err(SampleRefusal::Column {
                index: 11,
                why: ColumnWhy::NotNumber,
            }),
        ),
    ];
    let mut samples = SampleReader::new(rt.alloc());
    for (text, wanted) in cases {
        assert_eq!(rt; read(&rt, &mut samples, text), wanted);
        assert_eq!(rt; read(&rt, &mut samples, ZEROS), Ok(Sample::zero()));
    }
    let commas = [b','; LONGEST_COLUMNS];
    assert_eq!(rt;
        read(&rt, &mut samples, &commas),
        Err(SampleRefusal::Count { found: 4097 })
    );
    assert_eq!(rt; read(&rt, &mut samples, ZEROS), Ok(Sample::zero()));
    assert!(rt; !is_plain(b"0,\"0\""));
    assert!(rt; !is_plain(b"0\r"));
    assert!(rt; !is_plain(b"0\n"));
    assert!(rt; !is_plain(b"\x7f"));
    assert!(rt; is_plain(b"~\0"));
    Ok(())
}
