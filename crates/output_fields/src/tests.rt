//! Fields as the formats have them, where memory is ample.
use super::*;
use acars_envelope::{EnvelopeRefusal, EnvelopeWhy, unseal};
use adsc_requests::decode_uplink;
use std::test::Fail;

#[test]
fn fields(rt: HostRuntime) -> Result<(), Fail> {
    let mut out = Vec::new(rt.alloc());
    append_number(&mut out, 0)?;
    append_number(&mut out, u32::MAX)?;
    append_octets(&mut out, &[0xC8, 0x12, 0x34])?;
    let place = EnvelopeRefusal {
        place: 19,
        why: EnvelopeWhy::Hex,
    };
    let wrong_check = unseal(b"/AKLCDYA.ADS.N123450701BD4E").expect_err(&rt, "a wrong check");
    let repeated = decode_uplink(&[7, 1, 11, 165, 11, 165]).expect_err(&rt, "a repeated group");
    for fault in [place, wrong_check] {
        append_envelope_fault(&mut out, &fault)?;
    }
    append_request_fault(&mut out, &repeated)?;
    assert_eq!(rt;
        out.as_slice(),
        b",0,4294967295C81234HEX,19CHECK,BD4E,BD4FREASON-2,32".as_slice()
    );
    Ok(())
}

#[test]
fn fields_of_a_line(rt: HostRuntime) -> Result<(), Fail> {
    let mut line = Line::new();
    push_number(&mut line, u32::MAX);
    push_octets(&mut line, &[0xC8, 0x12, 0x34]);
    let wrong_check = unseal(b"/AKLCDYA.ADS.N123450701BD4E").expect_err(&rt, "a wrong check");
    let repeated = decode_uplink(&[7, 1, 11, 165, 11, 165]).expect_err(&rt, "a repeated group");
    push_envelope_fault(&mut line, &wrong_check);
    push_request_fault(&mut line, &repeated);
    assert_eq!(rt;
        line.as_slice(),
        b",4294967295C81234CHECK,BD4E,BD4FREASON-2,32".as_slice()
    );
    Ok(())
}
