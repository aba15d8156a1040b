//! Checks computed by another program, right texts, one refused text for each cause and for each rule that
// decides between two causes, and the lengths at which they change.
use super::*;
use std::process::Abort;
use std::test::Fail;

#[test]
fn codes_of_octets(rt: HostRuntime) {
    let rows = [
        (b"".as_slice(), 0),
        (b"123456789".as_slice(), 0xd64e),
        (b"ADS.N12345\x07\x01".as_slice(), 0xbd4f),
        (b"ADS.N12345\x03\x01".as_slice(), 0x718b),
        (
            b"ADS.N12345\x03\x01\x07\0\0\0\0\0\0\0\0\0\0".as_slice(),
            0x7e26,
        ),
        (
            b"AFN/FMHANZ1,.N12345,C81234,000000/FPON00000E000000,0/FCOADS,01".as_slice(),
            0x3093,
        ),
        (b"AFN/FMHANZ1,.N12345/FAK0/FARADS,0".as_slice(), 0x5087),
    ];
    for (octets, code) in rows {
        assert_eq!(rt; check_code(octets), code, "the code {code:04X}");
    }
}

#[test]
fn names(rt: HostRuntime) -> Result<(), Fail> {
    let address = Address::new(b"GRND001").ok_or("an address")?;
    assert_eq!(rt; address.seven(), *b"GRND001");
    let registration = Registration::new(b"N-1").ok_or("a registration")?;
    assert_eq!(rt; registration.seven(), *b"....N-1");
    let flight = Flight::new(b"ANZ1").ok_or("a flight")?;
    assert_eq!(rt; flight.text(), b"ANZ1".as_slice());
    let octets = octets_of_digits(b"C81234").ok_or("octets")?;
    assert_eq!(rt; octets.as_slice(), b"\xc8\x12\x34".as_slice());
    assert!(rt; octets_of_digits(b"c81234").is_none());
    Ok(())
}

#[test]
fn right_texts(rt: HostRuntime) -> Result<(), Fail> {
    let rows = [
        b"/GRND001.ADS.N123450701BD4F".as_slice(),
        b"/GRND001.ADS......A00B4BE".as_slice(),
        b"/GRND001.AFN/FMHANZ1,.N12345/FAK0/FARADS,05087".as_slice(),
        b"/GRND001.AFN C6BB".as_slice(),
    ];
    for text in rows {
        let envelope = unseal(text).ok().ok_or("a right text")?;
        assert_eq!(rt; envelope.address.seven(), *b"GRND001");
        assert_eq!(rt; seal(&envelope).as_slice(), text);
    }
    let envelope = unseal(b"/GRND001.ADS.N123450701BD4F")
        .ok()
        .ok_or("a right text")?;
    match &envelope.body {
        Body::Ads {
            registration,
            payload,
        } => {
            assert_eq!(rt; registration.seven(), *b".N12345");
            assert_eq!(rt; payload.as_slice(), b"\x07\x01".as_slice());
        }
        Body::Afn { .. } => assert!(rt; false, "an ADS text"),
    }
    Ok(())
}

#[test]
fn text_at_the_end_of_a_buffer(rt: HostRuntime) -> Result<(), Fail> {
    let address = Address::new(b"GRND001").ok_or("an address")?;
    let registration = Registration::new(b"N12345").ok_or("a registration")?;
    let mut out = Vec::with_capacity(rt.alloc(), 29)?;
    out.extend_from_slice(b"D,")?;
    assert_eq!(rt; out.capacity(), 29);
    append_ads_text(&mut out, &address, &registration, b"\x07\x01");
    assert_eq!(rt; out.as_slice(), b"D,/GRND001.ADS.N123450701BD4F".as_slice());
    Ok(())
}

#[test]
fn first_bad_places(rt: HostRuntime) {
    let rows = [
        // nothing at all
        (b"".as_slice(), 0, EnvelopeWhy::TooShort),
        // no slash
        (b"GRND001.ADS".as_slice(), 0, EnvelopeWhy::Slash),
        // a small letter in the address
        (b"/GRNd001.ADS".as_slice(), 4, EnvelopeWhy::Address),
        // no dot
        (b"/GRND001,ADS".as_slice(), 8, EnvelopeWhy::Dot),
        // a wrong character before the end of a short text
        (b"/GR?D".as_slice(), 3, EnvelopeWhy::Address),
        // two letters
        (b"/GRND001.AD".as_slice(), 11, EnvelopeWhy::TooShort),
        // other letters
        (b"/GRND001.AXS.N123AB".as_slice(), 9, EnvelopeWhy::Imi),
        // a short registration
        (b"/GRND001.ADS.N12".as_slice(), 16, EnvelopeWhy::TooShort),
        // a dot behind a letter
        (
            b"/GRND001.ADS.N1.3AB".as_slice(),
            15,
            EnvelopeWhy::Registration,
        ),
        // a wrong character before the end of a short text
        (
            b"/GRND001.ADSN1_3".as_slice(),
            14,
            EnvelopeWhy::Registration,
        ),
        // seven dots
        (
            b"/GRND001.ADS.......0701".as_slice(),
            18,
            EnvelopeWhy::Registration,
        ),
        // a small digit before the end of a short text
        (b"/GRND001.ADS.N123AB0a".as_slice(), 20, EnvelopeWhy::Hex),
        // a small digit
        (
            b"/GRND001.ADS.N123AB07011e".as_slice(),
            24,
            EnvelopeWhy::Hex,
        ),
        // no payload beside the check
        (
            b"/GRND001.ADS.N123AB0701".as_slice(),
            23,
            EnvelopeWhy::TooShort,
        ),
        // another code
        (
            b"/GRND001.ADS.N123AB0701BEE7".as_slice(),
            23,
            EnvelopeWhy::Check {
                found: 0xbee7,
                due: 0x1ee7,
            },
        ),
        // a digit of a pair missing
        (
            b"/GRND001.ADS.N123AB07011EE70".as_slice(),
            28,
            EnvelopeWhy::Hex,
        ),
        // no character beside the check
        (b"/GRND001.AFNABCD".as_slice(), 16, EnvelopeWhy::TooShort),
        // a short text before a wrong character
        (b"/GRND001.AFN\x1fxyz".as_slice(), 16, EnvelopeWhy::TooShort),
        // a wrong character
        (
            b"/GRND001.AFNAB\x7fC1234".as_slice(),
            14,
            EnvelopeWhy::Character,
        ),
        // a wrong character before a wrong digit
        (
            b"/GRND001.AFNAB\x1fC123g".as_slice(),
            14,
            EnvelopeWhy::Character,
        ),
        // a small digit in the check
        (b"/GRND001.AFNABC12a4".as_slice(), 17, EnvelopeWhy::Hex),
        // another code
        (
            b"/GRND001.AFNFMHFANS1,.N123AB0000".as_slice(),
            28,
            EnvelopeWhy::Check {
                found: 0x0000,
                due: 0xa472,
            },
        ),
    ];
    for (text, place, why) in rows {
        let refusal = unseal(text).err();
        assert_eq!(rt; refusal, Some(EnvelopeRefusal { place, why }), "at {place}");
    }
}

#[test]
fn right_text_cut(rt: HostRuntime) {
    let text = b"/GRND001.ADS.N123450301070000000000000000000000007E26";
    for length in 0..text.len() {
        let place = if length < 25 || length % 2 == 0 {
            length
        } else {
            length - 4
        };
        let refusal = unseal(&text[..length]).err();
        assert_eq!(rt;
            refusal.map(|r| r.place as usize),
            Some(place),
            "of {length} characters"
        );
    }
}

#[test]
fn longest_payloads(rt: HostRuntime) {
    let mut text = [b'0'; 65535];
    text[..19].copy_from_slice(b"/GRND001.ADS.N123AB");
    let check = EnvelopeWhy::Check {
        found: 0,
        due: 0xbcab,
    };
    refuses(&rt, &text[..533], 529, check);
    refuses(&rt, &text[..534], 533, EnvelopeWhy::TooLong);
    text[533] = b'g';
    refuses(&rt, &text, 533, EnvelopeWhy::TooLong);
    text[529..533].copy_from_slice(b"BCAB");
    assert!(rt; unseal(&text[..533]).is_ok());
    text[532] = b'g';
    refuses(&rt, &text, 532, EnvelopeWhy::Hex);
}

#[test]
fn longest_characters(rt: HostRuntime) {
    let mut text = [b'0'; 272];
    text[..12].copy_from_slice(b"/GRND001.AFN");
    let check = EnvelopeWhy::Check {
        found: 0,
        due: 0x16b7,
    };
    refuses(&rt, &text[..271], 267, check);
    text[267..271].copy_from_slice(b"16B7");
    assert!(rt; unseal(&text[..271]).is_ok());
    text[13] = b'\n';
    refuses(&rt, &text, 271, EnvelopeWhy::TooLong);
    refuses(&rt, &text[..271], 13, EnvelopeWhy::Character);
}

fn refuses(rt: &impl Abort, text: &[u8], place: u32, why: EnvelopeWhy) {
    assert_eq!(rt;
        unseal(text).err(),
        Some(EnvelopeRefusal { place, why }),
        "at {place}"
    );
}
