//! The vectors of uplink payloads, cut at each octet: read alone, and brought on a link that is live.
use super::*;
use adsc_requests::decode_uplink;

/// A refusal's bit, reason, number and octet.
type Refused = (u32, u8, u8, u8);

/// The octets of a payload, its check, the refusal if there is one, and the answer of a link that is live, without
/// what stands before its octets.
const CUTS: [(&str, &str, Option<Refused>, &str); 70] = [
    ("", "211F", Some((0, 9, 0, 1)), "040009DC31"),
    ("01", "256D", None, ""),
    ("0101", "17E9", None, ""),
    ("010101", "85F8", None, ""),
    ("01010101", "3703", None, ""),
    ("0101010101", "4B9A", Some((32, 8, 0, 5)), "040008CC10"),
    ("05", "65E9", Some((0, 7, 0, 1)), "0400070116D0"),
    ("07", "45AB", Some((8, 9, 0, 2)), "040009DC31"),
    ("0701", "BD4F", None, "030107000000000000000000007E26"),
    ("07010A", "8633", Some((16, 7, 1, 3)), "0401070301A2"),
    ("07010A08", "5D49", Some((16, 7, 1, 3)), "0401070301A2"),
    ("07010B", "9612", Some((24, 9, 1, 4)), "040109EF00"),
    ("07010BA5", "0A3F", None, "030107000000000000000000007E26"),
    ("07010BA508", "014D", Some((40, 9, 0, 6)), "040009DC31"),
    ("07010BA50802", "636C", Some((48, 3, 2, 7)), "0402031B19"),
    (
        "07010BA5080214",
        "7C7F",
        None,
        "030107000000000000000000000302F813",
    ),
    ("07010BA50B", "312E", Some((32, 2, 1, 5)), "040102059E91"),
    ("07010BA50BA5", "F332", Some((32, 2, 1, 5)), "040102059E91"),
    ("07010D", "F6D4", Some((24, 9, 1, 4)), "040109EF00"),
    (
        "07010D01",
        "55F7",
        None,
        "030107000000000000000000000D000000000000000000000000000000000018D7",
    ),
    ("07010D010D", "32F2", Some((32, 1, 1, 5)), "04010105CBC2"),
    ("07010D010D01", "EA3F", Some((32, 1, 1, 5)), "04010105CBC2"),
    ("070115", "65ED", Some((24, 9, 1, 4)), "040109EF00"),
    ("07011501", "DF2D", Some((32, 9, 1, 5)), "040109EF00"),
    ("0701150100", "099D", Some((32, 12, 1, 5)), "04010CBFA5"),
    ("0702", "8D2C", None, "030207000000000000000000007BB9"),
    ("07020B", "C341", Some((24, 9, 2, 4)), "040209BA53"),
    ("07020BA5", "536F", None, "030207000000000000000000007BB9"),
    ("07020BA50D", "CA34", Some((40, 9, 2, 6)), "040209BA53"),
    (
        "07020BA50D02",
        "724B",
        None,
        "030207000000000000000000000D000000000000000000000000000000000003F6",
    ),
    ("08", "B444", Some((8, 9, 0, 2)), "040009DC31"),
    ("0801", "AD71", Some((16, 3, 1, 3)), "0401034E4A"),
    ("08010A", "AA02", Some((24, 9, 1, 4)), "040109EF00"),
    ("08010A00", "08AF", Some((24, 13, 1, 4)), "04010DAF84"),
    ("08010A08", "89A7", None, "0301718B"),
    ("08010A0812", "8BDD", Some((40, 9, 1, 6)), "040109EF00"),
    ("08010A081201", "F3CD", None, "0301718B"),
    ("08010A08120113", "2E21", Some((56, 9, 1, 8)), "040109EF00"),
    (
        "08010A0812011327",
        "AE26",
        Some((56, 9, 1, 8)),
        "040109EF00",
    ),
    (
        "08010A081201132710",
        "7E1A",
        Some((72, 9, 1, 10)),
        "040109EF00",
    ),
    (
        "08010A08120113271023",
        "8F57",
        Some((72, 9, 1, 10)),
        "040109EF00",
    ),
    ("08010A0812011327102328", "8C02", None, "0301718B"),
    ("08010A081201132710232814", "1EBE", None, "0301718B"),
    (
        "08010A08120113271023281414",
        "0145",
        Some((96, 1, 1, 13)),
        "0401010D4ACA",
    ),
    ("080112", "393B", Some((24, 9, 1, 4)), "040109EF00"),
    ("08011200", "8275", Some((24, 11, 1, 4)), "04010BCF42"),
    ("080113", "291A", Some((24, 9, 1, 4)), "040109EF00"),
    ("08011327", "E5C1", Some((24, 9, 1, 4)), "040109EF00"),
    ("08011380", "20CC", Some((24, 9, 1, 4)), "040109EF00"),
    ("0801138000", "F66D", Some((40, 9, 1, 6)), "040109EF00"),
    ("080113800080", "6D5E", Some((40, 9, 1, 6)), "040109EF00"),
    ("08011380008000", "FD04", Some((40, 10, 1, 6)), "04010ADF63"),
    ("0803", "8D33", Some((16, 3, 3, 3)), "0403032828"),
    ("080313", "4F78", Some((24, 9, 3, 4)), "0403098962"),
    ("08031327", "8BA1", Some((24, 9, 3, 4)), "0403098962"),
    ("0803132710", "8DDD", Some((40, 9, 3, 6)), "0403098962"),
    ("080313271023", "972B", Some((40, 9, 3, 6)), "0403098962"),
    ("08031327102328", "633B", None, "030351C9"),
    ("0804", "FDD4", Some((16, 3, 4, 3)), "040403B1BF"),
    ("080413", "D6EF", Some((24, 9, 4, 4)), "04040910F5"),
    ("08041327", "0E31", Some((24, 9, 4, 4)), "04040910F5"),
    ("0804132710", "DCF0", Some((40, 9, 4, 6)), "04040910F5"),
    ("080413271027", "B07B", Some((40, 9, 4, 6)), "04040910F5"),
    ("08041327102710", "D0E5", Some((40, 10, 4, 6)), "04040A2096"),
    ("09", "A465", Some((8, 9, 0, 2)), "040009DC31"),
    ("0903", "BE02", None, "030351C9"),
    ("09030B", "EB71", Some((24, 9, 3, 4)), "0403098962"),
    ("09030BC1", "EA27", None, "030351C9"),
    ("09030BC10E", "84A5", Some((40, 9, 3, 6)), "0403098962"),
    ("09030BC10E01", "7A22", None, "030351C9"),
];

/// The value of a digit.
fn value_of(digit: u8) -> u8 {
    match digit {
        b'0'..=b'9' => digit - b'0',
        b'A'..=b'F' => digit - b'A' + 10,
        _ => 0,
    }
}

/// The octets of these digits.
fn octets_of(alloc: Global, digits: &str) -> Result<Vec<u8>, Fail> {
    let mut octets = Vec::new(alloc);
    for pair in digits.as_bytes().chunks(2) {
        if let [high, low] = pair {
            octets.push((value_of(*high) << 4) | value_of(*low))?;
        }
    }
    Ok(octets)
}

#[test]
fn each_cut_of_a_payload_is_read_or_refused(rt: HostRuntime) -> Result<(), Fail> {
    let alloc = rt.alloc();
    for (digits, _, refused, _) in CUTS {
        let octets = octets_of(alloc, digits)?;
        let found = match decode_uplink(octets.as_slice()) {
            Ok(_) => None,
            Err(refusal) => Some((refusal.bit, refusal.reason, refusal.number, refusal.octet)),
        };
        assert_eq!(rt; found, refused, "at {digits}");
    }
    Ok(())
}

/// What is written of a payload on a live link, which gets this answer and, where it is refused, this refusal.
fn output_of(alloc: Global, refused: Option<Refused>, answer: &str) -> Result<String, Fail> {
    let mut output = String::from_str(
        alloc,
        "J,4,5\nL,AKLCDYA,none\nD,/AKLCDYA.ADS.N1234503630700000000000000000000CB2C\n",
    )?;
    if !answer.is_empty() {
        output.push_str(format!(in alloc; "D,/AKLCDYA.ADS.N12345{answer}\n")?.as_str())?;
    }
    if let Some((bit, reason, _, _)) = refused {
        output.push_str(format!(in alloc; "X,5,REASON-{reason},{bit}\n")?.as_str())?;
    }
    output.push_str("OK\n")?;
    Ok(output)
}

#[test]
fn each_cut_of_a_payload_is_answered_on_a_live_link(rt: HostRuntime) -> Result<(), Fail> {
    let alloc = rt.alloc();
    // No text carries the empty payload, which stands first.
    for (digits, check, refused, answer) in &CUTS[1..] {
        let script = format!(in alloc;
            "{HEAD}U,/AKLCDYA.ADS.N123450763F1AB\nU,/AKLCDYA.ADS.N12345{digits}{check}\n"
        )?;
        let output = output_of(alloc, *refused, answer)?;
        for workers in ["1", "5"] {
            let (status, written) = played(
                &rt,
                alloc,
                &["run", workers],
                script.as_bytes(),
                1_007,
            )?;
            assert_eq!(rt; status, Status::Done, "at {digits}");
            assert_eq!(rt; written.as_slice(), output.as_bytes(), "at {digits}");
        }
    }
    Ok(())
}
