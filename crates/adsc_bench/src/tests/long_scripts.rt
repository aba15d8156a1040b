//! Long scripts: a centre that uses up its numbers, a day over the ocean, a long burst, many addresses.
use super::*;

/// What stands behind the journal's line of the day over the ocean.
const OCEAN_OUTPUT: &str = "\
L,AKLCDYA,accepted
D,/AKLCDYA.AFN/FMHANZ1,.N12345,C81234,000000/FPON00000E000000,0/FCOADS,013093
D,/AKLCDYA.ADS.N12345030107000000000000000000000D00000000000000000000000000000000000E000000000036BC
D,/AKLCDYA.ADS.N12345030241E8
D,/AKLCDYA.ADS.N1234507006D60000000000000000D00000000000000000000000000000000000E00000000000790
D,/AKLCDYA.ADS.N123450700D7A0000000000000000D00000000000000000000000000000000000E000000000064AE
D,/AKLCDYA.ADS.N12345070141E0000000000000000D00000000000000000000000000000000000E00000000005D9D
D,/AKLCDYA.ADS.N123450701AC20000000000000000D00000000000000000000000000000000000E0000000000901D
D,/AKLCDYA.ADS.N1234507021660000000000000000D00000000000000000000000000000000000E00000000000183
D,/AKLCDYA.ADS.N12345070280A0000000000000000D00000000000000000000000000000000000E0000000000E27B
D,/AKLCDYA.ADS.N123450702EAE0000000000000000D00000000000000000000000000000000000E00000000003E60
D,/AKLCDYA.ADS.N123451402EE00000000000000000D00000800000000000000000000000000007946
D,/AKLCDYA.ADS.N1234507035840000000000000000D00000800000000000000000000000000000E00000000009AB5
D,/AKLCDYA.ADS.N123450703C280000000000000000D00000800000000000000000000000000000E0000000000401B
D,/AKLCDYA.ADS.N1234507042CC0000000000000000D00000800000000000000000000000000000E0000000000A9A8
D,/AKLCDYA.ADS.N1234507049700000000000000000D00000800000000000000000000000000000E0000000000474A
D,/AKLCDYA.ADS.N1234507050140000000000000000D00000800000000000000000000000000000E00000000007E79
D,/AKLCDYA.ADS.N1234507056B80000000000000000D00000800000000000000000000000000000E0000000000E48C
D,/AKLCDYA.ADS.N123450705D5C0000000000000000D00000800000000000000000000000000000E0000000000D66E
D,/AKLCDYA.ADS.N123451405DC00000000000000000D00001000000000000000000000000000000F6A
D,/AKLCDYA.ADS.N1234507064000000000000000000D00001000000000000000000000000000000E00000000004626
D,/AKLCDYA.ADS.N123450706AD60000000000000000D00001000000000000000000000000000000E000000000054E3
D,/AKLCDYA.ADS.N12345070717A0000000000000000D00001000000000000000000000000000000E0000000000ABF8
L,NFFNDYA,accepted
D,/NFFNDYA.AFN/FMHANZ1,.N12345,C81234,050000/FPON10179E000000,0/FCOADS,012731
D,/NFFNDYA.ADS.N12345030107075300000000000000000D00001000000000000000000000000000000E0000000000E565
D,/NFFNDYA.ADS.N123450707C060000000000000000D00001000000000000000000000000000000E0000000000A6DD
D,/NFFNDYA.ADS.N1234507082AA0000000000000000D00001000000000000000000000000000000E0000000000BF1E
D,/NFFNDYA.ADS.N12345070894E0000000000000000D00001000000000000000000000000000000E00000000008DFC
C,AKLCDYA,D,none
C,AKLCDYA,P,none
C,AKLCDYA,V,none
C,AKLCDYA,M,none
C,NFFNDYA,D,none
C,NFFNDYA,P,confirmed,07010BCF0D010E01
C,NFFNDYA,V,none
C,NFFNDYA,M,none
OK
";

/// A number of 64 bits that two texts hardly share: the hash of Fowler, Noll and Vo in its form 1a.
fn fingerprint(text: &[u8]) -> u64 {
    let mut hash: u64 = 0xCBF2_9CE4_8422_2325;
    for byte in text {
        hash = (hash ^ u64::from(*byte)).wrapping_mul(0x100_0000_01B3);
    }
    hash
}

#[test]
fn a_centre_that_asks_255_times_begins_its_numbers_anew(rt: HostRuntime) -> Result<(), Fail> {
    let alloc = rt.alloc();
    let mut script = format!(in alloc; "{HEAD}L,AKLCDYA\nR,AKLCDYA,1\n")?;
    for message in 2..257 {
        script.push_str(format!(in alloc;
            "C,AKLCDYA,0700\nB,AKLCDYA,{message}\nR,AKLCDYA,{message}\n"
        )?.as_str())?;
    }
    // The next ask takes number 1 again, and an old acknowledgement of it comes late.
    script.push_str("C,AKLCDYA,07000BA5\nR,AKLCDYA,2\n")?;
    for (workers, piece) in [("1", 1), ("5", 4_096)] {
        let (status, written) = played(&rt, alloc, &["run", workers], script.as_bytes(), piece)?;
        assert_eq!(rt; status, Status::Done);
        assert!(rt;
            written.ends_with(
                b"C,AKLCDYA,D,confirmed,07FF\nC,AKLCDYA,P,confirmed,07010BA5\nC,AKLCDYA,V,none\nC,AKLCDYA,M,none\nOK\n"
            )
        );
        assert_eq!(rt; written.len(), 14_440);
        assert_eq!(rt; fingerprint(written.as_slice()), 0xFC7D_3F48_F24C_5412);
    }
    Ok(())
}

/// The waypoint that is active at this moment of the day over the ocean.
fn waypoint_at(moment: u32) -> u32 {
    match moment {
        0..=239 => 0,
        240..=479 => 1,
        _ => 2,
    }
}

/// The script of a day over the ocean: a sample and a tick every 30 s, one centre from the beginning, and another
/// that takes over.
fn ocean_script(alloc: Global) -> Result<String, Fail> {
    let mut script = String::from_str(
        alloc,
        "A,N12345,ANZ1,C81234\nG,AKLCDYA,NFFNDYA\nS,0,0,0,0,0,0,0,0,0,0,0,0,0,0,0,0,0,0,0,0,0,0,0,0,0,0\n",
    )?;
    script.push_str(
        "L,AKLCDYA\nR,AKLCDYA,1\nB,AKLCDYA,1\nC,AKLCDYA,07000BCF0D010E01\nB,AKLCDYA,2\nR,AKLCDYA,2\n",
    )?;
    script.push_str("C,AKLCDYA,08000A1014\nB,AKLCDYA,3\nR,AKLCDYA,3\n")?;
    for moment in 1u32..721 {
        let waypoint = waypoint_at(moment);
        script.push_str(format!(in alloc;
            "S,{},0,0,0,0,0,0,{},0,0,0,0,0,0,0,0,0,0,0,0,0,0,0,0,0,0\nT,{}\n",
            100 * moment,
            waypoint,
            30 * moment
        )?
        .as_str())?;
        if moment == 600 {
            script.push_str(
                "L,NFFNDYA\nR,NFFNDYA,1\nB,NFFNDYA,1\nC,NFFNDYA,07000BCF0D010E01\nB,NFFNDYA,2\nR,NFFNDYA,2\n",
            )?;
            script.push_str("K,AKLCDYA,A\nB,AKLCDYA,4\n")?;
        }
    }
    Ok(script)
}

#[test]
fn a_day_over_the_ocean_is_reported(rt: HostRuntime) -> Result<(), Fail> {
    let alloc = rt.alloc();
    let script = ocean_script(alloc)?;
    for (workers, piece) in [("1", 1), ("3", 1_007)] {
        let (status, written) = played(&rt, alloc, &["run", workers], script.as_bytes(), piece)?;
        assert_eq!(rt; status, Status::Done);
        assert!(rt; written.ends_with(OCEAN_OUTPUT.as_bytes()));
        assert_eq!(rt; written.len(), 8_830);
        assert_eq!(rt; fingerprint(written.as_slice()), 0x83AB_895E_FF6B_6BB7);
    }
    Ok(())
}

#[test]
fn a_long_burst_is_answered_whole(rt: HostRuntime) -> Result<(), Fail> {
    let alloc = rt.alloc();
    // 4,097 demands: 820 of the first and of the second address, 819 of each other.
    let mut script = String::from_str(
        alloc,
        "A,N12345,ANZ1,C81234\nG,GRND001,GRND002,GRND003,GRND004,GRND005\nS,0,0,0,0,0,0,0,0,0,0,0,0,0,0,0,0,0,0,0,0,0,0,0,0,0,0\n",
    )?;
    let round =
        "U,/GRND001.ADS.N123450701BD4F\nU,/GRND002.ADS.N123450701BD4F\nU,/GRND003.ADS.N123450701BD4F\nU,/GRND004.ADS.N123450701BD4F\nU,/GRND005.ADS.N123450701BD4F\n";
    script.push_str(repeated(alloc, round, 819)?.as_str())?;
    script.push_str("U,/GRND001.ADS.N123450701BD4F\nU,/GRND002.ADS.N123450701BD4F\n")?;
    let mut output = String::from_str(alloc, "\n")?;
    for (address, count) in [
        ("GRND001", 820),
        ("GRND002", 820),
        ("GRND003", 819),
        ("GRND004", 819),
        ("GRND005", 819),
    ] {
        let downlink = format!(in alloc;
            "D,/{address}.ADS.N12345030107000000000000000000007E26\n"
        )?;
        output.push_str(format!(in alloc; "L,{address},none\n")?.as_str())?;
        output.push_str(repeated(alloc, downlink.as_str(), count)?.as_str())?;
    }
    output.push_str("OK\n")?;
    for workers in ["1", "4", "5"] {
        let (status, written) = played(&rt, alloc, &["run", workers], script.as_bytes(), 4_096)?;
        assert_eq!(rt; status, Status::Done);
        assert!(rt; written.starts_with(b"J,"));
        assert!(rt; behind_first_line(written.as_slice()) == output.as_bytes());
        let entries = written.iter().filter(|byte| **byte == b',').count();
        let others = output
            .as_bytes()
            .iter()
            .filter(|byte| **byte == b',')
            .count();
        assert_eq!(rt; entries.saturating_sub(others), 4_097);
    }
    Ok(())
}

#[test]
fn sixty_four_addresses_are_listed(rt: HostRuntime) -> Result<(), Fail> {
    let alloc = rt.alloc();
    let mut script = String::from_str(alloc, "A,N12345,ANZ1,C81234\nG")?;
    let mut output = String::from_str(alloc, "J\n")?;
    for address in 1..65 {
        script.push_str(format!(in alloc; ",GRND{address:03}")?.as_str())?;
        output.push_str(format!(in alloc; "L,GRND{address:03},none\n")?.as_str())?;
    }
    output.push_str("OK\n")?;
    let sample = "\nS,0,0,0,0,0,0,0,0,0,0,0,0,0,0,0,0,0,0,0,0,0,0,0,0,0,0\n";
    let table = [
        ("", Status::Done, output.as_str()),
        (",GRND065", Status::BadLine, "J\nBAD,2,COUNT,65\n"),
    ];
    for (more, due, output) in table {
        let whole = format!(in alloc; "{script}{more}{sample}")?;
        for workers in ["1", "5"] {
            let (status, written) = played(&rt, alloc, &["run", workers], whole.as_bytes(), 1_007)?;
            assert_eq!(rt; status, due);
            assert_eq!(rt; written.as_slice(), output.as_bytes());
        }
    }
    Ok(())
}
