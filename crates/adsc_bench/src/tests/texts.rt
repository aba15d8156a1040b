//! Texts that are shown.
use super::*;

/// Texts, how the showing ends, and what is written.
const SHOWN: [(&str, Status, &str); 12] = [
    // An uplink, a downlink, and a line that is neither.
    (
        "\
U,/AKLCDYA.ADS.N123450701BD4F
D,/AKLCDYA.ADS.N12345030107000000000000000000007E26
hello
",
        Status::Refused,
        "\
line,1,U,AKLCDYA,ADS,.N12345
periodic,1
line,2,D,AKLCDYA,ADS,.N12345
ack,1
report,7,0,0,0,0,0,0,0
line,3,refused,FORM,0
end,3,1
",
    ),
    // A downlink, and a line that is none.
    (
        "\
D,/AKLCDYA.ADS.N12345030107000000000000000000007E26
hello
",
        Status::Refused,
        "\
line,1,D,AKLCDYA,ADS,.N12345
ack,1
report,7,0,0,0,0,0,0,0
line,2,refused,FORM,0
end,2,1
",
    ),
    // A downlink that is cut short.
    (
        "D,/AKLCDYA.ADS.N123450700000000E48B\n",
        Status::Refused,
        "\
line,1,refused,BITS-SHORT,29
end,1,1
",
    ),
    // A contact text that ends too soon.
    (
        "D,/AKLCDYA.AFN/FMHANZ1AA90\n",
        Status::Refused,
        "\
line,1,refused,TEXT,20
end,1,1
",
    ),
    // A contact text with an hour that is none.
    (
        "D,/AKLCDYA.AFN/FMHANZ1,.N12345,,2460004F23\n",
        Status::Refused,
        "\
line,1,refused,TEXT,31
end,1,1
",
    ),
    // What is told of downlinks.
    (
        "\
D,/AKLCDYA.ADS.N12345030107E5A003E200088B89601F0C04E6B18208200E2000F03FF01032101E48063A
D,/AKLCDYA.ADS.N1234509E5A003E200088B89601F11C8123414E5A003E200088B89601F0DE65D840860088B81A4E796042F7008CA00EB64
D,/NFFNDYA.ADS.N1234504020604030105050401154006009D2B
D,/AKLCDYA.ADS.N123450700000000E48B
D,/AKLCDYA.ADS.N123450301718C
D,/AKLCDYA.ADS..N.345
hello
",
        Status::Refused,
        "\
line,1,D,AKLCDYA,ADS,.N12345
ack,1
report,7,-216064,1017856,8750,4800,1,7,1
group,12,ANZ1    
group,14,0,1024,960,-4
group,16,100,0,128,-220
line,2,D,AKLCDYA,ADS,.N12345
report,9,-216064,1017856,8750,4800,1,7,1
group,17,C81234
report,20,-216064,1017856,8750,4800,1,7,1
group,13,-210000,-1040000,8750,420,-200000,-1000000,9000
line,3,D,NFFNDYA,ADS,.N12345
nack,2,6
nack,3,1,5
noncompliance,4
emergency-off,0
line,4,refused,BITS-SHORT,29
line,5,refused,CHECK,718C,718B
line,6,refused,REGISTRATION,15
line,7,refused,FORM,0
end,7,4
",
    ),
    // What is told of uplinks.
    (
        "\
U,/AKLCDYA.ADS.N123450701BD4F
U,/AKLCDYA.ADS.N1234507010BA50802147C7F
U,/AKLCDYA.ADS.N1234508000A1012FB1327102328146020
U,/AKLCDYA.ADS.N1234509020BCF0C010D0215020A5DE3
U,/AKLCDYA.ADS.N1234502070605C76C
U,/AKLCDYA.ADS.N1234501256D
U,/AKLCDYA.ADS.N1234507010BA50BA5F332
U,/AKLCDYA.ADS.N1234505059BA9
U,/AKLCDYA.ADS.N123450701BD4E
",
        Status::Refused,
        "\
line,1,U,AKLCDYA,ADS,.N12345
periodic,1
line,2,U,AKLCDYA,ADS,.N12345
periodic,1
interval,304
event,2
waypoint
line,3,U,AKLCDYA,ADS,.N12345
event,0
lateral,16
vrate,-5
range,10000,9000
waypoint
line,4,U,AKLCDYA,ADS,.N12345
emergency,2
interval,1024
group,12,1
group,13,2
intent,2,10
line,5,U,AKLCDYA,ADS,.N12345
cancel,7
cancel-emergency,5
line,6,U,AKLCDYA,ADS,.N12345
cancel-all
line,7,refused,REASON-2,32
line,8,refused,REASON-7,0
line,9,refused,CHECK,BD4E,BD4F
end,9,3
",
    ),
    // Uplinks of every message and group, right and malformed.
    (
        "\
U,/AKLCDYA.ADS.N1234501010101014B9A
U,/AKLCDYA.ADS.N123450565E9
U,/AKLCDYA.ADS.N123450745AB
U,/AKLCDYA.ADS.N1234507010A085D49
U,/AKLCDYA.ADS.N1234507010BA50BA5F332
U,/AKLCDYA.ADS.N1234507010D010D01EA3F
U,/AKLCDYA.ADS.N123450701150100099D
U,/AKLCDYA.ADS.N123450801AD71
U,/AKLCDYA.ADS.N1234508010A0008AF
U,/AKLCDYA.ADS.N12345080112008275
U,/AKLCDYA.ADS.N1234508011327E5C1
U,/AKLCDYA.ADS.N1234508011380008000FD04
U,/AKLCDYA.ADS.N1234508041327102710D0E5
U,/AKLCDYA.ADS.N1234507010BA50802147C7F
U,/AKLCDYA.ADS.N1234507010BCFC7D3
U,/AKLCDYA.ADS.N1234507010B40A7B4
U,/AKLCDYA.ADS.N1234507010B3F28CC
",
        Status::Refused,
        "\
line,1,refused,REASON-8,32
line,2,refused,REASON-7,0
line,3,refused,REASON-9,8
line,4,refused,REASON-7,16
line,5,refused,REASON-2,32
line,6,refused,REASON-1,32
line,7,refused,REASON-12,32
line,8,refused,REASON-3,16
line,9,refused,REASON-13,24
line,10,refused,REASON-11,24
line,11,refused,REASON-9,24
line,12,refused,REASON-10,40
line,13,refused,REASON-10,40
line,14,U,AKLCDYA,ADS,.N12345
periodic,1
interval,304
event,2
waypoint
line,15,U,AKLCDYA,ADS,.N12345
periodic,1
interval,1024
line,16,U,AKLCDYA,ADS,.N12345
periodic,1
interval,1
line,17,U,AKLCDYA,ADS,.N12345
periodic,1
interval,0
end,17,13
",
    ),
    // No line at all.
    ("", Status::Done, "end,0,0\n"),
    // A downlink without a newline behind it.
    (
        "D,/AKLCDYA.ADS.N123450301718B",
        Status::Done,
        "\
line,1,D,AKLCDYA,ADS,.N12345
ack,1
end,1,0
",
    ),
    // An answer text between lines that are none.
    (
        "\
hello
U,/AKLCDYA.AFN/FMHANZ1,.N12345/FAK0/FARADS,05087
hello
",
        Status::Refused,
        "\
line,1,refused,FORM,0
line,2,U,AKLCDYA,AFN
answer,ANZ1,.N12345,0
application,ADS,0
line,3,refused,FORM,0
end,3,2
",
    ),
    // An answer text that comes down.
    (
        "D,/GRND001.AFN/FMHANZ1,.N12345/FAK0/FARADS,05087\n",
        Status::Refused,
        "\
line,1,refused,TEXT,28
end,1,1
",
    ),
];

#[test]
fn texts_are_shown(rt: HostRuntime) -> Result<(), Fail> {
    let alloc = rt.alloc();
    for (lines, due, output) in SHOWN {
        for piece in [1, 2, 1_007, 4_096] {
            let (status, written) = played(&rt, alloc, &["show"], lines.as_bytes(), piece)?;
            assert_eq!(rt; status, due, "at {lines}");
            assert_eq!(rt; written.as_slice(), output.as_bytes(), "at {lines}");
        }
    }
    Ok(())
}
