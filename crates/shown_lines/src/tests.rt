//! Whole inputs and what is shown for them. The texts were made by another program, from the tables of the formats.
use super::*;
use adsc_io::{Line, LineReader, SteadySource};
use std::alloc::Global;
use std::test::Fail;

/// What is shown for an input of fewer than 100 lines.
fn text_of(alloc: Global, bytes: &[u8]) -> Result<Vec<u8>, Fail> {
    let mut source = SteadySource::new(alloc, bytes, 1_000)?;
    let mut reader = LineReader::new(alloc)?;
    let mut shown = ShownText::new(alloc)?;
    let mut text = Vec::new(alloc);
    let mut refused = 0u32;
    for _ in 0..100 {
        let way = match reader.next(&mut source) {
            Ok(Line::Text) => shown.show_line(reader.number(), reader.text()),
            Ok(Line::TooLong) => shown.show_long(reader.number()),
            _ => break,
        };
        if way == LineShown::Refused {
            refused = refused.saturating_add(1);
        }
        text.extend_from_slice(shown.bytes())?;
    }
    shown.show_end(reader.number(), refused);
    text.extend_from_slice(shown.bytes())?;
    Ok(text)
}

#[test]
fn each_kind_of_line(rt: HostRuntime) -> Result<(), Fail> {
    let alloc = rt.alloc();
    let table: [(&str, &str); 15] = [
        (
            // each item
            "D,/AKLCDYA.ADS.N1234503010402060403010505040115400600D6DA\n",
            "line,1,D,AKLCDYA,ADS,.N12345\nack,1\nnack,2,6\nnack,3,1,5\nnoncompliance,4\nemergency-off,0\nend,1,0\n",
        ),
        (
            // reports of each tag, with each group
            "D,/AKLCDYA.ADS.N1234507FFFFFFFFFFFFFFFFFFFFF581\nD,/AKLCDYA.ADS.N1234509000000000000000000000C04E6B182082011C812349C7C\nD,/AKLCDYA.ADS.N123450A000000000000000000000DC0000003FFFFE0003FFF00000FFFFFDFFF1683\nD,/AKLCDYA.ADS.N1234512000000000000000000000E2000F03FF00F2000F03FF3CED3\nD,/AKLCDYA.ADS.N1234513000000000000000000001032101E4816FFFFFFFFFFF80020DEB8\nD,/AKLCDYA.ADS.N12345140000000000000000000017000004000000004002C3CA\n",
            "line,1,D,AKLCDYA,ADS,.N12345\nreport,7,-1,-1,-1,32767,1,7,1\nline,2,D,AKLCDYA,ADS,.N12345\nreport,9,0,0,0,0,0,0,0\ngroup,12,ANZ1    \ngroup,17,C81234\nline,3,D,AKLCDYA,ADS,.N12345\nreport,10,0,0,0,0,0,0,0\ngroup,13,-524288,4095,-128,63,-8192,16383,-129\nline,4,D,AKLCDYA,ADS,.N12345\nreport,18,0,0,0,0,0,0,0\ngroup,14,0,1024,960,-4\ngroup,15,0,1024,960,-4\nline,5,D,AKLCDYA,ADS,.N12345\nreport,19,0,0,0,0,0,0,0\ngroup,16,100,0,128,-220\ngroup,22,65535,1,4095,-1,1\nline,6,D,AKLCDYA,ADS,.N12345\nreport,20,0,0,0,0,0,0,0\ngroup,23,0,-1048576,1,2\nend,6,0\n",
        ),
        (
            // a character that a code has none of
            "D,/AKLCDYA.ADS.N1234507000000000000000000000C0000820C7FFFB51D\n",
            "line,1,D,AKLCDYA,ADS,.N12345\nreport,7,0,0,0,0,0,0,0\ngroup,12,??BBCG??\nend,1,0\n",
        ),
        (
            // each kind of uplink message, with each group, also in another order
            "U,/AKLCDYA.ADS.N1234501256D\nU,/AKLCDYA.ADS.N12345020306040705B71D\nU,/AKLCDYA.ADS.N1234507010BA50C010D020E030F041005110615FF784D8A\nU,/AKLCDYA.ADS.N1234509020B000C0011001500017FC0\nU,/AKLCDYA.ADS.N1234508030A011280137FFF80001443D1\nU,/AKLCDYA.ADS.N123450804141300008000127F0AFFE2C6\nU,/AKLCDYA.ADS.N1234507FF1500010EFF0BFF217E\nU,/AKLCDYA.ADS.N1234507010BA50802147C7F\nU,/AKLCDYA.ADS.N1234507000900060002FF9F19\n",
            "line,1,U,AKLCDYA,ADS,.N12345\ncancel-all\nline,2,U,AKLCDYA,ADS,.N12345\ncancel,3\ncancel-emergency,4\nperiodic,5\nline,3,U,AKLCDYA,ADS,.N12345\nperiodic,1\ninterval,304\ngroup,12,1\ngroup,13,2\ngroup,14,3\ngroup,15,4\ngroup,16,5\ngroup,17,6\nintent,255,120\nline,4,U,AKLCDYA,ADS,.N12345\nemergency,2\ninterval,0\ngroup,12,0\ngroup,17,0\nintent,0,1\nline,5,U,AKLCDYA,ADS,.N12345\nevent,3\nlateral,1\nvrate,-128\nrange,32767,-32768\nwaypoint\nline,6,U,AKLCDYA,ADS,.N12345\nevent,4\nlateral,255\nvrate,127\nrange,0,-32768\nwaypoint\nline,7,U,AKLCDYA,ADS,.N12345\nperiodic,255\ninterval,4096\ngroup,14,255\nintent,0,1\nline,8,U,AKLCDYA,ADS,.N12345\nperiodic,1\ninterval,304\nevent,2\nwaypoint\nline,9,U,AKLCDYA,ADS,.N12345\nperiodic,0\nemergency,0\ncancel-emergency,0\ncancel,255\nend,9,0\n",
        ),
        (
            // each refusal of an uplink's payload
            "U,/AKLCDYA.ADS.N123450565E9\nU,/AKLCDYA.ADS.N123450745AB\nU,/AKLCDYA.ADS.N1234507010BA50BA5F332\nU,/AKLCDYA.ADS.N1234507010D010D01EA3F\nU,/AKLCDYA.ADS.N1234507010A085D49\nU,/AKLCDYA.ADS.N123450801AD71\nU,/AKLCDYA.ADS.N1234508010A0008AF\nU,/AKLCDYA.ADS.N12345080112008275\nU,/AKLCDYA.ADS.N1234508011327E5C1\nU,/AKLCDYA.ADS.N1234508041327102710D0E5\nU,/AKLCDYA.ADS.N1234508011380008000FD04\nU,/AKLCDYA.ADS.N123450701150100099D\nU,/AKLCDYA.ADS.N1234501010101014B9A\n",
            "line,1,refused,REASON-7,0\nline,2,refused,REASON-9,8\nline,3,refused,REASON-2,32\nline,4,refused,REASON-1,32\nline,5,refused,REASON-7,16\nline,6,refused,REASON-3,16\nline,7,refused,REASON-13,24\nline,8,refused,REASON-11,24\nline,9,refused,REASON-9,24\nline,10,refused,REASON-10,40\nline,11,refused,REASON-10,40\nline,12,refused,REASON-12,32\nline,13,refused,REASON-8,32\nend,13,13\n",
        ),
        (
            // each refusal of an envelope
            "D,/AKLCDYA.ADS.N1234503017E2\nD,AAKLCDYA\nD,/AKLcDYA.ADS\nD,/AKLCDYAXADS\nD,/AKLCDYA.ADX.N12345\nD,/AKLCDYA.ADS..N.345\nD,/AKLCDYA.ADS.......0301718B\nD,/AKLCDYA.ADS.N123450g01718B\nD,/AKLCDYA.ADS.N123450301718\nD,/AKLCDYA.ADS.N12345030171\nD,/AKLCDYA.AFN\x7f0000\nD,/AKLCDYA.AFNabc000g\nD,/AKLCDYA.AFN\nD,/AKLCDYA.ADS.N123450301718A\nD,/AKLCDYA.AFN/F1234\nD,\n",
            "line,1,refused,HEX,26\nline,2,refused,SLASH,0\nline,3,refused,ADDRESS,4\nline,4,refused,DOT,8\nline,5,refused,IMI,9\nline,6,refused,REGISTRATION,15\nline,7,refused,REGISTRATION,18\nline,8,refused,HEX,20\nline,9,refused,HEX,26\nline,10,refused,CHECK,0171,052F\nline,11,refused,CHARACTER,12\nline,12,refused,HEX,18\nline,13,refused,SHORT,12\nline,14,refused,CHECK,718A,718B\nline,15,refused,CHECK,1234,24B9\nline,16,refused,SHORT,0\nend,16,16\n",
        ),
        (
            // refusals of an uplink's envelope, and a payload that is right only behind the other letter
            "U,/AKLCDYA.ADS.N123450701BD4E\nU,\nU,AAKLCDYA\nU,/AKLCDYA.ADS.N123450701BD4F\nD,/AKLCDYA.ADS.N123450701BD4F\nU,/AKLCDYA.ADS.N123450301718B\nU,/AKLCDYA.AFN/F1234\n",
            "line,1,refused,CHECK,BD4E,BD4F\nline,2,refused,SHORT,0\nline,3,refused,SLASH,0\nline,4,U,AKLCDYA,ADS,.N12345\nperiodic,1\nline,5,refused,BITS-SHORT,8\nline,6,refused,REASON-7,0\nline,7,refused,CHECK,1234,24B9\nend,7,6\n",
        ),
        (
            // each refusal of a downlink's payload
            "D,/AKLCDYA.ADS.N123450700000000E48B\nD,/AKLCDYA.ADS.N12345FF2BBC\nD,/AKLCDYA.ADS.N12345030102DBFB\nD,/AKLCDYA.ADS.N123450401007E29\nD,/AKLCDYA.ADS.N1234504010E9FE7\nD,/AKLCDYA.ADS.N12345050101144176DE\nD,/AKLCDYA.ADS.N12345030103010301030103010301030103010301B0E5\nD,/AKLCDYA.ADS.N12345030103010301030103010301030103010C50F4\nD,/AKLCDYA.ADS.N123450700000000000000000000110000001100000011000000110000001100000011000000110000001100000011000000ED53\nD,/AKLCDYA.ADS.N12345070000000000000000000011006101\n",
            "line,1,refused,BITS-SHORT,29\nline,2,refused,BITS-TAG,0\nline,3,refused,BITS-TAG,16\nline,4,refused,BITS-VALUE,16\nline,5,refused,BITS-VALUE,16\nline,6,refused,BITS-VALUE,24\nline,7,refused,BITS-MANY,128\nline,8,refused,BITS-TAG,128\nline,9,refused,BITS-MANY,344\nline,10,refused,BITS-SHORT,96\nend,10,10\n",
        ),
        (
            // lines of no known form
            "\nhello\nD\nd,\nX,1\nUU,\nU\nu,\n",
            "line,1,refused,FORM,0\nline,2,refused,FORM,0\nline,3,refused,FORM,0\nline,4,refused,FORM,0\nline,5,refused,FORM,0\nline,6,refused,FORM,0\nline,7,refused,FORM,0\nline,8,refused,FORM,0\nend,8,8\n",
        ),
        ("", "end,0,0\n"),
        (
            "\n\nD,/AKLCDYA.ADS.N123450301718B",
            "line,1,refused,FORM,0\nline,2,refused,FORM,0\nline,3,D,AKLCDYA,ADS,.N12345\nack,1\nend,3,2\n",
        ),
        (
            // answers: one application, and four
            "hello\nU,/AKLCDYA.AFN/FMHANZ1,.N12345/FAK0/FARADS,05087\nU,/AKLCDYA.AFN/FMHA,ZK-ABCD/FAK9/FARADS,0/FARATC,9/FARXYZ,1/FARABC,29B90\n",
            "line,1,refused,FORM,0\nline,2,U,AKLCDYA,AFN\nanswer,ANZ1,.N12345,0\napplication,ADS,0\nline,3,U,AKLCDYA,AFN\nanswer,A,ZK-ABCD,9\napplication,ADS,0\napplication,ATC,9\napplication,XYZ,1\napplication,ABC,2\nend,3,1\n",
        ),
        (
            // contacts: one application, and four with the longest flight and no airframe
            "D,/GRND001.AFN/FMHANZ1,.N12345,C81234,000000/FPON00000E000000,0/FCOADS,013093\nD,/GRND001.AFN/FMHQFA12345,ZK-ABCD,,235959/FPOS89599W179599,1/FCOADS,01/FCOATC,99/FCOXYZ,00/FCOABC,1029A4\n",
            "line,1,D,GRND001,AFN\ncontact,ANZ1,.N12345,C81234,000000,N00000E000000,0\napplication,ADS,01\nline,2,D,GRND001,AFN\ncontact,QFA12345,ZK-ABCD,,235959,S89599W179599,1\napplication,ADS,01\napplication,ATC,99\napplication,XYZ,00\napplication,ABC,10\nend,2,0\n",
        ),
        (
            // characters that are no answer, and a contact behind the letter of the ground
            "U,/AKLCDYA.AFNx1D46\nU,/AKLCDYA.AFN/FMHANZ1,.N12345/FAK07A34\nU,/AKLCDYA.AFN/FMHANZ1,.N12345/FAK0/FARADS,0/FARADS,0/FARADS,0/FARADS,0/FARADS,047CF\nU,/GRND001.AFN/FMHANZ1,.N12345,C81234,000000/FPON00000E000000,0/FCOADS,013093\n",
            "line,1,refused,TEXT,12\nline,2,refused,TEXT,33\nline,3,refused,TEXT,69\nline,4,refused,TEXT,28\nend,4,4\n",
        ),
        (
            // characters that are no contact, and an answer behind the letter of the aircraft
            "D,/AKLCDYA.AFN/FMHANZ1AA90\nD,/AKLCDYA.AFN/FMHANZ1,.N12345,,2460004F23\nD,/AKLCDYA.AFN/FMHANZ1,.N12345,C81234,000000/FPON90001E000000,0/FCOADS,019A1A\nD,/GRND001.AFN/FMHANZ1,.N12345/FAK0/FARADS,05087\n",
            "line,1,refused,TEXT,20\nline,2,refused,TEXT,31\nline,3,refused,TEXT,51\nline,4,refused,TEXT,28\nend,4,4\n",
        ),
    ];
    for (lines, shown) in table {
        assert_eq!(rt;
            text_of(alloc, lines.as_bytes())?.as_slice(),
            shown.as_bytes(),
            "at {lines}"
        );
    }
    Ok(())
}

#[test]
fn long_lines(rt: HostRuntime) -> Result<(), Fail> {
    let alloc = rt.alloc();
    let ads = "D,/AKLCDYA.ADS.N12345";
    let afn = "D,/AKLCDYA.AFN";
    let uplink = "U,/AKLCDYA.ADS.N12345";
    let table: [(&str, usize, &str); 9] = [
        (ads, 536, "line,1,refused,LONG,533\nend,1,1\n"),
        (ads, 4_096, "line,1,refused,LONG,533\nend,1,1\n"),
        (ads, 4_097, "line,1,refused,LONG,4096\nend,1,1\n"),
        (afn, 274, "line,1,refused,LONG,271\nend,1,1\n"),
        (afn, 4_096, "line,1,refused,LONG,271\nend,1,1\n"),
        (uplink, 4_096, "line,1,refused,LONG,533\nend,1,1\n"),
        (uplink, 4_097, "line,1,refused,LONG,4096\nend,1,1\n"),
        ("hello", 4_096, "line,1,refused,FORM,0\nend,1,1\n"),
        ("hello", 4_097, "line,1,refused,LONG,4096\nend,1,1\n"),
    ];
    for (front, length, shown) in table {
        let mut line = Vec::from_slice(alloc, front.as_bytes())?;
        for _ in front.len()..length {
            line.push(b'0')?;
        }
        assert_eq!(rt;
            text_of(alloc, line.as_slice())?.as_slice(),
            shown.as_bytes(),
            "at {length}"
        );
    }
    Ok(())
}
