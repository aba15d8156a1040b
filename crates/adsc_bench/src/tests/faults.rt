//! Sources and sinks of which one call fails, at each call in turn.
use super::*;

/// How the program ends on these words, with a source of piece 1 of which this call fails, and what it writes. Only
/// that call may be counted as a fault, and only if it was made.
fn read_faultily<Rt: Threads + Wait + Sync>(
    rt: &Rt,
    alloc: Global,
    texts: &[&str],
    input: &[u8],
    call: u64,
) -> Result<(Status, Vec<u8>, u64), Fail> {
    let words = words_of(alloc, texts)?;
    let mut source = MemSource::new(alloc, input, 1, &[call])?;
    let mut sink = MemSink::new(alloc, 5_000, 5_000, &[])?;
    let status = top(rt, alloc, words.as_slice(), &mut source, &mut sink, &Free);
    Ok((status, sink.written().to_vec(alloc)?, source.faults()))
}

/// The same with a sink of piece 1 of which this call fails.
fn written_faultily<Rt: Threads + Wait + Sync>(
    rt: &Rt,
    alloc: Global,
    texts: &[&str],
    input: &[u8],
    call: u64,
) -> Result<(Status, Vec<u8>, u64), Fail> {
    let words = words_of(alloc, texts)?;
    let mut source = MemSource::new(alloc, input, 4_096, &[])?;
    let mut sink = MemSink::new(alloc, 5_000, 1, &[call])?;
    let status = top(rt, alloc, words.as_slice(), &mut source, &mut sink, &Free);
    Ok((status, sink.written().to_vec(alloc)?, sink.faults()))
}

#[test]
fn a_run_whose_read_fails_writes_nothing(rt: HostRuntime) -> Result<(), Fail> {
    let alloc = rt.alloc();
    let script = format!(in alloc; "{HEAD}{CENTRES}")?;
    // A call for each of the 174 bytes, and one that finds the end.
    for workers in ["1", "5"] {
        for call in 1..176 {
            let (status, written, faults) = read_faultily(
                &rt,
                alloc,
                &["run", workers],
                script.as_bytes(),
                call,
            )?;
            assert_eq!(rt; status, Status::ReadFault, "at call {call}");
            assert_eq!(rt; written.as_slice(), b"".as_slice(), "at call {call}");
            assert_eq!(rt; faults, 1);
        }
        let (status, written, faults) = read_faultily(
            &rt,
            alloc,
            &["run", workers],
            script.as_bytes(),
            176,
        )?;
        assert_eq!(rt; status, Status::Done);
        assert_eq!(rt; written.as_slice(), CENTRES_OUTPUT.as_bytes());
        assert_eq!(rt; faults, 0);
    }
    Ok(())
}

/// Three lines to be shown: an uplink, a downlink, and one that is neither.
const THREE_TEXTS: &str = "\
U,/AKLCDYA.ADS.N123450701BD4F
D,/AKLCDYA.ADS.N12345030107000000000000000000007E26
hello
";

/// After so many bytes, so much is written: the text of the lines that were wholly read.
const SHOWN_BY: [(usize, &str); 4] = [
    (0, ""),
    (30, "line,1,U,AKLCDYA,ADS,.N12345\nperiodic,1\n"),
    (
        82,
        "line,1,U,AKLCDYA,ADS,.N12345\nperiodic,1\nline,2,D,AKLCDYA,ADS,.N12345\nack,1\nreport,7,0,0,0,0,0,0,0\n",
    ),
    (
        88,
        "line,1,U,AKLCDYA,ADS,.N12345\nperiodic,1\nline,2,D,AKLCDYA,ADS,.N12345\nack,1\nreport,7,0,0,0,0,0,0,0\nline,3,refused,FORM,0\n",
    ),
];

#[test]
fn a_showing_whose_read_fails_shows_the_lines_before(rt: HostRuntime) -> Result<(), Fail> {
    let alloc = rt.alloc();
    let mut due = "";
    let mut bytes: usize = 0;
    // A call for each of the 88 bytes, and one that finds the end.
    for call in 1..90 {
        for (count, text) in SHOWN_BY {
            if count == bytes {
                due = text;
            }
        }
        let (status, written, faults) = read_faultily(
            &rt,
            alloc,
            &["show"],
            THREE_TEXTS.as_bytes(),
            call,
        )?;
        assert_eq!(rt; status, Status::ReadFault, "at call {call}");
        assert_eq!(rt; written.as_slice(), due.as_bytes(), "at call {call}");
        assert_eq!(rt; faults, 1);
        bytes = bytes.saturating_add(1);
    }
    let (status, written, faults) = read_faultily(
        &rt,
        alloc,
        &["show"],
        THREE_TEXTS.as_bytes(),
        90,
    )?;
    assert_eq!(rt; status, Status::Refused);
    assert_eq!(rt;
        written.as_slice(),
        format!(in alloc; "{due}end,3,1\n")?.as_bytes()
    );
    assert_eq!(rt; faults, 0);
    Ok(())
}

#[test]
fn what_was_written_before_a_failed_write_is_a_beginning_of_the_output(
    rt: HostRuntime,
) -> Result<(), Fail> {
    let alloc = rt.alloc();
    let centres = format!(in alloc; "{HEAD}{CENTRES}")?;
    let tick = format!(in alloc; "{HEAD}T,-1\n")?;
    let ask = format!(in alloc; "{HEAD}C,AKLCDYA,0700\n")?;
    let downlink = format!(in alloc; "{HEAD}L,AKLCDYA\nR,AKLCDYA,2\n")?;
    let shown = format!(in alloc; "{}end,3,1\n", SHOWN_BY[3].1)?;
    let run: &[&str] = &["run", "1"];
    let table: [(&[&str], &str, Status, &str); 7] = [
        (run, centres.as_str(), Status::Done, CENTRES_OUTPUT),
        (run, "", Status::BadLine, "J\nBAD,1,HEAD,0\n"),
        (run, tick.as_str(), Status::BadLine, "J\nBAD,4,FIELD,1\n"),
        (run, ask.as_str(), Status::BadLine, "J\nBAD,4,LOGON,0\n"),
        (
            run,
            downlink.as_str(),
            Status::BadLine,
            "J,4\nBAD,5,NUMBER,1\n",
        ),
        (&["show"], THREE_TEXTS, Status::Refused, shown.as_str()),
        (
            &["make", "1", "3"],
            "",
            Status::Done,
            "M,1,3,0,0\nM,GRND001,0,0,0000\nM,GRND002,0,0,0000\nM,GRND003,0,0,0000\nM,GRND004,0,0,0000\nM,GRND005,0,0,0000\nOK\n",
        ),
    ];
    for (words, input, due, output) in table {
        // A call for each byte of the output: the k-th fails behind k - 1 bytes.
        let mut call: u64 = 1;
        for length in 0..output.len() {
            let (status, written, faults) = written_faultily(
                &rt,
                alloc,
                words,
                input.as_bytes(),
                call,
            )?;
            assert_eq!(rt; status, Status::WriteFault, "at call {call} of {output}");
            assert_eq!(rt;
                written.as_slice(),
                &output.as_bytes()[..length],
                "at call {call}"
            );
            assert_eq!(rt; faults, 1);
            call = u64::saturating_add(call, 1);
        }
        let (status, written, faults) = written_faultily(
            &rt,
            alloc,
            words,
            input.as_bytes(),
            call,
        )?;
        assert_eq!(rt; status, due, "of {output}");
        assert_eq!(rt; written.as_slice(), output.as_bytes());
        assert_eq!(rt; faults, 0);
    }
    Ok(())
}
