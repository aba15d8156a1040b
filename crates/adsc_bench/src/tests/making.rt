//! Generated scripts. The texts were made by another program, from the tables of the formats.
use super::*;

/// The status of `make` with these words behind it, over a source that can't be read and a sink of which these writes
/// fail, and what was written. A write takes 40 bytes.
fn make_of<Rt: Threads + Wait + Sync>(
    rt: &Rt,
    alloc: Global,
    texts: &[&str],
    writes: &[u64],
) -> Result<(Status, Vec<u8>), Fail> {
    let words = words_of(alloc, texts)?;
    let mut source = MemSource::new(alloc, HEAD.as_bytes(), 100, &[1])?;
    let mut sink = MemSink::new(alloc, 1_000, 40, writes)?;
    let status = top(rt, alloc, words.as_slice(), &mut source, &mut sink, &Free);
    if source.faults() > 0 {
        return Err(Fail::new("a read of the source"));
    }
    Ok((status, sink.written().to_vec(alloc)?))
}

#[test]
fn generated_scripts_are_summarized(rt: HostRuntime) -> Result<(), Fail> {
    let alloc = rt.alloc();
    // Numbers and counts that are within the limits, and some that aren't, or that aren't written as they should be.
    let table: [(&[&str], Status, &str); 13] = [
        (
            &["make", "1", "3"],
            Status::Done,
            "M,1,3,0,0\nM,GRND001,0,0,0000\nM,GRND002,0,0,0000\nM,GRND003,0,0,0000\nM,GRND004,0,0,0000\nM,GRND005,0,0,0000\nOK\n",
        ),
        (
            &["make", "4294967295", "3"],
            Status::Done,
            "M,4294967295,3,0,0\nM,GRND001,0,0,0000\nM,GRND002,0,0,0000\nM,GRND003,0,0,0000\nM,GRND004,0,0,0000\nM,GRND005,0,0,0000\nOK\n",
        ),
        (&["make"], Status::Words, ""),
        (&["make", "1"], Status::Words, ""),
        (&["make", "07", "3"], Status::Words, ""),
        (&["make", "+7", "3"], Status::Words, ""),
        (&["make", "4294967296", "3"], Status::Words, ""),
        (&["make", "", "3"], Status::Words, ""),
        (&["make", "1", "2"], Status::Words, ""),
        (&["make", "1", "03"], Status::Words, ""),
        (&["make", "1", "200001"], Status::Words, ""),
        (&["make", "1", "3", "5"], Status::Words, ""),
        (&["MAKE", "1", "3"], Status::Words, ""),
    ];
    for (texts, due, output) in table {
        let (status, written) = make_of(&rt, alloc, texts, &[])?;
        assert_eq!(rt; status, due);
        assert_eq!(rt; written.as_slice(), output.as_bytes());
    }

    // Two runs give the same bytes, and each line behind the head makes an entry.
    let (status, first) = make_of(&rt, alloc, &["make", "7", "2000"], &[])?;
    let (_, second) = make_of(&rt, alloc, &["make", "7", "2000"], &[])?;
    assert_eq!(rt; status, Status::Done);
    assert!(rt; first.starts_with(b"M,7,2000,1997,"));
    assert_eq!(rt; first.as_slice(), second.as_slice());

    // The second write fails.
    let (status, written) = make_of(&rt, alloc, &["make", "1", "3"], &[2])?;
    assert_eq!(rt; status, Status::WriteFault);
    assert_eq!(rt;
        written.as_slice(),
        b"M,1,3,0,0\nM,GRND001,0,0,0000\nM,GRND002,0".as_slice()
    );
    Ok(())
}
