//! Words of the command line that have no listed form.
use super::*;

#[test]
fn other_words_read_and_write_nothing(rt: HostRuntime) -> Result<(), Fail> {
    let alloc = rt.alloc();
    let table: [&[&str]; 10] = [
        &[],
        &["run"],
        &["run", "0"],
        &["run", "6"],
        &["run", "01"],
        &["run", ""],
        &["run", "1", "1"],
        &["RUN", "1"],
        &["1", "run"],
        &["make", "07", "3"],
    ];
    for texts in table {
        let words = words_of(alloc, texts)?;
        let mut source = MemSource::new(alloc, HEAD.as_bytes(), 100, &[1])?;
        let mut sink = MemSink::new(alloc, 100, 100, &[])?;
        assert_eq!(rt;
            top(&rt, alloc, words.as_slice(), &mut source, &mut sink, &Free),
            Status::Words
        );
        assert_eq!(rt; source.faults(), 0);
        assert_eq!(rt; sink.written(), b"".as_slice());
    }
    Ok(())
}
