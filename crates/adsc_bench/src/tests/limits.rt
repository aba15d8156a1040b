//! The limits of lines, of bytes, and of a line's length.
ghost use Rattle.std.specs.Prelude.{None};

use super::*;
use adsc_io::{Failed, Source};

#[test]
fn the_limit_ends_a_run(rt: HostRuntime) -> Result<(), Fail> {
    let alloc = rt.alloc();
    let refused = repeated(alloc, "U,x\n", 199_996)?;
    let script = format!(in alloc; "{HEAD}U,/AKLCDYA.ADS.N123450701BD4F\n{refused}T,-1")?;
    let output = "J,4\nLIMIT,200001\n";
    let (status, written) = played(&rt, alloc, &["run", "2"], script.as_bytes(), 1_007)?;
    assert_eq!(rt; status, Status::Limit);
    assert_eq!(rt; written.as_slice(), output.as_bytes());

    // Where a write fails, the script that is over the limit ends with that.
    let words = words_of(alloc, &["run", "1"])?;
    for (call, count) in [(1, 0), (7, 6), (17, 16)] {
        let mut source = MemSource::new(alloc, script.as_bytes(), 4_096, &[])?;
        let mut sink = MemSink::new(alloc, 100, 1, &[call])?;
        let status = top(&rt, alloc, words.as_slice(), &mut source, &mut sink, &Free);
        assert_eq!(rt; status, Status::WriteFault);
        assert_eq!(rt; sink.written(), &output.as_bytes()[..count]);
        assert_eq!(rt; sink.faults(), 1);
    }
    Ok(())
}

#[test]
fn the_limit_ends_a_showing(rt: HostRuntime) -> Result<(), Fail> {
    let alloc = rt.alloc();
    let lines = repeated(alloc, "x\n", 200_000)?;
    let table: [(&str, Status, &str); 2] = [
        ("", Status::Refused, "end,200000,200000\n"),
        ("U,/AKLCDYA", Status::Limit, "line,200000,refused,FORM,0\n"),
    ];
    for (more, due, last) in table {
        let input = format!(in alloc; "{lines}{more}")?;
        let mut source = MemSource::new(alloc, input.as_bytes(), 8_192, &[])?;
        let mut sink = MemSink::new(alloc, 6_000_000, 6_000_000, &[])?;
        let status = show(alloc, &mut source, &mut sink);
        assert_eq!(rt; status, due);
        assert!(rt; sink.written().ends_with(last.as_bytes()));
    }
    Ok(())
}

/// A source that never ends: it gives the letter A alone. It tells no bytes.
#[derive(Drop)]
struct Endless;

impl Source for Endless {
    ghost left = { λ _. None };

    ghost faults = { λ _. 0 };

    fn read(&mut self, buf: &mut [u8]) -> Result<usize, Failed> {
        buf.fill(b'A');
        Ok(buf.len())
    }
}

#[test]
fn an_input_without_an_end_meets_the_limit_of_bytes(rt: HostRuntime) -> Result<(), Fail> {
    let alloc = rt.alloc();
    let table: [(&[&str], &str); 2] = [(&["run", "1"], "J\nLIMIT,1\n"), (&["show"], "")];
    for (texts, output) in table {
        let words = words_of(alloc, texts)?;
        let mut sink = MemSink::new(alloc, 100, 100, &[])?;
        let status = top(&rt, alloc, words.as_slice(), &mut Endless, &mut sink, &Free);
        assert_eq!(rt; status, Status::Limit);
        assert_eq!(rt; sink.written(), output.as_bytes());
    }
    Ok(())
}

/// These pieces, one behind the other.
fn joined(alloc: Global, pieces: &[&[u8]]) -> Result<Vec<u8>, Fail> {
    let mut whole = Vec::new(alloc);
    for piece in pieces {
        whole.extend_from_slice(piece)?;
    }
    Ok(whole)
}

#[test]
fn long_lines_are_bad(rt: HostRuntime) -> Result<(), Fail> {
    let alloc = rt.alloc();
    let letters = repeated(alloc, "A", 5_000)?;
    let filling = repeated(alloc, "A", 4_094)?;
    let most = filling.as_bytes();
    let table: [(&str, &[u8], Status, &str); 4] = [
        // A line of letters in place of the head, and a line of one.
        (
            "",
            letters.as_bytes(),
            Status::BadLine,
            "J\nBAD,1,LONG,4096\n",
        ),
        ("", b"B", Status::BadLine, "J\nBAD,1,HEAD,0\n"),
        // A text that fills a line of 4,096 bytes, and one with a byte more.
        (
            "U,",
            most,
            Status::Done,
            "J\nL,AKLCDYA,none\nX,4,SLASH,0\nOK\n",
        ),
        ("U,A", most, Status::BadLine, "J\nBAD,4,LONG,4096\n"),
    ];
    for (before, line, due, output) in table {
        let head = if before.is_empty() { "" } else { HEAD };
        let input = joined(alloc, &[head.as_bytes(), before.as_bytes(), line, b"\n"])?;
        for piece in [1, 1_007, 4_096] {
            let (status, written) = played(&rt, alloc, &["run", "1"], input.as_slice(), piece)?;
            assert_eq!(rt; status, due, "at {output}");
            assert_eq!(rt; written.as_slice(), output.as_bytes());
        }
    }
    Ok(())
}

#[test]
fn long_lines_are_shown_refused(rt: HostRuntime) -> Result<(), Fail> {
    let alloc = rt.alloc();
    let letters = repeated(alloc, "A", 5_000)?;
    let filling = repeated(alloc, "A", 4_094)?;
    let most = filling.as_bytes();
    let table: [(&str, &[u8], &str, &str); 3] = [
        ("U,", most, "", "line,1,refused,SLASH,0\nend,1,1\n"),
        ("U,A", most, "", "line,1,refused,LONG,4096\nend,1,1\n"),
        (
            "",
            letters.as_bytes(),
            "\nhello",
            "line,1,refused,LONG,4096\nline,2,refused,FORM,0\nend,2,2\n",
        ),
    ];
    for (before, line, behind, output) in table {
        let input = joined(alloc, &[before.as_bytes(), line, behind.as_bytes()])?;
        for piece in [1, 1_007, 4_096] {
            let (status, written) = played(&rt, alloc, &["show"], input.as_slice(), piece)?;
            assert_eq!(rt; status, Status::Refused, "at {output}");
            assert_eq!(rt; written.as_slice(), output.as_bytes());
        }
    }
    Ok(())
}
