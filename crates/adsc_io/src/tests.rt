//! Inputs and outputs from outside the proofs, and each call that takes memory once where memory is ample.
ghost use Rattle.std.specs.Prelude.{None};

use super::*;
use std::alloc::Global;
use std::test::Fail;

/// A source that never ends and gives one letter alone. It tells no bytes.
#[derive(Drop)]
struct Endless;

impl Source for Endless {
    ghost left = { λ _. None };

    ghost faults = { λ _. 0 };

    fn read(&mut self, buf: &mut [u8]) -> Result<usize, Failed> {
        buf.fill(b'A');
        Ok(buf.len())
    }
}

/// The answers of a reader to its first, or all, calls: each line with its newline, `!` for a line that is too long, and `.` for the end.
fn answers<S: Source>(alloc: Global, source: &mut S, calls: u32) -> Result<Vec<u8>, Fail> {
    let mut reader = LineReader::new(alloc)?;
    let mut answers = Vec::new(alloc);
    for _ in 0..calls {
        match reader.next(source) {
            Ok(Line::Text) => {
                answers.extend_from_slice(reader.text())?;
                answers.push(b'\n')?;
            }
            Ok(Line::TooLong) => answers.push(b'!')?,
            Ok(Line::End) => answers.push(b'.')?,
            Ok(Line::Limit { .. }) => answers.push(b'#')?,
            Err(ReadFault) => answers.push(b'?')?,
        }
    }
    Ok(answers)
}

#[test]
fn lines_of_inputs(rt: HostRuntime) -> Result<(), Fail> {
    let alloc = rt.alloc();
    let table: [(&str, u32, &str); 8] = [
        ("", 2, ".."),
        ("\n", 2, "\n."),
        ("T,0", 2, "T,0\n."),
        ("T,0\n", 2, "T,0\n."),
        ("T,0\nT,1", 4, "T,0\nT,1\n.."),
        ("T,0\n\nT,1\n", 4, "T,0\n\nT,1\n."),
        ("\n\n", 3, "\n\n."),
        ("A\r\nG", 3, "A\r\nG\n."),
    ];
    for (input, calls, found) in table {
        for piece in [1, 2, 4_096] {
            let mut source = SteadySource::new(alloc, input.as_bytes(), piece)?;
            assert_eq!(rt;
                answers(alloc, &mut source, calls)?.as_slice(),
                found.as_bytes(),
                "at {input}"
            );
        }
    }
    Ok(())
}

#[test]
fn lines_on_either_side_of_the_limit_of_a_line(rt: HostRuntime) -> Result<(), Fail> {
    let alloc = rt.alloc();
    for (length, short) in [
        (4_095, true),
        (4_096, true),
        (4_097, false),
        (40_000, false),
    ] {
        let mut line = Vec::new(alloc);
        for _ in 0..length {
            line.push(b'A')?;
        }
        line.push(b'\n')?;
        let mut found = if short {
            line.clone()?
        } else {
            Vec::from_slice(alloc, b"!")?
        };
        line.extend_from_slice(b"T,0")?;
        found.extend_from_slice(b"T,0\n.")?;
        for piece in [1, 2, 4_096] {
            let mut source = SteadySource::new(alloc, line.as_slice(), piece)?;
            assert_eq!(rt;
                answers(alloc, &mut source, 3)?.as_slice(),
                found.as_slice()
            );
        }
    }
    Ok(())
}

#[test]
fn reading_goes_on_after_faults(rt: HostRuntime) -> Result<(), Fail> {
    let alloc = rt.alloc();
    let table: [(&[u64], usize, &str); 4] = [
        (&[1], 100, "?ab\ncd\n."),
        (&[1, 2, 4], 2, "???ab\n"),
        (&[2], 4, "ab\n?cd\n."),
        (&[3], 100, "ab\ncd\n.."),
    ];
    for (fails, piece, found) in table {
        let mut source = MemSource::new(alloc, b"ab\ncd", piece, fails)?;
        assert_eq!(rt;
            answers(alloc, &mut source, 4)?.as_slice(),
            &found.as_bytes()[..],
            "at piece {piece}"
        );
    }
    Ok(())
}

#[test]
fn the_limit_of_lines(rt: HostRuntime) -> Result<(), Fail> {
    let alloc = rt.alloc();
    let mut input = Vec::new(alloc);
    for _ in 0..200_000 {
        input.extend_from_slice(b"x\n")?;
    }
    for (more, answer) in [
        ("", Line::End),
        ("\n", Line::Limit { line: 200_001 }),
        ("y", Line::Limit { line: 200_001 }),
    ] {
        let mut bytes = input.clone()?;
        bytes.extend_from_slice(more.as_bytes())?;
        let mut source = SteadySource::new(alloc, bytes.as_slice(), 30_000)?;
        let mut reader = LineReader::new(alloc)?;
        for _ in 0..200_000 {
            assert_eq!(rt; reader.next(&mut source), Ok(Line::Text));
        }
        assert_eq!(rt; reader.number(), 200_000);
        assert_eq!(rt; reader.next(&mut source), Ok(answer));
        assert_eq!(rt; reader.next(&mut source), Ok(answer));
    }
    Ok(())
}

#[test]
fn the_limit_of_bytes(rt: HostRuntime) -> Result<(), Fail> {
    let mut reader = LineReader::new(rt.alloc())?;
    for _ in 0..2 {
        assert_eq!(rt; reader.next(&mut Endless), Ok(Line::Limit { line: 1 }));
    }
    Ok(())
}

#[test]
fn bytes_pass_in_pieces(rt: HostRuntime) -> Result<(), Fail> {
    let alloc = rt.alloc();
    let text: &[u8] = b"A,GRND001\nS,0";
    for piece in [1, 2, 4_096] {
        let mut source = MemSource::new(alloc, text, piece, &[])?;
        assert_eq!(rt;
            answers(alloc, &mut source, 3)?.as_slice(),
            b"A,GRND001\nS,0\n.".as_slice()
        );
        assert_eq!(rt; source.faults(), 0);

        let mut sink = MemSink::new(alloc, text.len(), piece, &[])?;
        assert_eq!(rt; write_all(&mut sink, text), Ok(()));
        assert_eq!(rt; sink.written(), text);
        assert_eq!(rt; sink.faults(), 0);
    }
    Ok(())
}

#[test]
fn writes_that_fail_in_mid_stream(rt: HostRuntime) -> Result<(), Fail> {
    // The second write fails, or the third finds no room.
    let writes: [(usize, &[u64], &[u8]); 2] = [(6, &[2], b"ab"), (3, &[], b"abc")];
    for (room, fails, written) in writes {
        let mut sink = MemSink::new(rt.alloc(), room, 2, fails)?;
        assert_eq!(rt; write_all(&mut sink, b"abcdef"), Err(WriteFault));
        assert_eq!(rt; sink.written(), written);
        assert_eq!(rt; sink.faults(), 1);
    }
    Ok(())
}

#[test]
fn standard_readers_and_writers(rt: HostRuntime) -> Result<(), Fail> {
    let alloc = rt.alloc();
    let text: &[u8] = b"A,GRND001\nS,0";
    let mut source = StdSource::new(text);
    assert_eq!(rt;
        answers(alloc, &mut source, 3)?.as_slice(),
        b"A,GRND001\nS,0\n.".as_slice()
    );

    let mut sink = StdSink::new(Vec::new(alloc));
    assert_eq!(rt; write_all(&mut sink, text), Ok(()));
    Ok(())
}
