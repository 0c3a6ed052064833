//! Values worked out by hand.
use super::*;
use std::alloc::Global;
use std::io::{self, Error, ErrorKind, Read, Write};
use std::test::Fail;

// The source "abc" that gives a byte a read.
fn letters(alloc: Global, fails: Fails) -> Result<MemSource, Fail> {
    let bytes = Vec::from_slice(alloc, b"abc")?;
    Ok(MemSource::of(bytes, 1, fails))
}

fn single(alloc: Global, call: u64) -> Result<Fails, Fail> {
    let at = Vec::from_slice(alloc, &[call])?;
    Ok(Fails { at, from: None })
}

fn from(alloc: Global, first: u64) -> Fails {
    Fails {
        at: Vec::new(alloc),
        from: Some(first),
    }
}

#[test]
fn a_source_gives_its_bytes_and_fails_where_named(rt: HostRuntime) -> Result<(), Fail> {
    let alloc = rt.alloc();
    let cases = [
        (Fails::never(alloc), [Ok(1), Ok(1), Ok(1), Ok(0), Ok(0)]),
        (single(alloc, 2)?, [Ok(1), Err(Failed), Ok(1), Ok(1), Ok(0)]),
        (
            from(alloc, 4),
            [Ok(1), Ok(1), Ok(1), Err(Failed), Err(Failed)],
        ),
    ];
    for (fails, answers) in cases {
        let mut source = letters(alloc, fails)?;
        for answer in answers {
            assert_eq!(rt; source.read(&mut [0; 2]), answer);
        }
    }
    Ok(())
}

#[test]
fn a_sink_takes_all_and_fails_where_named(rt: HostRuntime) -> Result<(), Fail> {
    let alloc = rt.alloc();
    let mut sink = MemSink::of(alloc, single(alloc, 1)?);
    assert_eq!(rt; sink.write(b"ab"), Err(Failed));
    assert_eq!(rt; sink.write(b"cd"), Ok(2));
    assert_eq!(rt; write_all(&mut sink, b"ef"), Ok(()));
    assert_eq!(rt; sink.bytes(), b"cdef".as_slice());
    assert_eq!(rt; sink.refused(), 0);
    Ok(())
}

#[test]
fn a_read_stops_one_byte_past_the_limit(rt: HostRuntime) -> Result<(), Fail> {
    let alloc = rt.alloc();
    for (limit, text) in [(1, "ab"), (2, "abc"), (9, "abc")] {
        let mut source = letters(alloc, Fails::never(alloc))?;
        let read = read_up_to(alloc, &mut source, limit)?;
        assert_eq!(rt; read.as_slice(), text.as_bytes(), "at {limit}");
    }
    let mut failing = letters(alloc, single(alloc, 3)?)?;
    match read_up_to(alloc, &mut failing, 9) {
        Ok(_) => assert!(rt; false, "a failed read gave a text"),
        Err(fault) => assert_eq!(rt; fault, ReadFault::Failed),
    }
    Ok(())
}

#[test]
fn readers_and_writers_of_std_serve(rt: HostRuntime) -> Result<(), Fail> {
    let alloc = rt.alloc();
    let mut source = StdSource::of(b"abc".as_slice());
    let read = read_up_to(alloc, &mut source, 9)?;
    let mut written = Vec::new(alloc);
    let mut sink = StdSink::of(&mut written);
    assert_eq!(rt; write_all(&mut sink, read.as_slice()), Ok(()));
    assert_eq!(rt; written.as_slice(), b"abc".as_slice());
    let mut room = [0; 2];
    let mut full = StdSink::of(room.as_mut_slice());
    assert_eq!(rt; full.write(b"abc"), Ok(2));
    assert_eq!(rt; full.write(b"c"), Err(Failed));
    Ok(())
}

// A reader or a writer that a signal interrupts at its first and third call, and that fails at its
// fourth: calls 2 and 5 are done.
#[derive(Drop)]
struct Shaky {
    calls: u32,
}

impl Shaky {
    fn call(&mut self) -> io::Result<()> {
        self.calls = self.calls.saturating_add(1);
        match self.calls {
            1 | 3 => Err(Error::from(ErrorKind::Interrupted)),
            4 => Err(Error::from(ErrorKind::BrokenPipe)),
            _ => Ok(()),
        }
    }
}

impl Read for Shaky {
    fn read(&mut self, buffer: &mut [u8]) -> io::Result<usize> {
        self.call()?;
        match buffer {
            [first, ..] => {
                *first = b'a';
                Ok(1)
            }
            [] => Ok(0),
        }
    }
}

impl Write for Shaky {
    fn write(&mut self, buffer: &[u8]) -> io::Result<usize> {
        self.call()?;
        Ok(buffer.len())
    }

    fn flush(&mut self) -> io::Result<()> {
        Ok(())
    }
}

#[test]
fn an_interrupted_call_is_made_again_and_a_failed_one_is_not(rt: HostRuntime) -> Result<(), Fail> {
    let mut source = StdSource::of(Shaky { calls: 0 });
    let mut sink = StdSink::of(Shaky { calls: 0 });
    for answer in [Ok(1), Err(Failed), Ok(1)] {
        assert_eq!(rt; source.read(&mut [0; 2]), answer);
        assert_eq!(rt; sink.write(b"b"), answer);
    }
    Ok(())
}

// The longest input that a program reads, 64 MiB and a byte past it: with memory at hand neither a
// read nor a write is refused for its size.
#[test]
fn the_longest_text_passes(rt: HostRuntime) -> Result<(), Fail> {
    let alloc = rt.alloc();
    let limit = 67_108_864;
    let bytes = vec![in alloc; b'a'; limit + 1]?;
    let mut source = MemSource::of(bytes, 65_536, Fails::never(alloc));
    let text = read_up_to(alloc, &mut source, limit)?;
    assert_eq!(rt; text.len(), limit + 1);
    let mut sink = MemSink::of(alloc, Fails::never(alloc));
    for _ in 0..2 {
        assert_eq!(rt; write_all(&mut sink, text.as_slice()), Ok(()));
    }
    assert_eq!(rt; sink.bytes().len(), 2 * (limit + 1));
    assert_eq!(rt; sink.refused(), 0);
    Ok(())
}
