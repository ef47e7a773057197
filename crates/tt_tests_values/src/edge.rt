//! Sources and sinks: that the calls succeed with ample memory, and the adapters over std's streams.

use std::alloc::Global;
use std::io;
use std::io::{Read, Write};
use std::process::Abort;
use std::test::Fail;
use tt_edge::{
    Failed, MemorySink, MemorySource, Sink, Source, StdSink, StdSource, Unfinished, Unread,
    Unwritten, read_all, write_all,
};

const TEXT: &[u8] = b"abcdefg";

// A source of the text that gives `limit` bytes a call and fails the calls of these numbers.
fn source_of(
    rt: &impl Abort,
    alloc: Global,
    text: &[u8],
    limit: usize,
    fail: &[u64],
) -> Result<MemorySource, Fail> {
    assert!(rt; limit > 0);
    let bytes = Vec::from_slice(alloc, text)?;
    let fail = Vec::from_slice(alloc, fail)?;
    Ok(MemorySource::with_limit(bytes, fail, limit))
}

fn sink_of(rt: &impl Abort, alloc: Global, limit: usize, fail: &[u64]) -> Result<MemorySink, Fail> {
    assert!(rt; limit > 0);
    Ok(MemorySink::with_limit(alloc, Vec::from_slice(alloc, fail)?, limit))
}

#[test]
fn an_input_is_read_to_its_end_up_to_the_most(rt: HostRuntime) -> Result<(), Fail> {
    // Bytes a call, bytes at most, and whether the seven bytes are read.
    let table = [
        (1, 7, true),
        (2, 7, true),
        (7, 7, true),
        (100, 7, true),
        (3, 1000, true),
        (1, 6, false),
        (4, 6, false),
        (100, 6, false),
        (100, 0, false),
    ];
    for (limit, most, is_read) in table {
        let mut source = source_of(&rt, rt.alloc(), TEXT, limit, &[])?;
        match read_all(rt.alloc(), &mut source, most) {
            Ok(bytes) => {
                assert!(rt; is_read, "{limit} {most}");
                assert_eq!(rt; bytes.as_slice(), TEXT);
                assert!(rt; source.rest().is_empty());
            }
            Err(e) => {
                assert!(rt; !is_read, "{limit} {most}");
                assert!(rt; e == Unread::TooLong);
            }
        }
        assert_eq!(rt; source.faults(), 0);
    }
    Ok(())
}

#[test]
fn an_empty_input_is_read_in_one_call(rt: HostRuntime) -> Result<(), Fail> {
    for most in [0, 1, 67_108_864] {
        let mut source = MemorySource::new(Vec::new(rt.alloc()), Vec::new(rt.alloc()));
        let bytes = read_all(rt.alloc(), &mut source, most)
            .ok()
            .ok_or("not read")?;
        assert!(rt; bytes.is_empty());
        assert_eq!(rt; source.calls(), 1);
    }
    Ok(())
}

#[test]
fn a_long_input_is_read_in_many_pieces(rt: HostRuntime) -> Result<(), Fail> {
    let mut text = Vec::new(rt.alloc());
    for i in 0..200_000u32 {
        text.push((i % 251) as u8)?;
    }
    for limit in [1, 1000, 65_536, 65_537, 1_000_000] {
        let mut source = source_of(&rt, rt.alloc(), text.as_slice(), limit, &[])?;
        let bytes = read_all(rt.alloc(), &mut source, 200_000)
            .ok()
            .ok_or("not read")?;
        assert!(rt; bytes.as_slice() == text.as_slice(), "{limit}");
    }
    Ok(())
}

#[test]
fn each_failed_read_is_a_fault(rt: HostRuntime) -> Result<(), Fail> {
    // With 3 bytes a call the seven bytes take three reads, and a fourth finds the end.
    for (call, left) in [(0, 7), (1, 4), (2, 1), (3, 0)] {
        let mut source = source_of(&rt, rt.alloc(), TEXT, 3, &[call])?;
        let answer = read_all(rt.alloc(), &mut source, 7).err();
        assert!(rt; answer == Some(Unread::Failed));
        assert_eq!(rt; source.faults(), 1);
        assert_eq!(rt; source.rest().len(), left);
    }
    let mut source = source_of(&rt, rt.alloc(), TEXT, 3, &[4, 9])?;
    assert!(rt; read_all(rt.alloc(), &mut source, 7).is_ok());
    assert_eq!(rt; source.calls(), 4);
    Ok(())
}

#[test]
fn bytes_are_written_over_short_writes(rt: HostRuntime) -> Result<(), Fail> {
    for (limit, calls) in [(1, 7), (2, 4), (6, 2), (7, 1), (100, 1)] {
        let mut sink = sink_of(&rt, rt.alloc(), limit, &[])?;
        assert!(rt; write_all(&mut sink, TEXT) == Ok(()));
        assert_eq!(rt; sink.bytes(), TEXT);
        assert_eq!(rt; sink.calls(), calls);
        assert!(rt; write_all(&mut sink, &[]) == Ok(()));
        assert_eq!(rt; sink.calls(), calls, "an empty slice takes no call");
    }
    let mut sink = MemorySink::new(rt.alloc(), Vec::new(rt.alloc()));
    assert!(rt; write_all(&mut sink, TEXT) == Ok(()));
    assert!(rt; write_all(&mut sink, b"hi") == Ok(()));
    assert_eq!(rt; sink.bytes(), b"abcdefghi".as_slice());
    Ok(())
}

#[test]
fn each_failed_write_leaves_a_prefix(rt: HostRuntime) -> Result<(), Fail> {
    for (call, written) in [(0, 0), (1, 3), (2, 6)] {
        let mut sink = sink_of(&rt, rt.alloc(), 3, &[call])?;
        let why = Unwritten::Failed;
        assert!(rt; write_all(&mut sink, TEXT) == Err(Unfinished { why, written }));
        assert_eq!(rt; sink.bytes().len(), written);
        assert_eq!(rt; sink.faults(), 1);
    }
    Ok(())
}

// Gives one byte a call, and fails the second call.
#[derive(Drop)]
struct Halting {
    calls: u8,
}

impl Halting {
    fn turn(&mut self) -> io::Result<usize> {
        self.calls = self.calls.saturating_add(1);
        if self.calls == 2 {
            return Err(io::Error::from(io::ErrorKind::BrokenPipe));
        }
        Ok(1)
    }
}

impl Read for Halting {
    fn read(&mut self, buf: &mut [u8]) -> io::Result<usize> {
        let count = self.turn()?;
        match buf.first_mut() {
            Some(byte) => {
                *byte = b'x';
                Ok(count.min(1))
            }
            None => Ok(0),
        }
    }
}

impl Write for Halting {
    fn write(&mut self, buf: &[u8]) -> io::Result<usize> {
        Ok(self.turn()?.min(buf.len()))
    }

    fn flush(&mut self) -> io::Result<()> {
        Ok(())
    }
}

#[test]
fn a_reader_is_a_source(rt: HostRuntime) -> Result<(), Fail> {
    let mut source = StdSource::new(TEXT);
    let bytes = read_all(rt.alloc(), &mut source, 7).ok().ok_or("not read")?;
    assert_eq!(rt; bytes.as_slice(), TEXT);
    assert_eq!(rt; source.faults(), 0);

    let mut source = StdSource::new(Halting { calls: 0 });
    let answer = read_all(rt.alloc(), &mut source, 7).err();
    assert!(rt; answer == Some(Unread::Failed));
    assert_eq!(rt; source.faults(), 1);
    Ok(())
}

#[test]
fn a_writer_is_a_sink(rt: HostRuntime) -> Result<(), Fail> {
    let mut sink = StdSink::new(Vec::new(rt.alloc()));
    assert!(rt; write_all(&mut sink, TEXT) == Ok(()));
    assert_eq!(rt; sink.faults(), 0);

    let mut sink = StdSink::new(Halting { calls: 0 });
    let (why, written) = (Unwritten::Failed, 1);
    assert!(rt; write_all(&mut sink, TEXT) == Err(Unfinished { why, written }));
    assert_eq!(rt; sink.faults(), 1);
    assert!(rt; sink.write(b"a") == Ok(1), "it goes on after a fault");
    Ok(())
}

// Takes no byte, or takes all and fails to flush them.
#[derive(Drop)]
struct Stuck {
    takes_all: bool,
}

impl Write for Stuck {
    fn write(&mut self, buf: &[u8]) -> io::Result<usize> {
        Ok(if self.takes_all { buf.len() } else { 0 })
    }

    fn flush(&mut self) -> io::Result<()> {
        if self.takes_all {
            return Err(io::Error::from(io::ErrorKind::BrokenPipe));
        }
        Ok(())
    }
}

#[test]
fn no_byte_taken_and_no_flush_are_faults(rt: HostRuntime) {
    for takes_all in [false, true] {
        let mut sink = StdSink::new(Stuck { takes_all });
        assert!(rt; sink.write(b"a") == Err(Unwritten::Failed), "{takes_all}");
        assert_eq!(rt; sink.faults(), 1);
    }
}

#[test]
fn a_call_of_a_listed_number_fails(rt: HostRuntime) -> Result<(), Fail> {
    let mut source = source_of(&rt, rt.alloc(), TEXT, 2, &[1, 3])?;
    let mut piece = [0; 4];
    for want in [Ok(2), Err(Failed), Ok(2), Err(Failed), Ok(2), Ok(1), Ok(0)] {
        assert!(rt; source.read(&mut piece) == want);
    }
    assert_eq!(rt; piece, *b"gf\0\0");
    assert_eq!(rt; source.faults(), 2);
    Ok(())
}
