use crate::{
    Disk, DiskError, Failed, LIMIT, MemoryDisk, MemorySink, MemorySource, ReadError, Sink, Source,
    StdDisk, StdSink, StdSource, SureSink, SureSource, read_all, write_all,
};
use std::alloc::Global;
use std::io;
use std::process::Abort;

// A writer that takes nothing.
#[derive(Drop)]
struct Stubborn;

impl io::Write for Stubborn {
    fn write(&mut self, _: &[u8]) -> io::Result<usize> {
        Ok(0)
    }

    fn flush(&mut self) -> io::Result<()> {
        Ok(())
    }
}

#[test]
fn source_in_memory(rt: HostRuntime) {
    let mut byte = [0u8; 4];
    let mut source = MemorySource::new(b"abc", &[1, 4], 1);
    for answer in [Ok(1), Err(Failed), Ok(1), Ok(1), Err(Failed), Ok(0)] {
        assert_eq!(rt; source.read(&mut byte), answer);
    }
    assert_eq!(rt; byte[0], b'c');
}

#[test]
fn sink_in_memory(rt: HostRuntime) {
    let mut room = [0u8; 2];
    let mut sink = MemorySink::new(&mut room, &[1], 1);
    for answer in [Ok(1), Err(Failed), Ok(1), Err(Failed), Err(Failed)] {
        assert_eq!(rt; sink.write(b"xyz"), answer);
    }
    assert_eq!(rt; sink.write(b""), Ok(0));
    assert_eq!(rt; sink.written(), b"xx".as_slice());
}

const TEXT: &[u8] = b"a text in several pieces";

#[test]
fn whole_inputs(rt: HostRuntime) {
    for piece in 1..4 {
        let mut source = MemorySource::new(TEXT, &[], piece);
        let read = read_all(rt.alloc(), &mut source);
        assert!(rt; read.is_ok_and(|bytes| bytes.as_slice() == TEXT));
    }
    let mut failing = MemorySource::new(TEXT, &[3], 2);
    let read = read_all(rt.alloc(), &mut failing);
    assert_eq!(rt; read.err(), Some(ReadError::Failed));
}

#[test]
fn whole_outputs(rt: HostRuntime) {
    for (room, answer) in [(24, Ok(())), (10, Err(Failed))] {
        let mut bytes = [0u8; 24];
        let mut sink = SureSink::new(&mut bytes[..room]);
        assert_eq!(rt; write_all(&mut sink, TEXT), answer);
        assert_eq!(rt; sink.written(), &TEXT[..room]);
    }
    for piece in 1..4 {
        let mut room = [0u8; 30];
        let mut sink = MemorySink::new(&mut room, &[], piece);
        assert_eq!(rt; write_all(&mut sink, TEXT), Ok(()));
        assert_eq!(rt; sink.written(), TEXT);
    }
}

fn sevens(rt: &impl Abort, alloc: Global, count: usize) -> Vec<u8> {
    let sevens = vec![in alloc; 7u8; count];
    sevens.expect(rt, "memory")
}

#[test]
fn limit_of_an_input(rt: HostRuntime) {
    for (count, error) in [(LIMIT, None), (LIMIT + 1, Some(ReadError::TooLong))] {
        let bytes = sevens(&rt, rt.alloc(), count);
        let mut source = SureSource::new(&bytes);
        assert_eq!(rt; read_all(rt.alloc(), &mut source).err(), error);
    }
}

#[test]
fn limit_of_a_file(rt: HostRuntime) {
    for (count, error) in [(LIMIT, None), (LIMIT + 1, Some(DiskError::TooLong))] {
        let mut disk = MemoryDisk::new(rt.alloc(), Vec::new(rt.alloc()));
        let bytes = sevens(&rt, rt.alloc(), count);
        assert_eq!(rt; disk.write_file("long", &bytes), Ok(()));
        assert_eq!(rt; disk.read_file(rt.alloc(), "long").err(), error);
    }
}

#[test]
fn standard_output(rt: HostRuntime) {
    let mut out = StdSink::new(io::writer(&rt));
    assert_eq!(rt; out.write(b""), Ok(0));
    assert_eq!(rt;
        write_all(&mut out, b"written through the adapter\n"),
        Ok(())
    );
    let mut stubborn = StdSink::new(Stubborn);
    assert_eq!(rt; stubborn.write(b"x"), Err(Failed));
    assert_eq!(rt; stubborn.write(b""), Ok(0));
}

#[test]
fn standard_input(rt: HostRuntime) {
    let mut none = [0u8; 0];
    let mut input = StdSource::new(rt.reader());
    assert_eq!(rt; input.read(&mut none), Ok(0));
}

// A script of five calls: write, read, read of no file, write of nothing, read. Call number `failing` fails.
fn script(
    alloc: Global,
    failing: Vec<u64>,
) -> (
    Option<DiskError>,
    Option<DiskError>,
    Option<DiskError>,
    Option<DiskError>,
    Option<DiskError>,
) {
    let mut disk = MemoryDisk::new(alloc, failing);
    let written = disk.write_file("a", b"one").err();
    let read = disk.read_file(alloc, "a").err();
    let missing = disk.read_file(alloc, "b").err();
    let again = disk.write_file("a", b"").err();
    (
        written,
        read,
        missing,
        again,
        disk.read_file(alloc, "a").err(),
    )
}

#[test]
fn disk_in_memory(rt: HostRuntime) {
    let failed = Some(DiskError::Failed);
    let missing = Some(DiskError::Missing);
    for (failing, wanted) in [
        (0, (failed, missing, missing, None, None)),
        (1, (None, failed, missing, None, None)),
        (2, (None, None, failed, None, None)),
        (3, (None, None, missing, failed, None)),
        (4, (None, None, missing, None, failed)),
        (5, (None, None, missing, None, None)),
    ] {
        let calls = vec![in rt.alloc(); failing];
        let calls = calls.expect(&rt, "memory");
        assert_eq!(rt; script(rt.alloc(), calls), wanted, "call {failing} fails");
    }
}

// What stands after a write, also after one that failed.
#[test]
fn files_in_memory(rt: HostRuntime) {
    for (failing, wanted) in [(1, b"one".as_slice()), (9, b"")] {
        let calls = vec![in rt.alloc(); failing];
        let mut disk = MemoryDisk::new(rt.alloc(), calls.expect(&rt, "memory"));
        for bytes in [b"one".as_slice(), b""] {
            let _ = disk.write_file("a", bytes);
        }
        let read = disk.read_file(rt.alloc(), "a");
        assert!(rt; read.is_ok_and(|read| read.as_slice() == wanted));
    }
}

#[test]
fn real_files(rt: HostRuntime) {
    let mut disk = StdDisk::new(&rt);
    for bytes in [b"by the test".as_slice(), b"again"] {
        assert_eq!(rt; disk.write_file("written", bytes), Ok(()));
        let read = disk.read_file(rt.alloc(), "written");
        assert!(rt; read.is_ok_and(|read| read.as_slice() == bytes));
    }
    let absent = disk.read_file(rt.alloc(), "absent");
    assert_eq!(rt; absent.err(), Some(DiskError::Missing));
    assert_eq!(rt; disk.write_file("absent/file", b""), Err(DiskError::Failed));
}
