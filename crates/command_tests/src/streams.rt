//! `show` over streams of one byte a call, of which each call fails in turn. The report is that of the README.
use crate::samples::{REPORT, SAMPLE};
use command_line::Status;
use identity_io::{MemorySink, MemorySource};
use tool_commands::show;

#[test]
fn each_read_fails(rt: HostRuntime) {
    for call in 0..208 {
        let failing = [call];
        let mut room = [0u8; 200];
        let mut input = MemorySource::new(SAMPLE.as_bytes(), &failing, 1);
        let mut out = MemorySink::new(&mut room, &[], 1);
        let status = show(&rt, rt.alloc(), 64, &mut input, &mut out);
        assert_eq!(rt; status, Status::SourceFailed, "{call}");
        assert!(rt; out.written().is_empty(), "{call}");
    }
}

#[test]
fn each_write_fails(rt: HostRuntime) {
    for call in 0..121 {
        let failing = [call];
        let mut room = [0u8; 200];
        let mut input = MemorySource::new(SAMPLE.as_bytes(), &[], 64);
        let mut out = MemorySink::new(&mut room, &failing, 1);
        let status = show(&rt, rt.alloc(), 64, &mut input, &mut out);
        assert_eq!(rt; status, Status::SinkFailed, "{call}");
        assert!(rt; REPORT.as_bytes().starts_with(out.written()), "{call}");
    }
}
