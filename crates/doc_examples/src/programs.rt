//! The programs over any source, sink and disk.
use bundle_selection::select;
use command_line::{Status, read_number};
use identity_io::{Disk, Sink, Source};
use identity_update::UpdateError;
use pack_manifest::{Manifest, ReadError, read_value};
use pack_update::{PackError, pack};
use refusal_lines::refusal_text;
use std::alloc::{AllocError, Global};
use std::sync::Wait;
use std::thread::Threads;
use tool_commands::report;
use tool_script::session;
use tool_watch::{OpenGate, watch};

// cut: width_of
/// The width that a word writes, or the status of faulty words.
pub fn width_of(word: &str) -> Result<usize, Status> {
    match read_number(word) {
        Some(width) => Ok(width as usize),
        None => Err(Status::Usage),
    }
}
// end

// cut: report_of
/// The exit status of a report of the update that a source has.
pub fn report_of<S: Source, K: Sink>(alloc: Global, input: &mut S, out: &mut K) -> u8 {
    report(alloc, 64, input, out).number()
}
// end

// cut: answer
/// Answers a script request by request.
pub fn answer<R: Wait, S: Source, K: Sink>(
    rt: &R,
    alloc: Global,
    input: &mut S,
    out: &mut K,
) -> Status {
    session(rt, alloc, 64, input, out)
}
// end

// cut: answer_by_two
/// Answers a script by two workers in threads of their own.
pub fn answer_by_two<R: Threads + Wait + Sync, S: Source, K: Sink>(
    rt: &R,
    alloc: Global,
    input: &mut S,
    out: &mut K,
) -> Status {
    watch(rt, alloc, 64, 2, &OpenGate, input, out)
}
// end

// cut: command
/// Runs the words of `identity_tool` over any source and sink.
pub fn command<R: Threads + Wait + Sync, S: Source, K: Sink>(
    rt: &R,
    alloc: Global,
    words: &[String],
    input: &mut S,
    out: &mut K,
) -> bool {
    tool_program::run(rt, alloc, words, input, out) == Status::Done
}
// end

// cut: entry_count
/// How many entries a manifest names.
pub fn entry_count(alloc: Global, text: &[u8]) -> Result<usize, ReadError> {
    let value = read_value(alloc, text)?;
    let manifest = Manifest::of(alloc, text, &value)?;
    Ok(manifest.entries.len())
}
// end

// cut: packed
/// The text of the update of a manifest's key files, in lines of 64 characters.
pub fn packed<D: Disk>(alloc: Global, disk: &mut D) -> Result<String, PackError> {
    pack(alloc, disk, "manifest.json", 64, base64ct::LineEnding::LF)
}
// end

// cut: pack_order
/// Packs what the words order, and writes the text or the line of the first broken rule.
pub fn pack_order<D: Disk, K: Sink>(
    alloc: Global,
    words: &[String],
    disk: &mut D,
    out: &mut K,
) -> Status {
    pack_program::run(alloc, words, disk, out)
}
// end

// cut: line_of
/// The line that a program prints of a refused update. Want of memory has none.
pub fn line_of(alloc: Global, error: &UpdateError) -> Result<String, AllocError> {
    refusal_text(alloc, error)
}
// end

// cut: keys_of_document
/// Writes the key set of a bundle document.
pub fn keys_of_document<S: Source, K: Sink>(alloc: Global, input: &mut S, out: &mut K) -> Status {
    select(alloc, &[], input, out)
}
// end
