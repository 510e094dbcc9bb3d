//! The command `make`: an update is made of generated parts, written as a text, and read back.
ghost use Rattle.std.specs.Prelude.{◌≡◌, ◌≤◌, ◌++◌, IfOk, OnOk};
ghost use Rattle.tool_commands.specs.Made.{Makes, last_line, made_lines, made_update, update_lines};
ghost use Rattle.command_line.specs.Outcome.{IsUntouched};

use crate::made_entries::{bundle, entries};
use base64ct::LineEnding;
use command_line::Status;
use identity_io::{Sink, write_all};
use identity_source::{Entries, Update};
use identity_update::laws::text_has_one_reading;
use std::alloc::{AllocError, Global};

const WIDTH: usize = 64;

fn update(alloc: Global, n: u64) -> Result<Update, AllocError>
    requires { n ≤ 10000 }
    ensures { IfOk result (λ update. update ≡ made_update n) }
{
    let entries = entries(alloc, n)?;
    let mut bundles = Vec::new(alloc);
    bundles.push(bundle(alloc)?)?;
    match Update::from_parts(alloc, entries, bundles) {
        Ok(update) => Ok(update),
        Err(_) => Err(AllocError),
    }
}

// Appends the line of the last entry.
fn push_last(lines: &mut Vec<u8>, alloc: Global, entries: Entries<'_>) -> Result<(), AllocError>
    ensures { OnOk result (lines.new.items ≡ lines.old.items ++ last_line entries.entry) }
{
    let mut last = None;
    for entry in entries {
        last = Some(entry.id());
    }
    match last {
        None => Ok(()),
        Some(id) => {
            let line = format!(in alloc; "last {id}\n")?;
            lines.extend_from_slice(line.as_bytes())
        }
    }
}

// The lines of an update whose text has so many bytes.
fn lines(alloc: Global, update: &Update, text: usize) -> Result<Vec<u8>, AllocError>
    ensures { IfOk result (λ lines. lines.items ≡ update_lines update.now text) }
{
    let head = format!(in alloc;
        "entries {}\ndocument {}\ntext {text}\n",
        update.entries().len(),
        update.document().len()
    )?;
    let mut lines = head.into_bytes();
    push_last(&mut lines, alloc, update.entries())?;
    Ok(lines)
}

// The lines of the update of n entries, after it was written as a text and read back.
fn lines_read_back(alloc: Global, n: u64) -> Result<Vec<u8>, AllocError>
    requires { (1 ≤ n) × (n ≤ 10000) }
    ensures { IfOk result (λ lines. lines.items ≡ made_lines n) }
{
    let update = update(alloc, n)?;
    let Ok(text) = update.to_text(alloc, WIDTH, LineEnding::LF) else {
        return Err(AllocError);
    };
    let bytes = text.as_bytes();
    let Ok(read) = Update::read(alloc, bytes, WIDTH) else {
        return Err(AllocError);
    };
    text_has_one_reading();
    lines(alloc, &read, bytes.len())
}

/// Makes the update of `n` entries, from 1 to 10,000, writes it as a text in lines of 64 characters,
/// reads that back, and prints how many entries were read, how many bytes the document and the text
/// have, and the last entry's id. It waits for nobody, and writes nothing before all is read.
pub fn make<K: Sink>(alloc: Global, n: u64, out: &mut K) -> Status
    requires { (1 ≤ n) × (n ≤ 10000) }
    ensures makes { Makes n (K.written out.old) (K.faults out.old) (K.written out.new) (K.faults out.new) result }
    ensures untouched { IsUntouched result (out.new ≡ out.old) }
    ensures later { K.faults out.old ≤ K.faults out.new }
{
    let Ok(lines) = lines_read_back(alloc, n) else {
        return Status::OutOfMemory;
    };
    match write_all(out, &lines) {
        Ok(()) => Status::Done,
        Err(_) => Status::SinkFailed,
    }
}
