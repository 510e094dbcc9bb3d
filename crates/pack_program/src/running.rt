//! Packing for an order.
ghost use Rattle.std.specs.Prelude.{◌≡◌, ◌≢◌, ◌≤◌, ◌↔◌, IfErr, IfOk};
ghost use Rattle.command_line.specs.Outcome.{Calm, IsCalm, IsUntouched};
ghost use Rattle.command_line.specs.declared.status.Status.{Status};
ghost use Rattle.command_line.specs.Words.{texts};
ghost use Rattle.pack_program.specs.Run.{Prints, Runs, Stops, devices_of};
ghost use Rattle.pack_program.specs.Views.{order_of};
ghost use Rattle.pack_program.specs.Words.{IsCommand, IsUsage, Order};

use crate::refusal::pack_text;
use crate::words::{Command, read_words};
use base64ct::LineEnding;
use command_line::Status;
use identity_io::{Disk, Sink, write_all};
use pack_update::{PackError, pack};
use std::alloc::Global;

// What is printed for an order, and the status that goes with it.
#[derive(Drop)]
struct Answer {
    printed: Vec<u8>,
    status: Status,
}

// The answer to an order, or how the run ends without one.
fn answer_to<D: Disk>(alloc: Global, command: &Command<'_>, disk: &mut D) -> Result<Answer, Status>
    ensures answer { IfOk result (λ a. Prints (D.files disk.old) (order_of command.now) a.printed.items a.status) }
    ensures stops { IfErr result (λ status. Stops (D.files disk.old) (order_of command.now) (D.faults disk.old) (D.faults disk.new) status) }
    ensures kept { D.files disk.new ≡ D.files disk.old }
    ensures later { D.faults disk.old ≤ D.faults disk.new }
{
    match pack(
        alloc,
        disk,
        command.manifest,
        command.width as usize,
        LineEnding::LF,
    ) {
        Ok(text) => Ok(Answer {
            printed: text.into_bytes(),
            status: Status::Done,
        }),
        Err(PackError::Fault) => Err(Status::SourceFailed),
        Err(error) => match pack_text(alloc, &error) {
            Ok(line) => Ok(Answer {
                printed: line.into_bytes(),
                status: Status::Refused,
            }),
            Err(_) => Err(Status::OutOfMemory),
        },
    }
}

/// Packs what the words order, and writes the text in lines that end in LF, with none after the last, or the line of the
/// first rule that is broken. Nothing is written before the answer is whole.
pub fn run<D: Disk, K: Sink>(alloc: Global, words: &[String], disk: &mut D, out: &mut K) -> Status
    ensures usage { result ≡ Status.Usage ↔ IsUsage (texts words.now) }
    ensures not_begun { result ≡ Status.Usage → (disk.new ≡ disk.old) × (out.new ≡ out.old) }
    ensures runs { result ≢ Status.Usage → (order : Order) × IsCommand (texts words.now) order × Runs order
        (devices_of D.files D.faults K.written K.faults disk.old out.old)
        (devices_of D.files D.faults K.written K.faults disk.new out.new) result }
    ensures untouched { IsUntouched result (out.new ≡ out.old) }
    ensures calm { (order : Order) → IsCommand (texts words.now) order → Calm (D.faults disk.old) (D.faults disk.new)
        → Calm (K.faults out.old) (K.faults out.new) → IsCalm result }
    ensures kept { D.files disk.new ≡ D.files disk.old }
    ensures later { (D.faults disk.old ≤ D.faults disk.new) × (K.faults out.old ≤ K.faults out.new) }
{
    let Some(command) = read_words(words) else {
        return Status::Usage;
    };
    let answer = match answer_to(alloc, &command, disk) {
        Ok(answer) => answer,
        Err(status) => return status,
    };
    match write_all(out, &answer.printed) {
        Ok(()) => answer.status,
        Err(_) => Status::SinkFailed,
    }
}
