//! The words behind a program's name.
ghost use Rattle.std.specs.Prelude.{◌≡◌, drop, IfOk};
ghost use Rattle.std.specs.Vec.Iter.{into_iter_items};
ghost use Rattle.command_line.specs.Words.{unread_status};

use crate::status::Status;
use std::alloc::{AllocError, Global};
use std::env::Args;
use std::io::ErrorKind;
use std::{env, io};

/// The arguments of a process without the first, which is the program's name. It errs for want of memory alone.
pub fn words_behind(alloc: Global, args: Args) -> Result<Vec<String>, AllocError>
    ensures { IfOk result (λ words. words.items ≡ drop 1 (into_iter_items args)) }
{
    let mut args = args;
    let _name = args.next();
    let mut words = Vec::new(alloc);
    for word in args {
        words.push(word)?;
    }
    Ok(words)
}

/// The words behind the program's name. One that isn't UTF-8 is an error, as is want of memory; [`unread`] gives each its
/// status.
pub fn words_of(rt: &HostRuntime) -> io::Result<Vec<String>> {
    Ok(words_behind(rt.alloc(), env::args(rt)?)?)
}

/// How a program ends where its words couldn't be read: for want of memory, or since one isn't UTF-8.
pub fn unread(kind: ErrorKind) -> Status
    ensures { result ≡ unread_status kind }
{
    match kind {
        ErrorKind::OutOfMemory => Status::OutOfMemory,
        _ => Status::Usage,
    }
}
