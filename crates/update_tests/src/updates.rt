mod lending;
mod parts;
mod reading;
mod refusals;
mod rules;
mod writing;

use crate::checks::good;
use std::alloc::Global;
use std::process::Abort;

// The bytes of a text of a table, where `,` stands for LF and `;` for CR.
fn lines_of(rt: &impl Abort, alloc: Global, text: &str) -> Vec<u8> {
    let mut bytes = Vec::new(alloc);
    for byte in text.bytes() {
        let byte = match byte {
            b',' => b'\n',
            b';' => b'\r',
            other => other,
        };
        good(rt, "memory", bytes.push(byte));
    }
    bytes
}
