//! A gateway that judges each token by the state that the identity source has when it comes.
#![tactic(auto)]

use anyhow::Result;
use identity_source::{IdentityReader, IdentitySource};
use identity_verify::{DigestBackend, verify_current};
use std::alloc::{AllocError, Global};

// One identity, and the bundle of `example.org` with a key.
const UPDATE: &[u8] = b"MIIBIjB2MHQMFnNwaWZmZTovL2V4YW1wbGUub3JnL2EwLgIBADAFBgMrZXAEIgQg
EREREREREREREREREREREREREREREREREREREREREREwKjAFBgMrZXADIQBNKRZ/
PxkSpvet+ik6BRoVwF7Ge48XJnscVVDc6FO9DTCBpzCBpAwLZXhhbXBsZS5vcmcE
gZR7ImtleXMiOlt7ImtpZCI6ImsxIiwia3R5IjoiRUMiLCJjcnYiOiJQLTI1NiIs
IngiOiJBQUFBQUFBQUFBQUFBQUFBQUFBQUFBQUFBQUFBQUFBQUFBQUFBQUFBQUFB
IiwieSI6IkFBQUFBQUFBQUFBQUFBQUFBQUFBQUFBQUFBQUFBQUFBQUFBQUFBQUFB
QUEifV19";

// A good token, one that nobody signed, and one that is none.
const TOKENS: &str = "eyJhbGciOiJFUzI1NiIsImtpZCI6ImsxIiwidHlwIjoiSldUIn0.\
eyJhdWQiOlsiYSJdLCJleHAiOjE3MDAwMDAwMDAsImlhdCI6MTYwMDAwMDAwMCwic3ViIjoic3BpZmZlOi8vZXhhbXBsZS5vcmcvYSJ9.\
M-DZC3YejOAFJfws3AYLL9jVQ2hUIjGav_p3AuE8xW0
eyJhbGciOiJFUzI1NiIsImtpZCI6ImsxIiwidHlwIjoiSldUIn0.\
eyJhdWQiOlsiYSJdLCJleHAiOjE3MDAwMDAwMDAsImlhdCI6MTYwMDAwMDAwMCwic3ViIjoic3BpZmZlOi8vZXhhbXBsZS5vcmcvYSJ9.c2ln
a.b";

// In the year 2020.
const NOW: i128 = 1_600_000_000_000_000_000;

fn judge_all(
    alloc: Global,
    reader: &mut IdentityReader,
    expected: &[String],
) -> Result<String, AllocError> {
    let mut said = String::new(alloc);
    for token in TOKENS.lines() {
        let line = match verify_current(alloc, reader, token, expected, NOW, &DigestBackend) {
            Ok(verified) => {
                format!(in alloc;
                    "{} is let in by state {}\n",
                    verified.svid.spiffe_id(),
                    verified.state.revision()
                )?
            }
            Err(rejected) => {
                format!(in alloc;
                    "{:?} turns one away by state {}\n",
                    rejected.cause,
                    rejected.state.revision()
                )?
            }
        };
        said.push_str(line.as_str())?;
    }
    Ok(said)
}

fn main(rt: HostRuntime) -> Result<()> {
    let mut expected = Vec::new(rt.alloc());
    expected.push(String::from_str(rt.alloc(), "a")?)?;
    let (mut source, mut readers) = IdentitySource::open(&rt, rt.alloc(), 0, 1)?;
    let mut reader = readers.pop().unwrap();
    let applied = source.apply(&rt, UPDATE, 64).is_ok();
    let said = judge_all(rt.alloc(), &mut reader, &expected);
    source.close(&rt);
    println!(rt; "the update is applied: {applied}")?;
    print!(rt; "{}", said?)?;
    Ok(())
}
