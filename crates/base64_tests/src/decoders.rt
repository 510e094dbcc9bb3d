//! Tests of decoders.
ghost use Rattle.std.specs.Prelude.{◌≤◌};

use crate::checks::{good, same, same_bytes};
use crate::encoders::{TWO_HUNDRED_BYTES, two_hundred_bytes};
use base64ct::{Base64, Decoder, Error};
use std::alloc::{AllocError, Global};
use std::io::{ErrorKind, Read};

// Characters in lines of a width, parted by CR, LF and CRLF in turn.
fn in_mixed_lines(alloc: Global, flat: &[u8], width: usize) -> Result<Vec<u8>, AllocError>
    requires { 1 ≤ width }
{
    let mut text = Vec::new(alloc);
    for (i, line) in flat.chunks(width).enumerate() {
        if i > 0 {
            match i % 3 {
                0 => text.extend_from_slice(b"\r")?,
                1 => text.extend_from_slice(b"\n")?,
                _ => text.extend_from_slice(b"\r\n")?,
            }
        }
        text.extend_from_slice(line)?;
    }
    Ok(text)
}

// Whether a decoder fills an output in three parts, of which some may be empty, and is finished then.
fn fills(text: &[u8], width: usize, out: &mut [u8], first: usize, second: usize) -> bool {
    let Ok(mut decoder) = Decoder::<Base64>::new_wrapped(text, width) else {
        return false;
    };
    let second = second.min(out.len());
    let first = first.min(second);
    let head = decoder.decode(&mut out[..first]).is_ok();
    let middle = decoder.decode(&mut out[first..second]).is_ok();
    let last = decoder.decode(&mut out[second..]).is_ok();
    head & middle & last & decoder.is_finished()
}

// Whether every cutting in three parts gives the bytes.
fn every_cutting_gives(text: &[u8], width: usize, bytes: &[u8]) -> bool {
    let mut good = true;
    for second in 0..201usize {
        for first in 0..201usize {
            if first <= second && second <= bytes.len() {
                let mut out = [7u8; 200];
                let len = bytes.len().min(200);
                good &= fills(text, width, &mut out[..len], first, second);
                good &= &out[..len] == bytes;
            }
        }
    }
    good
}

#[test]
fn decodes_under_every_cutting(rt: HostRuntime) {
    assert!(rt; every_cutting_gives(b"AAAAA\rAA=", 5, &[0; 5]));
    let flat = TWO_HUNDRED_BYTES.as_bytes();
    for width in [4, 5, 7, 64] {
        let width = width.max(1);
        let text = good(&rt, "memory", in_mixed_lines(rt.alloc(), flat, width));
        assert!(rt;
            every_cutting_gives(&text, width, &two_hundred_bytes()),
            "at {width}"
        );
    }
}

#[test]
fn begins_or_refuses(rt: HostRuntime) {
    let flat: [(&[u8], Result<usize, Error>); 5] = [
        (b"", Err(Error::InvalidLength)),
        (b"\n", Err(Error::InvalidLength)),
        (b"AAAA\n", Ok(3)),
        (b"AAAA\r\n", Ok(3)),
        (b"AAAA\n\n", Err(Error::InvalidEncoding)),
    ];
    for (text, len) in flat {
        let begun = Decoder::<Base64>::new(text).map(|decoder| decoder.remaining_len());
        same(&rt, "what is left", &begun, &len);
    }
    let lines: [(&[u8], usize, Error); 4] = [
        (b"AAAA\n", 4, Error::InvalidEncoding),
        (b"\n", 4, Error::InvalidEncoding),
        (b"AAAA", 3, Error::InvalidLength),
        (b"AAAA\r\n", 5, Error::InvalidEncoding),
    ];
    for (text, width, error) in lines {
        let refused = Decoder::<Base64>::new_wrapped(text, width).err();
        same(&rt, "a refusal", &refused, &Some(error));
    }
}

#[test]
fn ends_where_no_byte_is_left(rt: HostRuntime) {
    let mut decoder = good(&rt, "a text", Decoder::<Base64>::new(b"AAAA"));
    let mut rest = good(&rt, "a clone", decoder.clone());
    let mut out = [7u8; 3];
    same_bytes(
        &rt,
        "all",
        good(&rt, "all", decoder.decode(&mut out)),
        &[0; 3],
    );
    same_bytes(&rt, "none", good(&rt, "none", decoder.decode(&mut [])), &[]);
    assert!(rt; decoder.is_finished());
    let mut bytes = Vec::new(rt.alloc());
    same_bytes(
        &rt,
        "the rest",
        good(&rt, "the rest", rest.decode_to_end(&mut bytes)),
        &[0; 3],
    );
    same_bytes(&rt, "the vector", &bytes, &[0; 3]);
}

#[test]
fn refused_calls_change_nothing(rt: HostRuntime) {
    let mut decoder = good(
        &rt,
        "lines",
        Decoder::<Base64>::new_wrapped(b"A!AA\nAAAA", 4),
    );
    let rows = [
        (3, Error::InvalidEncoding),
        (3, Error::InvalidEncoding),
        (7, Error::InvalidLength),
    ];
    for (len, error) in rows {
        let mut out = [0u8; 7];
        let refused = decoder.decode(&mut out[..len.min(7)]).err();
        same(&rt, "a refusal", &refused, &Some(error));
        same(&rt, "what is left", &decoder.remaining_len(), &6);
    }
    let mut bytes = Vec::new(rt.alloc());
    good(&rt, "memory", bytes.push(9));
    let refused = decoder.decode_to_end(&mut bytes).err();
    same(&rt, "a refusal", &refused, &Some(Error::InvalidEncoding));
    same_bytes(&rt, "the vector", &bytes, &[9]);
    same(&rt, "what is left", &decoder.remaining_len(), &6);
}

#[test]
fn is_read_from(rt: HostRuntime) {
    let mut decoder = Decoder::<Base64>::new_wrapped(b"Zm9v\nYmE=", 4).expect(&rt, "lines");
    let mut out = [0u8; 2];
    assert!(rt; decoder.read_exact(&mut out).is_ok());
    assert_eq!(rt; &out, b"fo");
    assert!(rt; decoder.read(&mut out[..1]).is_ok_and(|n| n == 1));
    let mut rest = Vec::new(rt.alloc());
    assert!(rt; decoder.read_to_end(&mut rest).is_ok_and(|n| n == 2));
    assert_eq!(rt; rest.as_slice(), b"ba".as_slice());
    assert!(rt; decoder.read(&mut out).is_ok_and(|n| n == 0));
    let refused = decoder.read_exact(&mut out);
    assert!(rt; refused.is_err_and(|e| e.kind() == ErrorKind::InvalidData));
}
