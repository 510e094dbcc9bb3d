//! Tests of encoders and of lines.
ghost use Rattle.std.specs.Prelude.{◌≤◌};

use crate::checks::{good, same, same_bytes, same_text};
use base64ct::{
    Base64, Base64UrlUnpadded, Decoder, Encoder, Error, LineEnding, wrapped_encoding_is_read_back,
    wrapped_len, wrapped_text_is_lines, wrapping_is_injective,
};
use std::alloc::{AllocError, Global};
use std::io::{ErrorKind, Write};
use std::process::Abort;

const ENDINGS: [LineEnding; 3] = [LineEnding::CR, LineEnding::LF, LineEnding::CRLF];

// The bytes 3, 10, 17 and so on, modulo 256, and their encoding by python's base64.
pub(crate) fn two_hundred_bytes() -> [u8; 200] {
    let mut bytes = [0u8; 200];
    let mut next = 3u8;
    for byte in bytes.iter_mut() {
        *byte = next;
        next = next.wrapping_add(7);
    }
    bytes
}

pub(crate) const TWO_HUNDRED_BYTES: &str =
    "AwoRGB8mLTQ7QklQV15lbHN6gYiPlp2kq7K5wMfO1dzj6vH4/wYNFBsiKTA3PkVMU1phaG92fYSLkpmgp661\
    vMPK0djf5u30+wIJEBceJSwzOkFIT1ZdZGtyeYCHjpWco6qxuL/GzdTb4unw9/4FDBMaISgvNj1ES1JZYGdu\
    dXyDipGYn6attLvCydDX3uXs8/oBCA8WHSQrMjlAR05VXGNqcXh/ho2Um6KpsLe+xczT2uHo7/b9BAsSGSAn\
    LjU8Q0pRWF9mbXQ=";

// Characters in lines of a width, by the words of the definition: pieces, and an ending between two.
fn in_lines(alloc: Global, flat: &[u8], width: usize, ending: &[u8]) -> Result<Vec<u8>, AllocError>
    requires { 1 ≤ width }
{
    let mut text = Vec::new(alloc);
    for (i, line) in flat.chunks(width).enumerate() {
        if i > 0 {
            text.extend_from_slice(ending)?;
        }
        text.extend_from_slice(line)?;
    }
    Ok(text)
}

// What an encoder writes that takes bytes in three parts, in lines where there is a width.
fn encoded<'o>(
    output: &'o mut [u8],
    width: Option<usize>,
    ending: LineEnding,
    parts: [&[u8]; 3],
) -> Result<&'o str, Error> {
    let mut encoder = match width {
        None => Encoder::<Base64>::new(output)?,
        Some(width) => Encoder::<Base64>::new_wrapped(output, width, ending)?,
    };
    for part in parts {
        encoder.encode(part)?;
    }
    encoder.finish()
}

// Whether every cutting of the bytes in three parts, of which some may be empty, gives the text, in an output
// of exactly its length.
fn every_cutting_gives(
    bytes: &[u8; 200],
    text: &[u8],
    width: Option<usize>,
    ending: LineEnding,
) -> bool {
    let mut output = [0u8; 512];
    let room = text.len().min(512);
    for second in 0..201usize {
        let (front, last) = bytes.split_at(second.min(200));
        for first in 0..second + 1 {
            let (head, middle) = front.split_at(first.min(front.len()));
            match encoded(&mut output[..room], width, ending, [head, middle, last]) {
                Ok(written) => {
                    if written.as_bytes() != text {
                        return false;
                    }
                }
                Err(_) => return false,
            }
        }
    }
    true
}

fn check_lines(rt: &impl Abort, alloc: Global, bytes: &[u8; 200], width: usize, ending: LineEnding)
    requires { 1 ≤ width }
{
    let flat = TWO_HUNDRED_BYTES.as_bytes();
    let text = good(
        rt,
        "memory",
        in_lines(alloc, flat, width, ending.as_bytes()),
    );
    same(
        rt,
        "a length",
        &wrapped_len(width, ending, flat.len()),
        &Some(text.len()),
    );
    assert!(rt;
        every_cutting_gives(bytes, &text, Some(width), ending),
        "at {width}"
    );
    let mut decoder = good(rt, "lines", Decoder::<Base64>::new_wrapped(&text, width));
    let mut back = Vec::new(alloc);
    same(rt, "read back", &decoder.append_to(&mut back), &Ok(200));
    same_bytes(rt, "read back", &back, bytes);
}

#[test]
fn encodes_under_every_cutting(rt: HostRuntime) {
    let bytes = two_hundred_bytes();
    let flat = TWO_HUNDRED_BYTES.as_bytes();
    assert!(rt; every_cutting_gives(&bytes, flat, None, LineEnding::LF));
    for width in [4, 5, 64] {
        for ending in ENDINGS {
            check_lines(&rt, rt.alloc(), &bytes, width.max(1), ending);
        }
    }
}

#[test]
fn encodes_lines(rt: HostRuntime) {
    let rows: [(&[u8], usize, LineEnding, &str); 5] = [
        (&[0; 6], 4, LineEnding::LF, "AAAA\nAAAA"),
        (&[0; 6], 5, LineEnding::CRLF, "AAAAA\r\nAAA"),
        (&[0; 4], 4, LineEnding::CR, "AAAA\rAA=="),
        (&[0; 3], 4, LineEnding::CRLF, "AAAA"),
        (&[], 4, LineEnding::LF, ""),
    ];
    for (bytes, width, ending, text) in rows {
        let mut output = [0u8; 10];
        let written = encoded(&mut output, Some(width), ending, [bytes, b"", b""]);
        same_text(&rt, "a text", good(&rt, text, written), text);
    }
    let mut output = [0u8; 64];
    let one_line = encoded(&mut output, Some(64), LineEnding::LF, [&[0; 48], b"", b""]);
    assert!(rt; one_line.is_ok_and(|text| text.as_bytes() == [b'A'; 64].as_slice()));
}

#[test]
fn refuses_what_exceeds_the_output(rt: HostRuntime) {
    assert!(rt; Encoder::<Base64>::new(&mut []).is_err_and(|e| e == Error::InvalidLength));
    for (width, room) in [(3, 8), (4, 0)] {
        let mut output = [0u8; 8];
        let room = room.min(8);
        let refused = Encoder::<Base64>::new_wrapped(&mut output[..room], width, LineEnding::LF);
        same(
            &rt,
            "a refusal",
            &refused.err(),
            &Some(Error::InvalidLength),
        );
    }
    let mut output = [0u8; 8];
    let begun = Encoder::<Base64>::new_wrapped(&mut output, 4, LineEnding::LF);
    let mut encoder = good(&rt, "an encoder", begun);
    for (bytes, answer, position) in [
        ([0; 6].as_slice(), Err(Error::InvalidLength), 0),
        ([0; 5].as_slice(), Ok(()), 4),
    ] {
        same(&rt, "an answer", &encoder.encode(bytes), &answer);
        same(&rt, "a position", &encoder.position(), &position);
    }
    same(
        &rt,
        "the end",
        &encoder.finish().err(),
        &Some(Error::InvalidLength),
    );
}

#[test]
fn gives_back_the_rest_of_the_output(rt: HostRuntime) {
    let mut output = [7u8; 8];
    let begun = Encoder::<Base64UrlUnpadded>::new(&mut output);
    let mut encoder = good(&rt, "an encoder", begun);
    good(&rt, "two bytes", encoder.encode(b"\xff\xff"));
    let (text, rest) = good(&rt, "a text that fits", encoder.finish_with_remaining());
    same_text(&rt, "a text", text, "__8");
    same(&rt, "the rest", &rest.len(), &5);
}

#[test]
fn is_written_to(rt: HostRuntime) {
    let mut output = [0u8; 8];
    let mut encoder = good(&rt, "an encoder", Encoder::<Base64>::new(&mut output));
    same(
        &rt,
        "two bytes",
        &good(&rt, "two bytes", encoder.write(b"fo")),
        &2,
    );
    good(&rt, "two more", encoder.write_all(b"ob"));
    good(&rt, "a flush", encoder.flush());
    same(&rt, "a position", &encoder.position(), &4);
    let refused = encoder.write(&[0; 9]);
    assert!(rt; refused.is_err_and(|e| e.kind() == ErrorKind::InvalidData));
    same_text(
        &rt,
        "a text",
        good(&rt, "a text", encoder.finish()),
        "Zm9vYg==",
    );
}

#[test]
fn line_endings(rt: HostRuntime) {
    same(&rt, "the default", &LineEnding::default(), &LineEnding::LF);
    assert!(rt; LineEnding::CR < LineEnding::LF && LineEnding::LF < LineEnding::CRLF);
    let rows: [(LineEnding, &[u8], usize); 3] = [
        (LineEnding::CR, b"\r", 1),
        (LineEnding::LF, b"\n", 1),
        (LineEnding::CRLF, b"\r\n", 2),
    ];
    for (ending, bytes, len) in rows {
        same_bytes(&rt, "an ending", ending.as_bytes(), bytes);
        same(&rt, "a length", &ending.len(), &len);
    }
}

#[test]
fn lengths_of_lines(rt: HostRuntime) {
    let rows: [(usize, LineEnding, usize, Option<usize>); 5] = [
        (64, LineEnding::LF, 204, Some(207)),
        (64, LineEnding::LF, 64, Some(64)),
        (4, LineEnding::CRLF, 9, Some(13)),
        (4, LineEnding::CR, 0, Some(0)),
        (1, LineEnding::CRLF, usize::MAX, None),
    ];
    for (width, ending, characters, len) in rows {
        same(
            &rt,
            "a length",
            &wrapped_len(width.max(1), ending, characters),
            &len,
        );
    }
}

#[test]
fn laws_of_lines(_rt: HostRuntime) {
    wrapped_text_is_lines();
    wrapping_is_injective();
    wrapped_encoding_is_read_back::<Base64>();
}
