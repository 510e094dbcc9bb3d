//! `base64_lines`: converts what each line of standard input asks for, in the eight alphabets. A line is an alphabet, an
//! operation, a width and hexadecimal bytes, `-` for none; its answer is hexadecimal bytes, or what the call is refused with.
#![tactic(auto)]

use base64ct::{
    Base64, Base64Bcrypt, Base64Crypt, Base64Pbkdf2, Base64ShaCrypt, Base64Unpadded, Base64Url,
    Base64UrlUnpadded, Decoder, Encoder, Encoding, Error, LineEnding,
};
use std::alloc::Global;
use std::io;

fn shown(alloc: Global, bytes: &[u8]) -> Result<String, Error> {
    match hex::encode(alloc, bytes) {
        Ok(text) => Ok(text),
        Err(_) => Err(Error::OutOfMemory),
    }
}

fn wrapped<E: Encoding>(
    alloc: Global,
    ending: LineEnding,
    width: usize,
    bytes: &[u8],
) -> Result<String, Error> {
    let mut room = [0u8; 8192];
    let mut encoder: Encoder<E> = Encoder::new_wrapped(&mut room, width, ending)?;
    encoder.encode(bytes)?;
    shown(alloc, encoder.finish()?.as_bytes())
}

fn converted<E: Encoding>(
    alloc: Global,
    operation: &str,
    width: usize,
    bytes: &[u8],
) -> Result<String, Error> {
    match operation {
        "encode" => shown(alloc, E::encode_string(alloc, bytes)?.as_bytes()),
        "decode" => {
            let mut room = [0u8; 8192];
            shown(alloc, E::decode(bytes, &mut room)?)
        }
        "lines" => {
            let mut decoder: Decoder<E> = Decoder::new_wrapped(bytes, width)?;
            let mut buffer = Vec::new(alloc);
            shown(alloc, decoder.decode_to_end(&mut buffer)?)
        }
        "cr" => wrapped::<E>(alloc, LineEnding::CR, width, bytes),
        "lf" => wrapped::<E>(alloc, LineEnding::LF, width, bytes),
        _ => wrapped::<E>(alloc, LineEnding::CRLF, width, bytes),
    }
}

fn answer(alloc: Global, line: &str) -> Option<Result<String, Error>> {
    let (alphabet, rest) = line.split_once(' ')?;
    let (operation, rest) = rest.split_once(' ')?;
    let (width, digits) = rest.split_once(' ')?;
    let width = width.parse::<usize>().ok()?;
    let bytes = hex::decode(alloc, if digits == "-" { "" } else { digits }).ok()?;
    match alphabet {
        "standard" => Some(converted::<Base64>(alloc, operation, width, &bytes)),
        "unpadded" => Some(converted::<Base64Unpadded>(alloc, operation, width, &bytes)),
        "url" => Some(converted::<Base64Url>(alloc, operation, width, &bytes)),
        "url-unpadded" => Some(converted::<Base64UrlUnpadded>(alloc, operation, width, &bytes)),
        "bcrypt" => Some(converted::<Base64Bcrypt>(alloc, operation, width, &bytes)),
        "crypt" => Some(converted::<Base64Crypt>(alloc, operation, width, &bytes)),
        "sha-crypt" => Some(converted::<Base64ShaCrypt>(alloc, operation, width, &bytes)),
        "pbkdf2" => Some(converted::<Base64Pbkdf2>(alloc, operation, width, &bytes)),
        _ => None,
    }
}

fn main(rt: HostRuntime) -> io::Result<()> {
    for line in rt.lines(rt.alloc()) {
        match answer(rt.alloc(), line?.as_str()) {
            Some(Ok(text)) => println!(rt; "{text}")?,
            Some(Err(error)) => println!(rt; "refused: {error}")?,
            None => println!(rt; "no request")?,
        }
    }
    Ok(())
}
