//! Worked texts.

ghost use Rattle.std.specs.Prelude.{◌≡◌, ◌<◌, List, ℕ, length, true, false};
ghost use Rattle.base64_alphabet.specs.Standard.{standard};
ghost use Rattle.base64ct.specs.Canonical.{is_clean, unpadded_len};
ghost use Rattle.base64ct.specs.Counts.{decode_count};

use crate::checks::{good, same, same_bytes, same_text};
use base64ct::{
    Base64, Base64Bcrypt, Base64Crypt, Base64Pbkdf2, Base64ShaCrypt, Base64Unpadded, Base64Url,
    Base64UrlUnpadded, Decoder, Encoder, Encoding, Error, InvalidEncodingError, InvalidLengthError,
    LineEnding, Steps, lines_have_one_join, text_has_one_value, unclean_texts_take_one_count,
    wrapped_len,
};
use std::alloc::Global;
use std::marker::Brand;
use std::process::Abort;
use std::sync::ledger::{Blank, Ledger};

// An update document of 153 bytes, by hand from its parts: one entry, one bundle.
const DOCUMENT: &[u8] =
    b"0\x81\x960v0t\x0c\x16spiffe://example.org/a0.\x02\x01\x000\x05\x06\x03+ep\x04\x22\x04\
    \x20\x11\x11\x11\x11\x11\x11\x11\x11\x11\x11\x11\x11\x11\x11\x11\x11\x11\x11\x11\x11\x11\
    \x11\x11\x11\x11\x11\x11\x11\x11\x11\x11\x110*0\x05\x06\x03+ep\x03!\x00M)\x16\x7f?\x19\
    \x12\xa6\xf7\xad\xfa):\x05\x1a\x15\xc0^\xc6{\x8f\x17&{\x1cUP\xdc\xe8S\xbd\x0d0\x1c0\x1a\
    \x0c\x0bexample.org\x04\x0b{\x22keys\x22:[]}";

// Its encoding in one line, by python's base64.
const ONE_LINE: &[u8] =
    b"MIGWMHYwdAwWc3BpZmZlOi8vZXhhbXBsZS5vcmcvYTAuAgEAMAUGAytlcAQiBCARERERERERERERERERERERERERERERERERERERERERETAqMAUGAytlcAMhAE0pFn8/GRKm96\
         36KToFGhXAXsZ7jxcmexxVUNzoU70NMBwwGgwLZXhhbXBsZS5vcmcEC3sia2V5cyI6W119";

// The same at width 64, with LF, and with CR, LF and CRLF in turn.
const LINES: &[u8] =
    b"MIGWMHYwdAwWc3BpZmZlOi8vZXhhbXBsZS5vcmcvYTAuAgEAMAUGAytlcAQiBCAR\nERERERERERERERERERERERERERERERERERERERERETAqMAUGAytlcAMhAE0pFn8/\nGR\
         Km9636KToFGhXAXsZ7jxcmexxVUNzoU70NMBwwGgwLZXhhbXBsZS5vcmcEC3si\na2V5cyI6W119";

const MIXED: &[u8] =
    b"MIGWMHYwdAwWc3BpZmZlOi8vZXhhbXBsZS5vcmcvYTAuAgEAMAUGAytlcAQiBCAR\rERERERERERERERERERERERERERERERERERERERERETAqMAUGAytlcAMhAE0pFn8/\nGR\
         Km9636KToFGhXAXsZ7jxcmexxVUNzoU70NMBwwGgwLZXhhbXBsZS5vcmcEC3si\r\na2V5cyI6W119";

fn decoded(alloc: Global, text: &[u8], width: usize) -> Result<Vec<u8>, Error> {
    let mut decoder = Decoder::<Base64>::new_wrapped(text, width)?;
    let mut bytes = Vec::new(alloc);
    decoder.decode_to_end(&mut bytes)?;
    Ok(bytes)
}

#[test]
fn decodes_lines(rt: HostRuntime) {
    let texts: [(&[u8], usize, &[u8]); 5] = [
        (ONE_LINE, 204, DOCUMENT),
        (LINES, 64, DOCUMENT),
        (MIXED, 64, DOCUMENT),
        (b"AAAAA\rAA=", 5, &[0; 5]),
        (b"AAAA", 4, &[0; 3]),
    ];
    for (text, width, bytes) in texts {
        let result = good(&rt, "an accepted text", decoded(rt.alloc(), text, width));
        same_bytes(&rt, "the bytes", &result, bytes);
    }
}

fn appends(
    rt: &impl Abort,
    decoder: &mut Decoder<'_, Base64>,
    bytes: &mut Vec<u8>,
    answer: Result<usize, Error>,
) {
    let appended = decoder.append_to(bytes);
    same(rt, "appended", &appended, &answer);
}

#[test]
fn appends_to_a_vector(rt: HostRuntime) {
    let mut bytes = good(&rt, "memory", Vec::from_slice(rt.alloc(), &[7]));
    let mut decoder = good(&rt, "lines", Decoder::<Base64>::new_wrapped(MIXED, 64));
    for left in [153, 0] {
        same(&rt, "what is left", &decoder.remaining_len(), &left);
        appends(&rt, &mut decoder, &mut bytes, Ok(left));
    }
    same_bytes(&rt, "the first", &bytes[..bytes.len().min(1)], &[7]);
    same_bytes(&rt, "the others", bytes.get(1..).unwrap_or(&[]), DOCUMENT);
}

#[test]
fn refused_text_appends_nothing(rt: HostRuntime) {
    let mut bytes = good(&rt, "memory", Vec::from_slice(rt.alloc(), DOCUMENT));
    let mut refused = good(
        &rt,
        "lines",
        Decoder::<Base64>::new_wrapped(b"A!AA\nAA==", 4),
    );
    appends(&rt, &mut refused, &mut bytes, Err(Error::InvalidEncoding));
    same(&rt, "what is left", &refused.remaining_len(), &4);
    same_bytes(&rt, "what stays", &bytes, DOCUMENT);
}

// From the eighth on each differs in one place from the text `AAAA`, LF, `AAAA`, LF, `AA==`.
#[test]
fn refuses_other_lines(rt: HostRuntime) {
    let texts: [(&[u8], usize, Error); 26] = [
        (b"", 64, Error::InvalidLength),
        (LINES, 3, Error::InvalidLength),
        (b"AAAA\r\n", 5, Error::InvalidEncoding),
        (b"AAAA\n", 4, Error::InvalidEncoding),
        (b"\n", 4, Error::InvalidEncoding),
        (b"AAB=", 4, Error::InvalidEncoding),
        (b"AB==", 4, Error::InvalidEncoding),
        (b"AAAA\nAAAA\nAA=", 4, Error::InvalidEncoding),
        (b"AAAA\nAAAA\nAA===", 4, Error::InvalidEncoding),
        (b"AAAA\nAAAA\nA===", 4, Error::InvalidEncoding),
        (b"AAAA\nAAAA\nA", 4, Error::InvalidEncoding),
        (b"AAAA\nAAAA\n!A==", 4, Error::InvalidEncoding),
        (b"AAAA\nAAAA\nA!==", 4, Error::InvalidEncoding),
        (b"AAAA\nAAAA\nAA!=", 4, Error::InvalidEncoding),
        (b"AAAA\nAAAA\nAA=!", 4, Error::InvalidEncoding),
        (b"AAAA\n!AAA\nAA==", 4, Error::InvalidEncoding),
        (b"AAAA\nA!AA\nAA==", 4, Error::InvalidEncoding),
        (b"AAAA\nAA!A\nAA==", 4, Error::InvalidEncoding),
        (b"AAAA\nAAA!\nAA==", 4, Error::InvalidEncoding),
        (b"AAAA\nAA==\nAA==", 4, Error::InvalidEncoding),
        (b"AAA\nAAAA\nAA==", 4, Error::InvalidEncoding),
        (b"AAAAA\nAAAA\nAA==", 4, Error::InvalidEncoding),
        (b"AAAA\n\nAAAA\nAA==", 4, Error::InvalidEncoding),
        (b"\nAAAA\nAAAA\nAA==", 4, Error::InvalidEncoding),
        (b"AAAA\n\rAAAA\nAA==", 4, Error::InvalidEncoding),
        (b"AAAA\nAAAA\nAA==\n", 4, Error::InvalidEncoding),
    ];
    for (text, width, error) in texts {
        same(
            &rt,
            "a refusal",
            &decoded(rt.alloc(), text, width).err(),
            &Some(error),
        );
    }
}

// The vectors of RFC 4648 section 10, and three of the original crates' own.
#[test]
fn encodes_and_decodes_texts(rt: HostRuntime) {
    let texts: [(&[u8], &str); 10] = [
        (b"", ""),
        (b"f", "Zg=="),
        (b"fo", "Zm8="),
        (b"foo", "Zm9v"),
        (b"foob", "Zm9vYg=="),
        (b"fooba", "Zm9vYmE="),
        (b"foobar", "Zm9vYmFy"),
        (b"example bytestring!", "ZXhhbXBsZSBieXRlc3RyaW5nIQ=="),
        (&[0xAD; 5], "ra2tra0="),
        (b"2", "Mg=="),
    ];
    for (bytes, text) in texts {
        let encoded = good(&rt, "memory", Base64::encode_string(rt.alloc(), bytes));
        same_text(&rt, "a text", encoded.as_str(), text);
        let decoded = good(
            &rt,
            "a canonical text",
            Base64::decode_vec(rt.alloc(), text),
        );
        same_bytes(&rt, text, &decoded, bytes);
    }
}

// Twelve bytes, whose fronts each alphabet encodes.
const BYTES: &[u8; 12] = b"\xfb\xff\xbe\x00\x10\x83\x9a\x2d\x07\xe1\x5c\xfe";

// Whether each call that encodes gives the text of the bytes.
fn is_text<E: Encoding>(alloc: Global, bytes: &[u8], text: &str) -> bool {
    let mut space = [0u8; 16];
    E::encode(bytes, &mut space) == Ok(text)
        && E::encoded_len(bytes) == text.len()
        && E::encode_string(alloc, bytes).is_ok_and(|t| t.as_str() == text)
}

// Whether each call that decodes gives the bytes of the text, which has at most 176 characters.
pub(crate) fn is_read<E: Encoding>(alloc: Global, text: &str, bytes: &[u8]) -> bool {
    let mut space = [0u8; 176];
    let mut copy = [0u8; 176];
    let len = text.len().min(176);
    copy[..len].copy_from_slice(&text.as_bytes()[..len]);
    E::decode(text.as_bytes(), &mut space) == Ok(bytes)
        && E::decode_vec(alloc, text).is_ok_and(|v| v.as_slice() == bytes)
        && E::decode_in_place(&mut copy[..len]) == Ok(bytes)
}

// Whether each call agrees that these are the texts of the fronts of `BYTES`, shortest first and parted by blanks.
pub(crate) fn agrees<E: Encoding>(alloc: Global, texts: &str) -> bool {
    let mut agreed = true;
    for (n, text) in texts.split(' ').enumerate() {
        let bytes = &BYTES[..n.min(12)];
        agreed &= is_text::<E>(alloc, bytes, text) & is_read::<E>(alloc, text, bytes);
    }
    agreed
}

// By python: its base64 for the first and the third alphabet, and for all eight a loop over groups with
// `int.from_bytes` and shifts, checked against that.
#[test]
fn agrees_with_python(rt: HostRuntime) {
    let alloc = rt.alloc();
    let texts =
        " +w== +/8= +/++ +/++AA== +/++ABA= +/++ABCD +/++ABCDmg== +/++ABCDmi0= +/++ABCDmi0H +/++ABCDmi0H4Q== +/++ABCDmi0H4Vw= +/++ABCDmi0H4Vz+";
    assert!(rt; agrees::<Base64>(alloc, texts));
    let texts =
        " +w +/8 +/++ +/++AA +/++ABA +/++ABCD +/++ABCDmg +/++ABCDmi0 +/++ABCDmi0H +/++ABCDmi0H4Q +/++ABCDmi0H4Vw +/++ABCDmi0H4Vz+";
    assert!(rt; agrees::<Base64Unpadded>(alloc, texts));
    let texts =
        " -w== -_8= -_-- -_--AA== -_--ABA= -_--ABCD -_--ABCDmg== -_--ABCDmi0= -_--ABCDmi0H -_--ABCDmi0H4Q== -_--ABCDmi0H4Vw= -_--ABCDmi0H4Vz-";
    assert!(rt; agrees::<Base64Url>(alloc, texts));
    let texts =
        " -w -_8 -_-- -_--AA -_--ABA -_--ABCD -_--ABCDmg -_--ABCDmi0 -_--ABCDmi0H -_--ABCDmi0H4Q -_--ABCDmi0H4Vw -_--ABCDmi0H4Vz-";
    assert!(rt; agrees::<Base64UrlUnpadded>(alloc, texts));
    let texts =
        " 8u 896 8988 8988.. 8988./. 8988./AB 8988./ABke 8988./ABkgy 8988./ABkgyF 8988./ABkgyF2O 8988./ABkgyF2Tu 8988./ABkgyF2Tx8";
    assert!(rt; agrees::<Base64Bcrypt>(alloc, texts));
    let texts =
        " yk yzw yzyy yzyy.. yzyy./. yzyy./01 yzyy./01aU yzyy./01aWo yzyy./01aWo5 yzyy./01aWo5sE yzyy./01aWo5sJk yzyy./01aWo5sJny";
    assert!(rt; agrees::<Base64Crypt>(alloc, texts));
    let texts =
        " v1 vzD vzjj vzjj.. vzjj../ vzjj..lU vzjj..lUO0 vzjj..lUOq0 vzjj..lUOqm/ vzjj..lUOqm/V1 vzjj..lUOqm/Vn3 vzjj..lUOqm/VnZz";
    assert!(rt; agrees::<Base64ShaCrypt>(alloc, texts));
    let texts =
        " .w ./8 ./.. ./..AA ./..ABA ./..ABCD ./..ABCDmg ./..ABCDmi0 ./..ABCDmi0H ./..ABCDmi0H4Q ./..ABCDmi0H4Vw ./..ABCDmi0H4Vz.";
    assert!(rt; agrees::<Base64Pbkdf2>(alloc, texts));
}

#[test]
fn decodes_into_outputs(rt: HostRuntime) {
    let mut out = [0u8; 8];
    let refused = Base64Pbkdf2::decode(b"Mi", &mut out).err();
    same(&rt, "a refusal", &refused, &Some(Error::InvalidEncoding));
    let mut buf = *b"Mi";
    let decoded = good(&rt, "in place", Base64Pbkdf2::decode_in_place(&mut buf));
    same_bytes(&rt, "in place", decoded, b"2");
    let texts: [(&[u8], usize, Result<usize, Error>); 4] = [
        (b"AA/=", 8, Err(Error::InvalidEncoding)),
        (b"AAA", 0, Err(Error::InvalidEncoding)),
        (b"AAAA", 2, Err(Error::InvalidLength)),
        (b"", 0, Ok(0)),
    ];
    for (text, space, answer) in texts {
        let decoded = Base64::decode(text, &mut out[..space.min(8)]);
        same(&rt, "decoded", &decoded.map(|bytes| bytes.len()), &answer);
    }
}

fn encodes<E: Encoding>(rt: &impl Abort, bytes: &[u8], text: &str) {
    let mut out = [0u8; 8];
    same_text(
        rt,
        "a text",
        good(rt, text, E::encode(bytes, &mut out)),
        text,
    );
}

#[test]
fn encodes_into_outputs(rt: HostRuntime) {
    let mut out = [0u8; 3];
    let refused = Base64::encode(b"foo", &mut out).err();
    same(&rt, "a refusal", &refused, &Some(InvalidLengthError));
    encodes::<Base64ShaCrypt>(&rt, b"\x55\xaa\x55\xaa\x55", "JdOJeK3");
    encodes::<Base64Bcrypt>(&rt, b"\x01\x02\x03\x04", ".OGB/.");
    encodes::<Base64Crypt>(&rt, b"***", "8Wce");
    encodes::<Base64Pbkdf2>(&rt, b"\xff\xef\xfe\xff\xef\xfe", "/./././.");
}

#[test]
fn converts_errors(rt: HostRuntime) {
    let encoding = Error::from(InvalidEncodingError);
    same(&rt, "encoding", &encoding, &Error::InvalidEncoding);
    let length = Error::from(InvalidLengthError);
    same(&rt, "length", &length, &Error::InvalidLength);
    let kind = std::io::Error::from(Error::InvalidLength).kind();
    same(&rt, "kind", &kind, &std::io::ErrorKind::InvalidData);
    same(&rt, "number", &(Error::OutOfMemory as u8), &3);
}

// What the count of 1,000 characters without padding is, by hand: 250 blocks and one more; 1 block or 2
// again for the check of the last.
fn thousand_characters_take()
    ensures bad { (t : List ℕ) → length t ≡ 1000 → unpadded_len true t ≡ 1000 → is_clean standard true t ≡ false
        → decode_count standard true t ≡ 1004 }
    ensures padded { (t : List ℕ) → length t ≡ 1000 → unpadded_len true t ≡ 1000 → is_clean standard true t ≡ true
        → decode_count standard true t ≡ 1008 }
    ensures unpadded { (t : List ℕ) → length t ≡ 1000 → is_clean standard false t ≡ true
        → decode_count standard false t ≡ 1012 }
{}

fn counted_from<E: Encoding, L: Ledger>(text: &mut [u8; 1000], blank: Blank) -> (bool, bool, bool)
    requires name { blank.name ≡ L.name }
    requires parts { blank.parts ≡ L.parts }
    requires some { 0 < blank.parts }
{
    let mut steps = Steps::<L>::new(blank);
    let mut out = [0u8; 1000];
    let decoded = E::decode_counted(&text[..], &mut out, &mut steps).is_ok();
    let in_place = E::decode_in_place_counted(&mut text[..], &mut steps).is_ok();
    let encoded = E::encode_counted(&[0; 750], &mut out, &mut steps).is_ok();
    (decoded, in_place, encoded)
}

fn counted<E: Encoding>(text: &mut [u8; 1000]) -> (bool, bool, bool) {
    counted_from::<E, Brand>(text, Blank::new(1))
}

#[test]
fn counts_a_thousand_characters(rt: HostRuntime) {
    thousand_characters_take();
    for at in [0, 500, 999] {
        let mut text = [b'A'; 1000];
        text[at] = b'!';
        let answer = counted::<Base64>(&mut text);
        same(&rt, "a bad character", &answer, &(false, false, true));
    }
    let answer = counted::<Base64>(&mut [b'A'; 1000]);
    same(&rt, "padded", &answer, &(true, true, true));
    let answer = counted::<Base64Unpadded>(&mut [b'A'; 1000]);
    same(&rt, "unpadded", &answer, &(true, true, true));
}

#[test]
fn laws(_rt: HostRuntime) {
    lines_have_one_join();
    text_has_one_value::<Base64>();
    unclean_texts_take_one_count::<Base64>();
}
