//! The sample of the README, cut and damaged at each place. Which cuts are Base64 of whole blocks, and
//! so bytes that are no document, follows from RFC 4648 section 4; the nested key set is put together
//! from the grammar by a few lines of Python.
use crate::samples::SAMPLE;
use base64ct::Error as TextError;
use der_core::Error;
use identity_update::{Update, UpdateError};
use spiffe_bundle::JwtBundleError;
use spiffe_json::JsonError;

// The sample with a key set of 128 levels.
const NESTED: &[u8] =
    b"MIIBmDB2MHQMFnNwaWZmZTovL2V4YW1wbGUub3JnL2EwLgIBADAFBgMrZXAEIgQgERERERERERERERERERERERERERERERERERERERER\
     EREwKjAFBgMrZXADIQBNKRZ/PxkSpvet+ik6BRoVwF7Ge48XJnscVVDc6FO9DTCCARwwggEYDAtleGFtcGxlLm9yZwSCAQd7ImtleXMiO\
     ltbW1tbW1tbW1tbW1tbW1tbW1tbW1tbW1tbW1tbW1tbW1tbW1tbW1tbW1tbW1tbW1tbW1tbW1tbW1tbW1tbW1tbW1tbW1tbW1tbW1tbW1\
     tbW1tbW1tbW1tbW1tbW1tbW1tbW1tbW1tbW1tbW1tbW1tbW1tbW1tbW1tbW1tbW1tdXV1dXV1dXV1dXV1dXV1dXV1dXV1dXV1dXV1dXV1\
     dXV1dXV1dXV1dXV1dXV1dXV1dXV1dXV1dXV1dXV1dXV1dXV1dXV1dXV1dXV1dXV1dXV1dXV1dXV1dXV1dXV1dXV1dXV1dXV1dXV1dXV1d\
     XV1dXV1dXV1dXV1dXV1dXV1dfQ==";

// The part of the sample before this place ends behind a whole block of four characters.
fn is_whole(end: usize) -> bool {
    let characters = end - end / 65;
    end % 65 != 0 && characters % 4 == 0
}

#[test]
fn cut_texts(rt: HostRuntime) {
    for end in 0..SAMPLE.len() {
        let wanted = if end == 0 {
            UpdateError::Text(TextError::InvalidLength)
        } else if is_whole(end) {
            UpdateError::Document(Error::Malformed)
        } else {
            UpdateError::Text(TextError::InvalidEncoding)
        };
        let found = Update::read(rt.alloc(), &SAMPLE.as_bytes()[..end], 64).err();
        assert!(rt; found == Some(wanted), "{end}");
    }
    let documents = (0..SAMPLE.len()).filter(|end| is_whole(*end)).count();
    assert_eq!(rt; documents, 50);
}

#[test]
fn damaged_texts(rt: HostRuntime) {
    for place in 0..SAMPLE.len() {
        let mut text = Vec::from_slice(rt.alloc(), SAMPLE.as_bytes()).expect(&rt, "memory");
        text[place] = b'!';
        let found = Update::read(rt.alloc(), &text, 64).err();
        let wanted = UpdateError::Text(TextError::InvalidEncoding);
        assert!(rt; found == Some(wanted), "{place}");
    }
}

#[test]
fn nested_key_set(rt: HostRuntime) {
    let found = Update::read(rt.alloc(), NESTED, 1000).err();
    let wanted = UpdateError::Authorities {
        bundle: 0,
        cause: JwtBundleError::Deserialize(JsonError::Syntax),
    };
    assert!(rt; found == Some(wanted));
}
