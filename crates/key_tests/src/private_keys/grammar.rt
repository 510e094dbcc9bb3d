use super::documents::{WORKED, check_document};
use crate::checks::{good, same};
use der_small::{Decode, Error};
use pkcs8::{PrivateKeyInfoOwned, PrivateKeyInfoRef, Version};
use std::alloc::{AllocError, Global};
use std::process::Abort;

/// The algorithm and the octet string of an Ed25519 key (RFC 8410, section 7) with 32 octets 11.
const KEY: &str =
    "300506032b6570042204201111111111111111111111111111111111111111111111111111111111111111";

/// A field 81 with a public key of 32 octets.
const PUBLIC_KEY: &str = "8121004d29167f3f1912a6f7adfa293a051a15c05ec67b8f17267b1c5550dce853bd0d";

/// Two attributes, by hand after RFC 5958, section 2, and PKCS #9: the key usage (OID 2.5.29.15) of signatures, and the
/// friendly name (OID 1.2.840.113549.1.9.20) "key". `openssl asn1parse` names both so.
const TWO_ATTRIBUTES: &str =
    "a024300b0603551d0f310403020780301506092a864886f70d01091431081e06006b00650079";

/// Adds the bytes that two hexadecimal digits each stand for.
fn push_bytes(bytes: &mut Vec<u8>, text: &str) -> Result<(), AllocError> {
    let mut high = None;
    for digit in text.bytes() {
        let value = match digit {
            b'0'..=b'9' => digit - b'0',
            b'a'..=b'f' => digit - b'a' + 10,
            _ => 0,
        };
        high = match high {
            None => Some(value),
            Some(first) => {
                bytes.push(first % 16 * 16 + value % 16)?;
                None
            }
        };
    }
    Ok(())
}

/// The bytes of digits, and of names of what stands above.
fn document(rt: &impl Abort, alloc: Global, words: &str) -> Vec<u8> {
    let mut bytes = Vec::new(alloc);
    for word in words.split(' ') {
        let digits = match word {
            "key" => KEY,
            "public" => PUBLIC_KEY,
            "attributes" => TWO_ATTRIBUTES,
            digits => digits,
        };
        good(rt, "memory", push_bytes(&mut bytes, digits));
    }
    bytes
}

// A row has the document that is read, the one that is written, the parts that the key has behind its octets, and
// what the row shows. The rules are those of RFC 5958, section 2. Attributes are written as they were read, and
// extensions are not.
const FORMS: &str = "302e020100 key = 302e020100 key = none = the plain key of each version
3051020101 key public = 3051020101 key public = public key = the plain key of each version
3030020100 key a000 = 3030020100 key a000 = attributes = attributes, whose content is not read
3032020100 key a002ffff = 3032020100 key a002ffff = attributes = attributes, whose content is not read
3053020101 key a000 public = 3053020101 key a000 public = attributes, public key = attributes, whose content is not read
3054020100 key attributes = 3054020100 key attributes = attributes = a key usage and a friendly name
3077020101 key attributes public = 3077020101 key attributes public = attributes, public key = a key usage and a friendly name
3031020101 key 810100 = 3031020101 key 810100 = public key = a public key without octets
3034020100 key a000 a0020500 = 3030020100 key a000 = attributes = an extension under a second tag A0
3057020101 key a000 public a0020500 = 3053020101 key a000 public = attributes, public key = an extension under a second tag A0
3032020100 key a1020500 = 302e020100 key = none = a field A1 is an extension, whatever it holds
3055020101 key public a1020500 = 3051020101 key public = public key = a field A1 is an extension, whatever it holds
3034020100 key a000 a2020500 = 3030020100 key a000 = attributes = an extension behind attributes
303b020101 key a000 810100 a2020500be020500 = 3033020101 key a000 810100 = attributes, public key = two extensions, of the first tag and of the last
305b020101 key a000 public a0020500be020500 = 3053020101 key a000 public = attributes, public key = two extensions, of the first tag and of the last";

fn check_parts(rt: &impl Abort, key: &PrivateKeyInfoRef<'_>, parts: &str, row: &str) {
    let has_public_key = parts.contains("public key");
    let has_attributes = parts.contains("attributes");
    same(rt, row, &key.private_key.as_bytes().len(), &34);
    same(rt, row, &key.attributes.is_some(), &has_attributes);
    same(rt, row, &key.public_key.is_some(), &has_public_key);
    same(rt, row, &(key.version() == Version::V2), &has_public_key);
}

#[test]
fn documents_of_every_form(rt: HostRuntime) {
    let alloc = rt.alloc();
    for row in FORMS.lines() {
        let (words, rest) = row.split_once(" = ").expect(&rt, "a document");
        let (written, rest) = rest.split_once(" = ").expect(&rt, "what is written");
        let (parts, _) = rest.split_once(" = ").expect(&rt, "its parts");
        let bytes = document(&rt, alloc, words);
        let written = document(&rt, alloc, written);
        let key = check_document(&rt, alloc, &bytes, &written);
        check_parts(&rt, &key, parts, row);
    }
}

// A key with attributes is another key than the one without, also where they are empty.
#[test]
fn empty_attributes_are_attributes(rt: HostRuntime) {
    let bytes = document(&rt, rt.alloc(), "3030020100 key a000");
    let key = check_document(&rt, rt.alloc(), &bytes, &bytes);
    assert!(rt;
        key.attributes
            .is_some_and(|attributes| attributes.as_bytes().is_empty())
    );
    let worked = good(&rt, "a key", PrivateKeyInfoRef::from_der(&WORKED));
    assert!(rt; key != worked);
}

/// The borrowed form and the owned form refuse the bytes with this.
fn check_refused(rt: &impl Abort, alloc: Global, what: &str, bytes: &[u8], error: Error) {
    let borrowed = PrivateKeyInfoRef::from_der(bytes).err();
    same(rt, what, &borrowed, &Some(error));
    let owned = PrivateKeyInfoOwned::from_der(alloc, bytes).err();
    same(rt, what, &owned, &Some(error));
}

// A row has a document, and what is wrong with it.
const NEAR_MISSES: &str = "302e020102 key = a third version
3051020102 key public = a third version
302f02020000 key = the version in two bytes
305202020001 key public = the version in two bytes
302e020101 key = the second version without a public key
3030020101 key a000 = the second version without a public key
3031020100 key 810100 = the first version with one
3051020100 key public = the first version with one
3034020101 key 810100 810100 = the public key twice
3074020101 key public public = the public key twice
3033020101 key 810100 a000 = attributes behind the public key, where they make no extension
3053020101 key public a000 = attributes behind the public key, where they make no extension
3032020100 key a000 a000 = attributes twice
3055020101 key a000 a000 public = attributes twice
3034020100 key a20405000500 = an extension of two values
3057020101 key public a20405000500 = an extension of two values
3030020100 key a200 = an extension of no value
3053020101 key public a200 = an extension of no value
3030020100 key a100 = a field A1 of no value
3057020101 key public a10405000500 = a field A1 of two values
3033020101 key a103030100 = a field A1 in place of the public key
3053020101 key a1230321004d29167f3f1912a6f7adfa293a051a15c05ec67b8f17267b1c5550dce853bd0d = a field A1 in place of the public key
3032020100 key 9e020500 = fields whose tags are no extensions'
3055020101 key public bf020500 = fields whose tags are no extensions'
3032020101 key 810208ff = a public key with eight unused bits
3051020101 key 8121084d29167f3f1912a6f7adfa293a051a15c05ec67b8f17267b1c5550dce853bd0d = a public key with eight unused bits";

#[test]
fn near_misses(rt: HostRuntime) {
    for row in NEAR_MISSES.lines() {
        let (words, _) = row.split_once(" = ").expect(&rt, "a document");
        let bytes = document(&rt, rt.alloc(), words);
        check_refused(&rt, rt.alloc(), row, &bytes, Error::Malformed);
    }
}

// A whole document before another byte, and one that ends too early.
#[test]
fn documents_of_another_length(rt: HostRuntime) {
    let trailing = Error::TrailingData {
        decoded: 48,
        remaining: 1,
    };
    let bytes = with_a_byte(&rt, rt.alloc(), &WORKED);
    check_refused(&rt, rt.alloc(), "longer", &bytes, trailing);
    check_refused(&rt, rt.alloc(), "shorter", &WORKED[..47], Error::Malformed);
}

fn with_a_byte(rt: &impl Abort, alloc: Global, bytes: &[u8]) -> Vec<u8> {
    let mut longer = good(rt, "memory", Vec::from_slice(alloc, bytes));
    good(rt, "memory", longer.push(0));
    longer
}
