use der_small::{Document, Error, ObjectIdentifier, SecretDocument, Tag};
use identity_io::{Disk, MemoryDisk};
use std::test::Fail;

fn is_document(rt: &HostRuntime, bytes: &[u8]) -> Result<bool, Error> {
    let document = Document::from_der(rt.alloc(), bytes)?;
    Ok(document.as_bytes() == bytes && document.len() == bytes.len())
}

#[test]
fn documents_of_one_value(rt: HostRuntime) {
    let trailing = Error::TrailingData {
        decoded: 2,
        remaining: 1,
    };
    let rows: [(&[u8], std::result::Result<bool, Error>); 3] = [
        (&[5, 0], Ok(true)),
        (&[5, 0, 0], Err(trailing)),
        (&[0x30], Err(Error::Malformed)),
    ];
    for (bytes, wanted) in rows {
        assert!(rt; is_document(&rt, bytes) == wanted, "{bytes:?}");
    }
}

// The identifier of Ed25519 (RFC 8410, section 3).
fn holds_an_identifier(rt: &HostRuntime) -> Result<bool, Error> {
    let ed25519 = ObjectIdentifier::new("1.3.101.112")?;
    let document = Document::encode_msg(rt.alloc(), &ed25519)?;
    Ok(
        document.as_bytes() == [6, 3, 0x2b, 0x65, 0x70].as_slice()
            && document.decode_msg::<ObjectIdentifier>()? == ed25519
            && Document::from_der(rt.alloc(), &[5, 0])? < document,
    )
}

fn keeps_a_secret(rt: &HostRuntime) -> Result<bool, Error> {
    let ed25519 = ObjectIdentifier::new("1.3.101.112")?;
    let secret = SecretDocument::encode_msg(rt.alloc(), &ed25519)?;
    Ok(
        secret.as_bytes() == [6, 3, 0x2b, 0x65, 0x70].as_slice()
            && secret.len() == 5
            && secret.decode_msg::<ObjectIdentifier>()? == ed25519
            && SecretDocument::from_der(rt.alloc(), secret.as_bytes())? == secret,
    )
}

#[test]
fn documents_of_a_type(rt: HostRuntime) -> Result<(), Fail> {
    assert!(rt; holds_an_identifier(&rt)?);
    assert!(rt; keeps_a_secret(&rt)?);
    Ok(())
}

#[test]
fn shown_secret(rt: HostRuntime) -> Result<(), Fail> {
    let secret = SecretDocument::from_der(rt.alloc(), &[6, 3, 0x2b, 0x65, 0x70])?;
    let shown = format!(in rt.alloc(); "{secret:?}")?;
    assert!(rt; shown.as_str() == "SecretDocument { len: 5 }");
    Ok(())
}

fn errors() -> Result<[Error; 10], Fail> {
    let (Some(expected), Some(actual)) = (Tag::new(Tag::OID), Tag::new(0xaf)) else {
        return Err(Fail::new("no tags"));
    };
    let oid = ObjectIdentifier::new("1.2.3")?;
    Ok([
        Error::Malformed,
        Error::TrailingData {
            decoded: 153,
            remaining: 1,
        },
        Error::TagUnexpected { expected, actual },
        Error::Overlength,
        Error::OidMalformed,
        Error::OidUnknown { oid },
        Error::FileMissing,
        Error::FileFault,
        Error::FileTooLong,
        Error::OutOfMemory,
    ])
}

#[test]
fn texts_of_errors(rt: HostRuntime) -> Result<(), Fail> {
    let texts = [
        "malformed",
        "trailing data: decoded 153, remaining 1",
        "unexpected tag: expected 06, actual AF",
        "length too large",
        "malformed OID",
        "unknown OID: 1.2.3",
        "file missing",
        "file fault",
        "file too long",
        "out of memory",
    ];
    for (error, text) in errors()?.iter().zip(texts) {
        assert!(rt; error.to_string(rt.alloc())?.as_str() == text, "{text}");
    }
    Ok(())
}

fn reads_what_was_written(rt: &HostRuntime) -> Result<bool, Error> {
    let mut disk = MemoryDisk::new(rt.alloc(), Vec::new(rt.alloc()));
    let null = Document::from_der(rt.alloc(), &[5, 0])?;
    null.write_der_file(&mut disk, "null")?;
    let secret = SecretDocument::read_der_file(rt.alloc(), &mut disk, "null")?;
    let missing = SecretDocument::read_der_file(rt.alloc(), &mut disk, "none").err();
    Ok(
        Document::read_der_file(rt.alloc(), &mut disk, "null")? == null
            && secret.as_bytes() == [5, 0].as_slice()
            && missing == Some(Error::FileMissing),
    )
}

fn refuses_a_longer_file(rt: &HostRuntime) -> bool {
    let mut disk = MemoryDisk::new(rt.alloc(), Vec::new(rt.alloc()));
    let written = disk.write_file("two", &[5, 0, 0]).is_ok();
    let trailing = Error::TrailingData {
        decoded: 2,
        remaining: 1,
    };
    written && Document::read_der_file(rt.alloc(), &mut disk, "two").err() == Some(trailing)
}

#[test]
fn files_of_documents(rt: HostRuntime) -> Result<(), Fail> {
    assert!(rt; reads_what_was_written(&rt)?);
    assert!(rt; refuses_a_longer_file(&rt));
    Ok(())
}

// Calls 0 and 1 fail, and the third writes.
#[test]
fn faults_of_files(rt: HostRuntime) -> Result<(), Fail> {
    let mut disk = MemoryDisk::new(rt.alloc(), vec![in rt.alloc(); 0, 1]?);
    let secret = SecretDocument::from_der(rt.alloc(), &[5, 0])?;
    let read = Document::read_der_file(rt.alloc(), &mut disk, "null").err();
    let written = secret.write_der_file(&mut disk, "null").err();
    assert!(rt; read == Some(Error::FileFault) && written == Some(Error::FileFault));
    secret.write_der_file(&mut disk, "secret")?;
    let Ok(bytes) = disk.read_file(rt.alloc(), "secret") else {
        return Err(Fail::new("no file"));
    };
    assert!(rt; bytes.as_slice() == [5, 0].as_slice());
    Ok(())
}
