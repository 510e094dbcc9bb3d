use super::round_trip::is_written_as;
use der_small::{
    Any, AnyRef, BitString, BitStringRef, Decode, Document, Encode, Error, OctetString,
    OctetStringRef, SecretDocument,
};
use identity_io::MemoryDisk;
use std::test::Fail;

fn has_header(rt: &HostRuntime, count: usize, header: &[u8]) -> Result<bool, Error> {
    let content = vec![in rt.alloc(); 0u8; count]?;
    let value = OctetStringRef::new(&content)?;
    let encoding = value.to_der(rt.alloc())?;
    Ok(
        encoding.starts_with(header)
            && encoding.len() == header.len() + count
            && is_written_as(rt, &value, &encoding)?,
    )
}

// Headers by X.690, 8.1.3 and 10.1.
#[test]
fn lengths_of_every_width(rt: HostRuntime) -> Result<(), Fail> {
    let rows: [(usize, &[u8]); 9] = [
        (0, &[4, 0]),
        (127, &[4, 0x7f]),
        (128, &[4, 0x81, 0x80]),
        (255, &[4, 0x81, 0xff]),
        (256, &[4, 0x82, 1, 0]),
        (65535, &[4, 0x82, 0xff, 0xff]),
        (65536, &[4, 0x83, 1, 0, 0]),
        (16777215, &[4, 0x83, 0xff, 0xff, 0xff]),
        (16777216, &[4, 0x84, 1, 0, 0, 0]),
    ];
    for (count, header) in rows {
        assert!(rt; has_header(&rt, count, header)?, "header of {count}");
    }
    Ok(())
}

fn octets_are_copied(rt: &HostRuntime, encoding: &[u8]) -> Result<bool, Error> {
    let octets = OctetString::from_der(rt.alloc(), encoding)?;
    let copied = octets.owned_to_ref().ref_to_owned(rt.alloc())?;
    Ok(copied == octets && copied.to_der(rt.alloc())?.as_slice() == encoding)
}

fn bits_are_copied(rt: &HostRuntime, octets: &[u8]) -> Result<bool, Error> {
    let bits = BitStringRef::new(0, octets)?.ref_to_owned(rt.alloc())?;
    let encoding = bits.to_der(rt.alloc())?;
    Ok(BitString::from_der(rt.alloc(), &encoding)? == bits)
}

fn any_is_copied(rt: &HostRuntime, encoding: &[u8]) -> Result<bool, Error> {
    let any = Any::from_der(rt.alloc(), encoding)?;
    let read = AnyRef::from_der(encoding)?.ref_to_owned(rt.alloc())?;
    Ok(read == any && Any::encode_from(rt.alloc(), &any)? == any)
}

fn documents_are_copied(rt: &HostRuntime, encoding: &[u8]) -> Result<bool, Error> {
    let mut disk = MemoryDisk::new(rt.alloc(), Vec::new(rt.alloc()));
    let secret = SecretDocument::from_der(rt.alloc(), encoding)?;
    secret.write_der_file(&mut disk, "large")?;
    let document = Document::read_der_file(rt.alloc(), &mut disk, "large")?;
    let written = Document::encode_msg(rt.alloc(), &document.decode_msg::<AnyRef>()?)?;
    Ok(document.as_bytes() == encoding && written == document)
}

// No contract says that memory suffices: each call that takes some is shown a value of 100,000 bytes.
#[test]
fn large_values(rt: HostRuntime) -> Result<(), Fail> {
    let content = vec![in rt.alloc(); 7u8; 100_000]?;
    let encoding = OctetStringRef::new(&content)?.to_der(rt.alloc())?;
    assert!(rt; octets_are_copied(&rt, &encoding)?);
    assert!(rt; bits_are_copied(&rt, &content)?);
    assert!(rt; any_is_copied(&rt, &encoding)?);
    assert!(rt; documents_are_copied(&rt, &encoding)?);
    Ok(())
}
