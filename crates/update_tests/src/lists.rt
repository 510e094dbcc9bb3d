use der_small::{Encode, Error, OctetStringRef};
use std::test::Fail;
use update_document::laws::lists_are_written;
use update_document::{SequenceOf, decode_all};

// Encodings by X.690, 8.9 and 8.10, worked out by hand.
#[test]
fn lists_of_numbers(rt: HostRuntime) -> Result<(), Fail> {
    let rows: [(&[u8], &[u8]); 3] = [
        (&[], &[0x30, 0]),
        (&[7], &[0x30, 3, 2, 1, 7]),
        (&[7, 200], &[0x30, 7, 2, 1, 7, 2, 2, 0, 200]),
    ];
    for (numbers, encoding) in rows {
        assert_eq!(rt;
            SequenceOf(numbers).to_der(rt.alloc())?.as_slice(),
            encoding
        );
        let read = decode_all::<u8>(rt.alloc(), &encoding[2..])?;
        assert_eq!(rt; read.as_slice(), numbers);
    }
    Ok(())
}

#[test]
fn refused_lists(rt: HostRuntime) {
    let contents: [&[u8]; 4] = [
        &[2],
        &[2, 1, 7, 2],
        &[2, 1, 7, 4, 1, 7],
        &[2, 1, 7, 2, 1, 0x80],
    ];
    for content in contents {
        assert_eq!(rt;
            decode_all::<u8>(rt.alloc(), content).err(),
            Some(Error::Malformed)
        );
    }
}

// A list of 3,000 numbers, whose length takes two bytes.
#[test]
fn long_list(rt: HostRuntime) -> Result<(), Fail> {
    let numbers = vec![in rt.alloc(); 5u8; 3000]?;
    let encoding = SequenceOf(numbers.as_slice()).to_der(rt.alloc())?;
    assert!(rt; encoding.starts_with(&[0x30, 0x82, 0x23, 0x28, 2, 1, 5]));
    assert_eq!(rt; decode_all::<u8>(rt.alloc(), &encoding[4..])?, numbers);
    Ok(())
}

#[test]
fn laws(_rt: HostRuntime) {
    lists_are_written::<OctetStringRef>();
}
