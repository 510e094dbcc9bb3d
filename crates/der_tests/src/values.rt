use super::round_trip::{is_malformed, is_written_as};
use der_small::laws::{
    encoding_has_one_value, equal_texts_are_equal_identifiers, no_encoding_begins_another,
    no_value_begins_another,
};
use der_small::{
    Any, AnyRef, BitString, BitStringRef, Choice, Cursor, Decode, DerOrd, Encode, EncodeValue,
    Error, FixedTag, Length, ObjectIdentifier, OctetString, OctetStringRef, Tag, Utf8Ref, ValueOrd,
    VecWriter, field_at, tagged_len,
};
use std::cmp::Ordering;
use std::test::Fail;

// X.690, 8.1.2, 8.1.3 and 10.1: tags of several bytes, lengths that are no shortest ones, and contents that end early.
#[test]
fn refused_headers(rt: HostRuntime) {
    let refused: [&[u8]; 15] = [
        &[],
        &[4],
        &[0x30, 0x84, 0xff, 0xff, 0xff, 0xff],
        &[0x05, 0x81, 0],
        &[0x1f, 0],
        &[0, 0],
        &[4, 0x80, 0, 0],
        &[4, 0x81, 1, 9],
        &[4, 0x82, 0, 1, 9],
        &[4, 0x83, 0, 0, 1, 9],
        &[4, 0x84, 0, 0, 0, 1, 9],
        &[4, 0x85, 0, 0, 0, 0, 1, 9],
        &[4, 0xff],
        &[4, 1],
        &[4, 2, 9],
    ];
    for bytes in refused {
        assert!(rt; is_malformed::<AnyRef>(bytes), "{bytes:?}");
    }
}

// NULL, and then an octet string that ends early, at which the cursor stays.
fn cursor_stays() -> Result<bool, Error> {
    let mut cursor = Cursor::new(&[5, 0, 4, 2, 1]);
    let tag = cursor.peek_tag();
    let is_null = cursor.read_value()?.is_null();
    let refused = cursor.read_value().err();
    Ok(
        tag == Tag::new(5)
            && is_null
            && refused == Some(Error::Malformed)
            && cursor.rest() == [4, 2, 1].as_slice()
            && !cursor.is_finished(),
    )
}

fn cursor_takes_the_rest() -> bool {
    let mut cursor = Cursor::new(&[0x1f]);
    cursor.peek_tag().is_none() && cursor.take_rest() == [0x1f].as_slice() && cursor.is_finished()
}

#[test]
fn cursors(rt: HostRuntime) -> Result<(), Fail> {
    assert!(rt; cursor_stays()?);
    assert!(rt; cursor_takes_the_rest());
    Ok(())
}

// NULL, borrowed and owned.
fn is_null_everywhere(rt: &HostRuntime) -> Result<bool, Error> {
    let null = AnyRef::from_der(&[5, 0])?;
    let owned = null.ref_to_owned(rt.alloc())?;
    Ok(
        null.is_null()
            && owned.is_null()
            && owned.owned_to_ref() == null
            && owned.tag() == null.tag()
            && owned.value() == null.value()
            && owned == Any::from_der(rt.alloc(), &[5, 0])?
            && owned.to_der(rt.alloc())?.as_slice() == [5, 0].as_slice()
            && AnyRef::new(null.tag(), &[])? == null,
    )
}

// The identifier of Ed25519 (RFC 8410, section 3), as a value of any tag.
fn holds_an_identifier(rt: &HostRuntime) -> Result<bool, Error> {
    let ed25519 = ObjectIdentifier::new("1.3.101.112")?;
    let any = Any::encode_from(rt.alloc(), &ed25519)?;
    Ok(
        any.tag().byte() == Tag::OID
            && any.value() == [0x2b, 0x65, 0x70].as_slice()
            && any.decode_as::<ObjectIdentifier>()? == ed25519,
    )
}

#[test]
fn values_of_any_tag(rt: HostRuntime) -> Result<(), Fail> {
    assert!(rt; is_null_everywhere(&rt)?);
    assert!(rt; holds_an_identifier(&rt)?);
    Ok(())
}

#[test]
fn values_of_another_tag(rt: HostRuntime) -> Result<(), Fail> {
    let (Some(expected), Some(actual)) = (Tag::new(Tag::OID), Tag::new(Tag::NULL)) else {
        return Err(Fail::new("no tags"));
    };
    assert_eq!(rt;
        AnyRef::new(actual, &[])?.decode_as::<ObjectIdentifier>(),
        Err(Error::TagUnexpected { expected, actual })
    );
    assert!(rt;
        ObjectIdentifier::can_decode(expected)
            && !ObjectIdentifier::can_decode(actual)
            && AnyRef::can_decode(actual)
    );
    Ok(())
}

#[test]
fn trailing_bytes(rt: HostRuntime) {
    assert_eq!(rt;
        ObjectIdentifier::from_der(&[6, 1, 0x2b, 0]),
        Err(Error::TrailingData {
            decoded: 3,
            remaining: 1
        })
    );
}

// A number under an implicit tag (X.690, 8.14), and a field of that tag at the front of bytes.
fn tagged_number(rt: &HostRuntime) -> Result<bool, Error> {
    let number = AnyRef::from_der(&[0x81, 1, 7])?;
    let found = match field_at(number.tag(), &[0x81, 1, 7, 9]) {
        Some((content, rest)) => content == [7].as_slice() && rest == [9].as_slice(),
        None => false,
    };
    Ok(
        found
            && field_at(number.tag(), &[2, 1, 7]).is_none()
            && tagged_len(&7u8)? == Length::new(3)
            && Any::encode_from(rt.alloc(), &number)?.tag() == number.tag(),
    )
}

#[test]
fn implicit_tags(rt: HostRuntime) -> Result<(), Fail> {
    assert!(rt; tagged_number(&rt)?);
    Ok(())
}

fn bits_are_kept(rt: &HostRuntime) -> Result<bool, Error> {
    let bits = BitStringRef::new(4, &[0xf0])?.ref_to_owned(rt.alloc())?;
    Ok(
        bits.unused_bits() == 4
            && bits.raw_bytes() == [0xf0].as_slice()
            && bits.to_der(rt.alloc())?.as_slice() == [3, 2, 4, 0xf0].as_slice()
            && BitString::from_der(rt.alloc(), &[3, 2, 4, 0xf0])? == bits
            && BitStringRef::from_der(&[3, 1, 0])?.raw_bytes().is_empty(),
    )
}

#[test]
fn bit_strings(rt: HostRuntime) -> Result<(), Fail> {
    assert!(rt; bits_are_kept(&rt)?);
    let counts: [(u8, &[u8]); 2] = [(8, &[0xf0]), (1, &[])];
    for (unused_bits, octets) in counts {
        assert_eq!(rt;
            BitStringRef::new(unused_bits, octets),
            Err(Error::Malformed)
        );
    }
    let refused: [&[u8]; 4] = [&[3, 2, 8, 0], &[3, 2, 0xff, 0], &[3, 1, 1], &[3, 0]];
    for bytes in refused {
        assert!(rt; is_malformed::<BitStringRef>(bytes), "{bytes:?}");
    }
    Ok(())
}

fn octets_are_kept(rt: &HostRuntime) -> Result<bool, Error> {
    let octets = OctetStringRef::new(&[0])?.ref_to_owned(rt.alloc())?;
    Ok(
        octets.as_bytes() == [0].as_slice()
            && octets.owned_to_ref().as_bytes() == [0].as_slice()
            && octets.to_der(rt.alloc())?.as_slice() == [4, 1, 0].as_slice()
            && OctetString::from_der(rt.alloc(), &[4, 1, 0])? == octets,
    )
}

#[test]
fn octet_strings(rt: HostRuntime) -> Result<(), Fail> {
    assert!(rt; octets_are_kept(&rt)?);
    Ok(())
}

#[test]
fn texts(rt: HostRuntime) -> Result<(), Fail> {
    let text = Utf8Ref::new("aé")?;
    assert!(rt; text.as_str() == "aé");
    assert!(rt; is_written_as(&rt, &text, &[0x0c, 3, 0x61, 0xc3, 0xa9])?);
    assert!(rt; is_malformed::<Utf8Ref>(&[0x0c, 1, 0xc3]));
    Ok(())
}

// X.690, 8.3: from 128 on a zero stands in front, and none where it is not needed.
#[test]
fn numbers_of_one_byte(rt: HostRuntime) -> Result<(), Fail> {
    let numbers: [(u8, &[u8]); 4] = [
        (0, &[2, 1, 0]),
        (127, &[2, 1, 0x7f]),
        (128, &[2, 2, 0, 0x80]),
        (255, &[2, 2, 0, 0xff]),
    ];
    for (number, encoding) in numbers {
        assert!(rt; is_written_as(&rt, &number, encoding)?, "{number}");
    }
    let refused: [&[u8]; 4] = [&[2, 2, 0, 0x7f], &[2, 2, 1, 0], &[2, 1, 0x80], &[2, 0]];
    for bytes in refused {
        assert!(rt; is_malformed::<u8>(bytes), "{bytes:?}");
    }
    Ok(())
}

// Tags by X.690, 8.3, 8.6, 8.7, 8.19 and 8.23. No contract sees the constants.
#[test]
fn tags_of_types(rt: HostRuntime) {
    let rows = [
        (u8::TAG, u8::tag_byte(), 2),
        (BitStringRef::TAG, BitStringRef::tag_byte(), 3),
        (BitString::TAG, BitString::tag_byte(), 3),
        (OctetStringRef::TAG, OctetStringRef::tag_byte(), 4),
        (OctetString::TAG, OctetString::tag_byte(), 4),
        (ObjectIdentifier::TAG, ObjectIdentifier::tag_byte(), 6),
        (Utf8Ref::TAG, Utf8Ref::tag_byte(), 12),
    ];
    for (constant, answer, wanted) in rows {
        assert!(rt; constant == wanted && answer == wanted, "{wanted}");
    }
}

// The order of encodings is by tag, then length, then content; that of contents by bytes.
fn octets_are_ordered() -> Result<bool, Error> {
    let short = OctetStringRef::new(&[2])?;
    let long = OctetStringRef::new(&[1, 1])?;
    Ok(
        short.der_cmp(&long)? == Ordering::Less
            && short.value_cmp(&long)? == Ordering::Greater
            && short.cmp(&long) == Ordering::Greater
            && None.der_cmp(&Some(short))? == Ordering::Less
            && Some(long).der_cmp(&Some(short))? == Ordering::Greater
            && 200u8.der_cmp(&5)? == Ordering::Greater,
    )
}

fn values_are_ordered() -> Result<bool, Error> {
    let null = AnyRef::from_der(&[5, 0])?;
    let one = AnyRef::from_der(&[4, 1, 1])?;
    let bits = BitStringRef::new(0, &[9])?;
    Ok(
        one.der_cmp(&null)? == Ordering::Less
            && one.value_cmp(&null)? == Ordering::Greater
            && bits.cmp(&BitStringRef::new(1, &[2])?) == Ordering::Less
            && bits.value_len()? == Length::new(2),
    )
}

#[test]
fn orders(rt: HostRuntime) -> Result<(), Fail> {
    assert!(rt; octets_are_ordered()?);
    assert!(rt; values_are_ordered()?);
    Ok(())
}

#[test]
fn sums_of_lengths(rt: HostRuntime) {
    let most = Length::new(0xffff_ffff);
    let rows = [(0, Ok(most)), (1, Err(Error::Overlength))];
    for (more, sum) in rows {
        assert!(rt; most.checked_add(Length::new(more)) == sum, "{more}");
    }
}

#[test]
fn laws(_rt: HostRuntime) {
    encoding_has_one_value();
    equal_texts_are_equal_identifiers();
    no_value_begins_another();
    no_encoding_begins_another::<OctetStringRef>();
}

// NULL, and the number 7 behind it.
#[test]
fn written_behind(rt: HostRuntime) -> Result<(), Fail> {
    let mut writer = VecWriter::behind(Vec::from_slice(rt.alloc(), &[5, 0])?);
    7u8.encode(&mut writer)?;
    assert_eq!(rt; writer.bytes.as_slice(), [5, 0, 2, 1, 7].as_slice());
    Ok(())
}

fn shown(rt: &HostRuntime) -> Result<[String; 6], Fail> {
    let any = AnyRef::from_der(&[4, 1, 9])?;
    let bits = BitStringRef::new(4, &[0xf0])?;
    let octets = OctetStringRef::new(&[9])?;
    let text = Utf8Ref::new("a")?;
    let length = Length::new(7);
    let oid = ObjectIdentifier::new("2.999")?;
    Ok([
        format!(in rt.alloc(); "{any:?}")?,
        format!(in rt.alloc(); "{bits:?}")?,
        format!(in rt.alloc(); "{octets:?}")?,
        format!(in rt.alloc(); "{text:?}")?,
        format!(in rt.alloc(); "{length:?}")?,
        format!(in rt.alloc(); "{oid:?}")?,
    ])
}

// As Rust derives it: the name of the type, and its fields in order. An identifier is shown by its text.
#[test]
fn debug_forms(rt: HostRuntime) -> Result<(), Fail> {
    let wanted = [
        "AnyRef { tag: Tag { byte: 4 }, value: [9] }",
        "BitStringRef { unused_bits: 4, raw: [240] }",
        "OctetStringRef { bytes: [9] }",
        "Utf8Ref { text: \"a\" }",
        "Length { number: 7 }",
        "ObjectIdentifier(2.999)",
    ];
    for (form, text) in shown(&rt)?.iter().zip(wanted) {
        assert!(rt; form.as_str() == text, "{text}");
    }
    Ok(())
}
