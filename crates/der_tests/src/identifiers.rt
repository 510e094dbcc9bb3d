use der_small::{Error, ObjectIdentifier};
use std::test::Fail;

fn is_text_of(rt: &HostRuntime, text: &str, content: &[u8]) -> Result<bool, Fail> {
    let oid = ObjectIdentifier::new(text)?;
    let shown = oid.to_string(rt.alloc())?;
    Ok(
        oid.as_bytes() == content
            && ObjectIdentifier::from_bytes(content)? == oid
            && shown.as_str() == text,
    )
}

// Contents by X.690, 8.19, worked out by hand: 40 * X + Y, then base 128.
#[test]
fn texts_and_contents(rt: HostRuntime) -> Result<(), Fail> {
    let rows: [(&str, &[u8]); 14] = [
        ("1.3.101.112", &[0x2b, 0x65, 0x70]),
        ("2.999", &[0x88, 0x37]),
        ("0.0", &[0]),
        ("0.39", &[39]),
        ("1.0", &[40]),
        ("1.39", &[79]),
        ("2.0", &[80]),
        ("2.39", &[119]),
        ("2.40", &[120]),
        ("2.47", &[127]),
        ("2.48", &[0x81, 0]),
        ("1.2.840.10045.2.1", &[0x2a, 0x86, 0x48, 0xce, 0x3d, 2, 1]),
        ("1.3.4294967295", &[0x2b, 0x8f, 0xff, 0xff, 0xff, 0x7f]),
        ("2.4294967215", &[0x8f, 0xff, 0xff, 0xff, 0x7f]),
    ];
    for (text, content) in rows {
        assert!(rt; is_text_of(&rt, text, content)?, "{text}");
    }
    Ok(())
}

#[test]
fn arcs(rt: HostRuntime) -> Result<(), Fail> {
    let oid = ObjectIdentifier::new("2.999.3")?;
    let mut arcs = oid.arcs();
    for wanted in [Some(2), Some(999), Some(3), None] {
        assert!(rt; arcs.next() == wanted);
    }
    Ok(())
}

#[test]
fn refused_texts(rt: HostRuntime) {
    let texts = [
        "",
        "1",
        "1.",
        ".1",
        "1..2",
        "1.2.",
        "+1.2",
        "1.+2",
        "1.2a",
        "1,2",
        "01.2",
        "1.02",
        "1.40.1",
        "0.40",
        "3.1",
        "1.3.4294967296",
        "2.4294967216",
        "1.99999999999999999999",
    ];
    for text in texts {
        assert!(rt;
            ObjectIdentifier::new(text) == Err(Error::OidMalformed),
            "{text}"
        );
    }
}

#[test]
fn refused_contents(rt: HostRuntime) {
    let contents: [&[u8]; 7] = [
        &[],
        &[0x80, 1],
        &[0x2b, 0x80, 1],
        &[0x2b, 0x86],
        &[0x90, 0x80, 0x80, 0x80, 0],
        &[0x81, 0x80, 0x80, 0x80, 0x80, 0],
        &[1; 40],
    ];
    for content in contents {
        assert!(rt;
            ObjectIdentifier::from_bytes(content) == Err(Error::Malformed),
            "{content:?}"
        );
    }
}

// A content has 39 bytes at most. The text of 40 arcs has that many, since the first two share a byte, and that of 41 too many.
#[test]
fn longest_identifier(rt: HostRuntime) -> Result<(), Fail> {
    let ones = "1.1.1.1.1.1.1.1.1.1.1.1.1.1.1.1.1.1.1.1.1.1.1.1.1.1.1.1.1.1.1.1.1.1.1.1.1.1.1.1";
    for oid in [
        ObjectIdentifier::new(ones)?,
        ObjectIdentifier::from_bytes(&[1; 39])?,
    ] {
        assert!(rt; oid.as_bytes().len() == 39);
    }
    let more = "1.1.1.1.1.1.1.1.1.1.1.1.1.1.1.1.1.1.1.1.1.1.1.1.1.1.1.1.1.1.1.1.1.1.1.1.1.1.1.1.1";
    assert!(rt; ObjectIdentifier::new(more) == Err(Error::OidMalformed));
    Ok(())
}
