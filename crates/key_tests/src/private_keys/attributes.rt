use crate::checks::{good, same, same_bytes};
use der_small::{Decode, Encode, Error, FixedTag};
use pkcs8::{Attributes, AttributesRef};

// A field A0 (RFC 5958, section 2), here with an empty sequence in it.
const FIELD: [u8; 4] = [0xa0, 2, 0x30, 0];

#[test]
fn attributes_in_both_forms(rt: HostRuntime) {
    let alloc = rt.alloc();
    let attributes = good(&rt, "attributes", AttributesRef::new(&[0x30, 0]));
    same_bytes(
        &rt,
        "attributes",
        attributes.as_bytes(),
        [0x30, 0].as_slice(),
    );
    let owned = good(&rt, "memory", attributes.ref_to_owned(alloc));
    same_bytes(&rt, "owned", owned.as_bytes(), [0x30, 0].as_slice());
    assert!(rt; owned.owned_to_ref() == attributes);
    let written = good(&rt, "memory", attributes.to_der(alloc));
    same_bytes(&rt, "written", written.as_slice(), FIELD.as_slice());
    let written = good(&rt, "memory", owned.to_der(alloc));
    same_bytes(&rt, "written", written.as_slice(), FIELD.as_slice());
}

#[test]
fn attributes_alone(rt: HostRuntime) {
    let attributes = good(&rt, "attributes", AttributesRef::from_der(&FIELD));
    same_bytes(
        &rt,
        "attributes",
        attributes.as_bytes(),
        [0x30, 0].as_slice(),
    );
    let refused = AttributesRef::from_der(&[0xa1, 0]).err();
    same(&rt, "another field", &refused, &Some(Error::Malformed));
    for tag in [
        AttributesRef::TAG,
        AttributesRef::tag_byte(),
        Attributes::TAG,
        Attributes::tag_byte(),
    ] {
        same(&rt, "a tag", &tag, &0xa0);
    }
}
