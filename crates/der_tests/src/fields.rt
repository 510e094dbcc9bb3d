use super::visit::Visit;
use der_small::{Decode, Encode, ObjectIdentifier, OctetStringRef, Utf8Ref};
use std::test::Fail;

#[test]
fn values_of_three_fields(rt: HostRuntime) -> Result<(), Fail> {
    let visit = Visit {
        place: ObjectIdentifier::new("2.999")?,
        guest: Utf8Ref::new("a")?,
        proof: OctetStringRef::new(&[9])?,
    };
    let encoding = visit.to_der(rt.alloc())?;
    assert_eq!(rt;
        encoding.as_slice(),
        [0x30, 10, 6, 2, 0x88, 0x37, 0x0c, 1, 0x61, 4, 1, 9].as_slice()
    );
    assert_eq!(rt; Visit::from_der(&encoding)?, visit);
    Ok(())
}
