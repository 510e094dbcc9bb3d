//! The bundles of an update, and what is written of them.
ghost use Rattle.std.specs.Prelude.{◌≡◌};
ghost use Rattle.der_core.specs.Tags.{tag_48};
ghost use Rattle.update_document.specs.Spelling.{bundle_content};
ghost use Rattle.identity_update.specs.Bundle.{plain_bundle};
ghost use Rattle.identity_update.specs.Canonical.{canonical_bundle};

use der_core::{Encode, EncodeValue, Error, FixedTag, Length, Tag, Writer};
use der_small::{OctetStringRef, Utf8Ref};
use spiffe_id::TrustDomain;

/// A trust bundle as an update lists it.
#[derive(Debug, Drop, PartialEq, Eq)]
pub struct BundleParts {
    /// The trust domain whose bundle it is.
    pub trust_domain: TrustDomain,

    /// Its key set (RFC 7517, section 5), as it was written.
    pub jwks: Vec<u8>,
}

impl FixedTag for BundleParts {
    ghost tag = { 48 };

    ghost tag_is_valid = { tag_48 };

    const TAG: u8 = Tag::SEQUENCE;

    fn tag_byte() -> u8
        ensures { result ≡ 48 }
    {
        Tag::SEQUENCE
    }
}

impl EncodeValue for BundleParts {
    ghost content = { λ b. bundle_content (canonical_bundle (plain_bundle b)) };

    fn value_len(&self) -> Result<Length, Error> {
        let text = Utf8Ref::new(self.trust_domain.as_str())?.encoded_len()?;
        let jwks = OctetStringRef::new(&self.jwks)?.encoded_len()?;
        text.checked_add(jwks)
    }

    fn encode_value<W: Writer>(&self, writer: &mut W) -> Result<(), Error> {
        let _ = self.value_len()?;
        Utf8Ref::new(self.trust_domain.as_str())?.encode(writer)?;
        OctetStringRef::new(&self.jwks)?.encode(writer)
    }
}
