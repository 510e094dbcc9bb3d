//! Entries that break no rule of their own, and what is written of them.
ghost use Rattle.std.specs.Prelude.{◌≡◌};
ghost use Rattle.der_core.specs.Tags.{tag_12, tag_48};
ghost use Rattle.spiffe_id.specs.SpiffeId.{id_text};
ghost use Rattle.update_document.specs.Spelling.{entry_content};
ghost use Rattle.identity_update.specs.Canonical.{canonical_entry};
ghost use Rattle.identity_update.specs.Checked.{checked_entry};

use der_core::{Encode, EncodeValue, Error, FixedTag, Length, Tag, Writer};
use pkcs8::PrivateKeyInfoRef;
use spiffe_id::{SPIFFE_SCHEME_PREFIX, SpiffeId};
use spki::SubjectPublicKeyInfoRef;

/// An entry that breaks no rule of its own, in borrowed bytes.
#[derive(Drop)]
pub(crate) struct CheckedEntry<'a> {
    pub(crate) id: SpiffeId,
    pub(crate) private_key: PrivateKeyInfoRef<'a>,
    pub(crate) public_key: SubjectPublicKeyInfoRef<'a>,
}

// The text of an id.
#[derive(Drop)]
struct IdText<'i>(&'i SpiffeId);

impl<'i> FixedTag for IdText<'i> {
    ghost tag = { 12 };

    ghost tag_is_valid = { tag_12 };

    const TAG: u8 = Tag::UTF8_STRING;

    fn tag_byte() -> u8
        ensures { result ≡ 12 }
    {
        Tag::UTF8_STRING
    }
}

impl<'i> EncodeValue for IdText<'i> {
    ghost content = { λ v. id_text v.0.now };

    fn value_len(&self) -> Result<Length, Error> {
        let len = SPIFFE_SCHEME_PREFIX.len()
            + self.0.trust_domain_name().len()
            + self.0.path().len();
        if len >= 0x1_0000_0000 {
            return Err(Error::Overlength);
        }
        Ok(Length::new(len as u32))
    }

    fn encode_value<W: Writer>(&self, writer: &mut W) -> Result<(), Error> {
        let _ = self.value_len()?;
        writer.write(SPIFFE_SCHEME_PREFIX.as_bytes())?;
        writer.write(self.0.trust_domain_name().as_bytes())?;
        writer.write(self.0.path().as_bytes())
    }
}

impl<'a> FixedTag for CheckedEntry<'a> {
    ghost tag = { 48 };

    ghost tag_is_valid = { tag_48 };

    const TAG: u8 = Tag::SEQUENCE;

    fn tag_byte() -> u8
        ensures { result ≡ 48 }
    {
        Tag::SEQUENCE
    }
}

impl<'a> EncodeValue for CheckedEntry<'a> {
    ghost content = { λ e. entry_content (canonical_entry (checked_entry e)) };

    fn value_len(&self) -> Result<Length, Error> {
        let id = IdText(&self.id).encoded_len()?;
        let private_key = self.private_key.encoded_len()?;
        let public_key = self.public_key.encoded_len()?;
        id.checked_add(private_key)?.checked_add(public_key)
    }

    fn encode_value<W: Writer>(&self, writer: &mut W) -> Result<(), Error> {
        let _ = self.value_len()?;
        IdText(&self.id).encode(writer)?;
        self.private_key.encode(writer)?;
        self.public_key.encode(writer)
    }
}
