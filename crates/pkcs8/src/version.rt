//! The version of a private key.
ghost use Rattle.std.specs.Prelude.{◌≡◌, ◌↔◌, ◌∷◌, [], IsTrue};
ghost use Rattle.der_core.specs.Tags.{integer_tag, tag_2};
ghost use Rattle.pkcs8.specs.Version.{version_byte};

use crate::Error;
use der_small::{Cursor, DecodeValue, EncodeValue, FixedTag, LawfulValue, Length, Tag, Writer};
use std::fmt;

/// The version of a private key (RFC 5958, section 2).
#[derive(Clone, Copy, PartialEq, Eq)]
pub enum Version {
    /// A key without its public key, as RFC 5208 has it.
    V1 = 0,

    /// A key with its public key.
    V2 = 1,
}

impl Version {
    /// Whether a key of this version holds its public key.
    pub fn has_public_key(self) -> bool
        ensures { IsTrue result ↔ (self ≡ Version.V2) }
    {
        match self {
            Version::V1 => false,
            Version::V2 => true,
        }
    }
}

impl fmt::Debug for Version {
    ghost use Rattle.std.specs.Prelude.{Some};
    ghost use Rattle.pkcs8.specs.Shown.{version_debug};

    ghost debug_output = { λ v. Some (version_debug v) };

    fn fmt<W: fmt::Write>(&self, f: &mut fmt::Formatter<W>) -> fmt::Result {
        match self {
            Version::V1 => write!(f, "V1"),
            Version::V2 => write!(f, "V2"),
        }
    }
}

impl FixedTag for Version {
    ghost tag = { integer_tag };

    ghost tag_is_valid = { tag_2 };

    const TAG: u8 = Tag::INTEGER;

    fn tag_byte() -> u8 {
        Self::TAG
    }
}

impl<'a> DecodeValue<'a> for Version {
    ghost HasContent = { λ b v. b ≡ version_byte v ∷ [] };

    fn decode_value(cursor: &mut Cursor<'a>) -> der_small::Result<Self> {
        let version = match cursor.rest() {
            [0] => Version::V1,
            [1] => Version::V2,
            _ => return Err(der_small::Error::Malformed),
        };
        cursor.take_rest();
        Ok(version)
    }
}

impl EncodeValue for Version {
    ghost content = { λ v. version_byte v ∷ [] };

    fn value_len(&self) -> der_small::Result<Length> {
        Ok(Length::new(1))
    }

    fn encode_value<W: Writer>(&self, writer: &mut W) -> der_small::Result<()> {
        writer.write(&[u8::from(*self)])
    }
}

impl<'a> LawfulValue<'a> for Version {
    ghost use Rattle.std.specs.Prelude.{refl};

    ghost reads_content = { λ b v has. has };

    ghost content_reads = { λ v fits. refl };
}

impl TryFrom<u8> for Version {
    ghost use Rattle.pkcs8.specs.Version.{FromByte};

    type Error = Error;

    ghost try_from_gives = { FromByte };

    fn try_from(byte: u8) -> std::result::Result<Version, Error> {
        match byte {
            0 => Ok(Version::V1),
            1 => Ok(Version::V2),
            _ => Err(Error::Asn1(der_small::Error::Malformed)),
        }
    }
}

impl From<Version> for u8 {
    ghost from_gives = { λ version byte. byte ≡ version_byte version };

    fn from(version: Version) -> u8 {
        match version {
            Version::V1 => 0,
            Version::V2 => 1,
        }
    }
}
