//! What follows the private key: attributes, the public key, extensions.
ghost use Rattle.std.specs.Prelude.{◌≡◌, ◌<◌, ◌≤◌, ◌^◌, length, Option as Maybe, IfOk, IfErr, OnErr};
ghost use Rattle.der_core.specs.declared.error.Error.TheVariants as der;
ghost use Rattle.der_core.specs.Encode.{LengthOf, Wrote};
ghost use Rattle.pkcs8.specs.PrivateKey.{AfterAttributes, AfterKey, after_key_written, attributes_tag, optional_field, public_key_tag};
ghost use Rattle.pkcs8.specs.Version.{version_of};

use crate::attributes::ATTRIBUTES;
use crate::extensions::are_extensions;
use crate::{BitStringLike, Version};
use der_core::field_at;
use der_small::{
    Cursor, DecodeValue, EncodeValue, Error, Length, Result, Tag, Writer, encode_tagged, tagged_len,
};

/// The tag of the public key, whose content is that of a bit string.
const PUBLIC_KEY: u8 = 0x81;

/// The public key where the version has one, before the extensions.
fn after_attributes<'a, PubKey: DecodeValue<'a>>(
    version: Version,
    bytes: &'a [u8],
) -> Result<Option<PubKey>>
    ensures value { IfOk result (λ k. AfterAttributes PubKey.HasContent k bytes.now) }
    ensures version { IfOk result (λ k. version_of k ≡ version) }
    ensures malformed { IfErr result (λ e. e ≡ Error.Malformed) }
    ensures none { OnErr result ((k : Maybe PubKey) → version_of k ≡ version → AfterAttributes PubKey.HasContent k bytes.now → ⊥) }
{
    match version {
        Version::V1 => {
            if !are_extensions(bytes) {
                return Err(Error::Malformed);
            }
            Ok(None)
        }
        Version::V2 => {
            let Some((content, rest)) = field_at(Tag::from_valid(PUBLIC_KEY), bytes) else {
                return Err(Error::Malformed);
            };
            let key = PubKey::decode_value(&mut Cursor::new(content))?;
            if !are_extensions(rest) {
                return Err(Error::Malformed);
            }
            Ok(Some(key))
        }
    }
}

/// What stands between the private key and the extensions.
#[derive(Drop)]
pub(crate) struct Tail<Attrs, PubKey> {
    pub(crate) attributes: Option<Attrs>,
    pub(crate) public_key: Option<PubKey>,
}

/// The attributes where they stand at the front, and the public key where the version has one.
pub(crate) fn after_key<'a, Attrs: DecodeValue<'a>, PubKey: DecodeValue<'a>>(
    version: Version,
    bytes: &'a [u8],
) -> Result<Tail<Attrs, PubKey>>
    ensures value { IfOk result (λ tail. AfterKey Attrs.HasContent PubKey.HasContent tail.attributes tail.public_key bytes.now) }
    ensures version { IfOk result (λ tail. version_of tail.public_key ≡ version) }
    ensures malformed { IfErr result (λ e. e ≡ Error.Malformed) }
    ensures none { OnErr result ((t : Maybe Attrs) (k : Maybe PubKey) → version_of k ≡ version → AfterKey Attrs.HasContent PubKey.HasContent t k bytes.now
        → ⊥) }
{
    let Some((content, rest)) = field_at(Tag::from_valid(ATTRIBUTES), bytes) else {
        let public_key = after_attributes(version, bytes)?;
        return Ok(Tail {
            attributes: None,
            public_key,
        });
    };
    let attributes = Attrs::decode_value(&mut Cursor::new(content))?;
    let public_key = after_attributes(version, rest)?;
    Ok(Tail {
        attributes: Some(attributes),
        public_key,
    })
}

/// The length of the public key's field, where there is one.
fn public_key_len<PubKey: BitStringLike>(public_key: &Option<PubKey>) -> Result<Length>
    ensures { LengthOf (optional_field public_key_tag PubKey.bits public_key.now) result }
{
    match public_key {
        None => Ok(Length::new(0)),
        Some(public_key) => tagged_len(&public_key.as_bit_string()),
    }
}

/// The length of what is written behind the private key.
pub(crate) fn tail_len<Attrs: EncodeValue, PubKey: BitStringLike>(
    attributes: &Option<Attrs>,
    public_key: &Option<PubKey>,
) -> Result<Length>
    ensures { LengthOf (after_key_written Attrs.content PubKey.bits attributes.now public_key.now) result }
{
    let public_key = public_key_len(public_key)?;
    match attributes {
        None => Ok(public_key),
        Some(attributes) => tagged_len(attributes)?.checked_add(public_key),
    }
}

/// Writes the public key's field, where there is one.
fn encode_public_key<PubKey: BitStringLike, W: Writer>(
    public_key: &Option<PubKey>,
    writer: &mut W,
) -> Result<()>
    ensures wrote { Wrote W.HasTold W.refusals W.last_refusal writer.old writer.new (optional_field public_key_tag PubKey.bits public_key.now) result }
    ensures count { W.refusals writer.old ≤ W.refusals writer.new }
    ensures same_borrow { W.borrow writer.new ≡ W.borrow writer.old }
{
    match public_key {
        None => Ok(()),
        Some(public_key) => {
            encode_tagged(
                Tag::from_valid(PUBLIC_KEY),
                &public_key.as_bit_string(),
                writer,
            )
        },
    }
}

/// Writes what stands behind the private key.
pub(crate) fn encode_tail<Attrs: EncodeValue, PubKey: BitStringLike, W: Writer>(
    attributes: &Option<Attrs>,
    public_key: &Option<PubKey>,
    writer: &mut W,
) -> Result<()>
    requires { length (after_key_written Attrs.content PubKey.bits attributes.now public_key.now) < 2 ^ 32 }
    ensures wrote { Wrote W.HasTold W.refusals W.last_refusal writer.old writer.new
        (after_key_written Attrs.content PubKey.bits attributes.now public_key.now) result }
    ensures count { W.refusals writer.old ≤ W.refusals writer.new }
    ensures same_borrow { W.borrow writer.new ≡ W.borrow writer.old }
{
    match attributes {
        None => encode_public_key(public_key, writer),
        Some(attributes) => {
            encode_tagged(Tag::from_valid(ATTRIBUTES), attributes, writer)?;
            encode_public_key(public_key, writer)
        }
    }
}
