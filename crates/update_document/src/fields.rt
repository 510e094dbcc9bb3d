//! Sequences of two and of three fields.
ghost use Rattle.std.specs.Prelude.{◌≡◌};
ghost use Rattle.der_core.specs.Tags.{tag_48};
ghost use Rattle.der_core.specs.Sequence.{TwoFields, ThreeFields};

use der_core::{Cursor, Decode, DecodeValue, Error, FixedTag, Tag};

/// The text, the private key and the public key of an entry, as a sequence of three fields.
#[derive(Drop)]
pub struct EntryFields<Text, Private, Public> {
    /// The text of its SPIFFE ID.
    pub text: Text,

    /// The private key.
    pub private_key: Private,

    /// The public key.
    pub public_key: Public,
}

/// The text and the key set of a bundle, as a sequence of two fields.
#[derive(Drop)]
pub struct BundleFields<Text, Keys> {
    /// The text of its trust domain.
    pub text: Text,

    /// Its key set.
    pub jwks: Keys,
}

impl<Text, Private, Public> FixedTag for EntryFields<Text, Private, Public> {
    ghost tag = { 48 };

    ghost tag_is_valid = { tag_48 };

    const TAG: u8 = Tag::SEQUENCE;

    fn tag_byte() -> u8
        ensures { result ≡ 48 }
    {
        Tag::SEQUENCE
    }
}

impl<'a, Text: Decode<'a>, Private: Decode<'a>, Public: Decode<'a>> DecodeValue<'a>
    for EntryFields<Text, Private, Public> {
    ghost HasContent = { λ bytes v. ThreeFields Text.Reads Private.Reads Public.Reads bytes v.text v.private_key v.public_key };

    fn decode_value(cursor: &mut Cursor<'a>) -> Result<Self, Error> {
        let mut at = Cursor::new(cursor.rest());
        let text = Text::decode(&mut at)?;
        let private_key = Private::decode(&mut at)?;
        let public_key = Public::decode(&mut at)?;
        if !at.is_finished() {
            return Err(Error::Malformed);
        }
        cursor.take_rest();
        Ok(EntryFields {
            text,
            private_key,
            public_key,
        })
    }
}

impl<Text, Keys> FixedTag for BundleFields<Text, Keys> {
    ghost tag = { 48 };

    ghost tag_is_valid = { tag_48 };

    const TAG: u8 = Tag::SEQUENCE;

    fn tag_byte() -> u8
        ensures { result ≡ 48 }
    {
        Tag::SEQUENCE
    }
}

impl<'a, Text: Decode<'a>, Keys: Decode<'a>> DecodeValue<'a> for BundleFields<Text, Keys> {
    ghost HasContent = { λ bytes v. TwoFields Text.Reads Keys.Reads bytes v.text v.jwks };

    fn decode_value(cursor: &mut Cursor<'a>) -> Result<Self, Error> {
        let mut at = Cursor::new(cursor.rest());
        let text = Text::decode(&mut at)?;
        let jwks = Keys::decode(&mut at)?;
        if !at.is_finished() {
            return Err(Error::Malformed);
        }
        cursor.take_rest();
        Ok(BundleFields { text, jwks })
    }
}
