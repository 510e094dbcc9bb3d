//! How a type of one's own is read and written: a sequence of three fields.
ghost use Rattle.std.specs.Prelude.{◌≡◌, ◌++◌};
ghost use Rattle.der_core.specs.Sequence.{ThreeFields};
ghost use Rattle.der_core.specs.Tags.{sequence_tag, tag_48};

use der_small::{
    Cursor, Decode, DecodeValue, Encode, EncodeValue, Error, FixedTag, Length, Result, Tag, Writer,
};

/// SEQUENCE { place, guest, proof }, whatever the fields are.
#[derive(Clone, Copy, Debug, PartialEq, Eq)]
pub(super) struct Visit<Place, Guest, Proof> {
    pub(super) place: Place,
    pub(super) guest: Guest,
    pub(super) proof: Proof,
}

impl<Place, Guest, Proof> FixedTag for Visit<Place, Guest, Proof> {
    ghost tag = { sequence_tag };

    ghost tag_is_valid = { tag_48 };

    const TAG: u8 = Tag::SEQUENCE;

    fn tag_byte() -> u8
        ensures { result ≡ sequence_tag }
    {
        Tag::SEQUENCE
    }
}

impl<'a, Place: Decode<'a>, Guest: Decode<'a>, Proof: Decode<'a>> DecodeValue<'a>
    for Visit<Place, Guest, Proof> {
    ghost HasContent = { λ bytes v. ThreeFields Place.Reads Guest.Reads Proof.Reads bytes v.place v.guest v.proof };

    fn decode_value(cursor: &mut Cursor<'a>) -> Result<Self> {
        let mut at = Cursor::new(cursor.rest());
        let Ok(place) = Place::decode(&mut at) else {
            return Err(Error::Malformed);
        };
        let Ok(guest) = Guest::decode(&mut at) else {
            return Err(Error::Malformed);
        };
        let Ok(proof) = Proof::decode(&mut at) else {
            return Err(Error::Malformed);
        };
        if !at.is_finished() {
            return Err(Error::Malformed);
        }
        cursor.take_rest();
        Ok(Visit {
            place,
            guest,
            proof,
        })
    }
}

impl<Place: Encode, Guest: Encode, Proof: Encode> EncodeValue for Visit<Place, Guest, Proof> {
    ghost content = { λ v. Place.encoding v.place ++ (Guest.encoding v.guest ++ Proof.encoding v.proof) };

    fn value_len(&self) -> Result<Length> {
        let place = self.place.encoded_len()?;
        let guest = self.guest.encoded_len()?;
        let proof = self.proof.encoded_len()?;
        place.checked_add(guest.checked_add(proof)?)
    }

    fn encode_value<W: Writer>(&self, writer: &mut W) -> Result<()> {
        let _ = self.value_len()?;
        self.place.encode(writer)?;
        self.guest.encode(writer)?;
        self.proof.encode(writer)
    }
}
