//! Algorithm identifiers.
ghost use Rattle.std.specs.Prelude.{◌≡◌, ◌≢◌, ℕ, List, None, Some, IfOk, IfErr, OnOk, OnErr, MatchResult};
ghost use Rattle.der_core.specs.Any.{plain_ref, plain_any};
ghost use Rattle.der_core.specs.Decode.{FromDerOwned};
ghost use Rattle.der_core.specs.ObjectIdentifier.{oid_content};
ghost use Rattle.der_core.specs.Order.{and_then, option_order};
ghost use Rattle.der_core.specs.Tags.{sequence_tag, tag_48};
ghost use Rattle.spki.specs.Algorithm.{AlgorithmContent, algorithm_content};
ghost use Rattle.spki.specs.AlgorithmLaws.{algorithm_reads_content, algorithm_content_reads};
ghost use Rattle.spki.specs.AlgorithmOids.{ParametersOid, AreOids, WantedParameters, WantedOids};
ghost use Rattle.spki.specs.PlainAlgorithm.{plain_algorithm, ReadsAlgorithm};

use crate::{Error, Result};
use der_small::{
    Any, AnyRef, Choice, Cursor, Decode, DecodeValue, DerOrd, Encode, EncodeValue, FixedTag,
    LawfulValue, Length, ObjectIdentifier, Tag, ValueOrd, Writer,
};
use std::alloc::Global;
use std::cmp::Ordering;

/// An algorithm, and its parameters where it has some (RFC 5280, section 4.1.1.2).
#[derive(Clone, Copy, Debug, Drop, PartialEq, Eq, PartialOrd, Ord, Hash)]
pub struct AlgorithmIdentifier<Params> {
    /// Which algorithm it is.
    pub oid: ObjectIdentifier,

    /// What the algorithm needs to know beside the key, such as a curve.
    pub parameters: Option<Params>,
}

/// An identifier whose parameters lie in borrowed bytes.
pub type AlgorithmIdentifierRef<'a> = AlgorithmIdentifier<AnyRef<'a>>;

/// An identifier whose parameters are an object identifier, as those of elliptic curves are.
pub type AlgorithmIdentifierWithOid = AlgorithmIdentifier<ObjectIdentifier>;

/// An identifier whose parameters have bytes of their own.
pub type AlgorithmIdentifierOwned = AlgorithmIdentifier<Any>;

impl<Params> FixedTag for AlgorithmIdentifier<Params> {
    ghost tag = { sequence_tag };

    ghost tag_is_valid = { tag_48 };

    const TAG: u8 = Tag::SEQUENCE;

    fn tag_byte() -> u8
        ensures { result ≡ sequence_tag }
    {
        Tag::SEQUENCE
    }
}

impl<'a, Params: Choice<'a>> DecodeValue<'a> for AlgorithmIdentifier<Params> {
    ghost HasContent = { AlgorithmContent Params.Reads };

    fn decode_value(cursor: &mut Cursor<'a>) -> der_small::Result<Self> {
        let mut at = Cursor::new(cursor.rest());
        let oid = ObjectIdentifier::decode(&mut at)?;
        if at.is_finished() {
            cursor.take_rest();
            return Ok(AlgorithmIdentifier {
                oid,
                parameters: None,
            });
        }
        let parameters = Params::decode(&mut at)?;
        if !at.is_finished() {
            return Err(der_small::Error::Malformed);
        }
        cursor.take_rest();
        Ok(AlgorithmIdentifier {
            oid,
            parameters: Some(parameters),
        })
    }
}

impl<Params: Encode> EncodeValue for AlgorithmIdentifier<Params> {
    ghost content = { algorithm_content Params.encoding };

    fn value_len(&self) -> der_small::Result<Length> {
        let oid = self.oid.encoded_len()?;
        let parameters = match &self.parameters {
            None => Length::new(0),
            Some(parameters) => parameters.encoded_len()?,
        };
        oid.checked_add(parameters)
    }

    fn encode_value<W: Writer>(&self, writer: &mut W) -> der_small::Result<()> {
        let _ = self.value_len()?;
        self.oid.encode(writer)?;
        match &self.parameters {
            None => Ok(()),
            Some(parameters) => parameters.encode(writer),
        }
    }
}

impl<'a, Params: Choice<'a>> LawfulValue<'a> for AlgorithmIdentifier<Params> {
    ghost reads_content = { λ b v has. algorithm_reads_content Params.Reads Params.encoding Params.reads_encoding b v has };

    ghost content_reads = { λ v fits. algorithm_content_reads Params.Reads Params.encoding Params.encoding_reads v fits };
}

impl<Params: DerOrd> ValueOrd for AlgorithmIdentifier<Params> {
    ghost value_order = { λ a b. and_then (⟦<ObjectIdentifier as DerOrd>⟧.der_order a.oid b.oid) (option_order Params.der_order a.parameters b.parameters) };

    fn value_cmp(&self, other: &Self) -> der_small::Result<Ordering> {
        match self.oid.der_cmp(&other.oid)? {
            Ordering::Equal => self.parameters.der_cmp(&other.parameters),
            unequal => Ok(unequal),
        }
    }
}

/// The identifier that is held, where it is the one that is wanted.
fn only_wanted(held: ObjectIdentifier, wanted: ObjectIdentifier) -> Result<ObjectIdentifier>
    ensures value { IfOk result (λ oid. oid ≡ held) }
    ensures same { OnOk result (oid_content held ≡ oid_content wanted) }
    ensures unknown { IfErr result (λ e. e ≡ Error.OidUnknown held) }
    ensures differs { OnErr result (oid_content held ≢ oid_content wanted) }
{
    if held != wanted {
        return Err(Error::OidUnknown { oid: held });
    }
    Ok(held)
}

impl<Params> AlgorithmIdentifier<Params> {
    /// Takes the identifier only if it is the one that the caller can work with: `OidUnknown` with what is held where it is another.
    pub fn assert_algorithm_oid(&self, expected_oid: ObjectIdentifier) -> Result<ObjectIdentifier>
        ensures value { IfOk result (λ oid. oid_content oid ≡ oid_content expected_oid) }
        ensures held { OnOk result (oid_content self.now.oid ≡ oid_content expected_oid) }
        ensures unknown { IfErr result (λ e. e ≡ Error.OidUnknown self.now.oid) }
        ensures differs { IfErr result (λ _. oid_content self.now.oid ≢ oid_content expected_oid) }
    {
        only_wanted(self.oid, expected_oid)
    }
}

impl<'a> AlgorithmIdentifier<AnyRef<'a>> {
    /// Takes the parameters only if they are the object identifier that the caller can work with: the refusals of `parameters_oid`, and
    /// `OidUnknown` with what is held where they are another.
    pub fn assert_parameters_oid(&self, expected_oid: ObjectIdentifier) -> Result<ObjectIdentifier>
        ensures { WantedParameters (plain_algorithm plain_ref self.now).parameters (oid_content expected_oid) result }
    {
        only_wanted(self.parameters_oid()?, expected_oid)
    }

    /// Takes both, the algorithm first: the refusals of `assert_algorithm_oid`, and then those of `assert_parameters_oid`.
    pub fn assert_oids(
        &self,
        algorithm: ObjectIdentifier,
        parameters: ObjectIdentifier,
    ) -> Result<()>
        ensures { WantedOids self.now.oid (plain_algorithm plain_ref self.now).parameters (oid_content algorithm) (oid_content parameters) result }
    {
        self.assert_algorithm_oid(algorithm)?;
        self.assert_parameters_oid(parameters)?;
        Ok(())
    }

    /// The parameters, whatever they are: `AlgorithmParametersMissing` where there are none.
    pub fn parameters_any(&self) -> Result<AnyRef<'a>>
        ensures value { IfOk result (λ v. self.now.parameters ≡ Some v) }
        ensures missing { IfErr result (λ e. e ≡ Error.AlgorithmParametersMissing) }
        ensures absent { IfErr result (λ _. self.now.parameters ≡ None) }
    {
        match self.parameters {
            Some(parameters) => Ok(parameters),
            None => Err(Error::AlgorithmParametersMissing),
        }
    }

    /// The parameters as an object identifier, such as that of a curve: `AlgorithmParametersMissing` where there are none, and within `Asn1`
    /// `TagUnexpected` where they are of another tag, `Malformed` where their content is that of no identifier.
    pub fn parameters_oid(&self) -> Result<ObjectIdentifier>
        ensures { ParametersOid (plain_algorithm plain_ref self.now).parameters result }
    {
        Ok(self.parameters_any()?.decode_as()?)
    }

    /// The algorithm, and the parameters as an object identifier where they are neither absent nor NULL: `TagUnexpected` where they are of
    /// another tag, `Malformed` where their content is that of no identifier.
    pub fn oids(&self) -> der_small::Result<(ObjectIdentifier, Option<ObjectIdentifier>)>
        ensures algorithm { IfOk result (λ oids. oids.0 ≡ self.now.oid) }
        ensures parameters { AreOids (plain_algorithm plain_ref self.now).parameters result }
    {
        let parameters = match self.parameters {
            None => None,
            Some(parameters) => {
                if parameters.is_null() {
                    None
                } else {
                    Some(parameters.decode_as()?)
                }
            }
        };
        Ok((self.oid, parameters))
    }

    /// The same identifier with bytes of its own, for when the input doesn't live long enough. `OutOfMemory` alone refuses it.
    pub fn ref_to_owned(&self, alloc: Global) -> Result<AlgorithmIdentifierOwned>
        ensures { MatchResult result (λ v. plain_algorithm plain_any v ≡ plain_algorithm plain_ref self.now) (λ e. e ≡ Error.OutOfMemory) }
    {
        let parameters = match &self.parameters {
            None => None,
            Some(parameters) => Some(parameters.ref_to_owned(alloc)?),
        };
        Ok(AlgorithmIdentifier {
            oid: self.oid,
            parameters,
        })
    }
}

impl AlgorithmIdentifier<Any> {
    /// Reads one identifier and copies its parameters: `Malformed` where the bytes begin with none, `TrailingData` where they have more behind it,
    /// `OutOfMemory`.
    pub fn from_der(alloc: Global, bytes: &[u8]) -> der_small::Result<Self>
        ensures { FromDerOwned (plain_algorithm plain_any) ReadsAlgorithm bytes.now result }
    {
        match AlgorithmIdentifierRef::from_der(bytes) {
            Ok(value) => match value.ref_to_owned(alloc) {
                Ok(value) => Ok(value),
                Err(_) => Err(der_small::Error::OutOfMemory),
            },
            Err(error) => Err(error),
        }
    }

    /// The same identifier in borrowed bytes, which has the calls on parameters.
    pub fn owned_to_ref(&self) -> AlgorithmIdentifierRef<'_>
        ensures { plain_algorithm plain_ref result ≡ plain_algorithm plain_any self.now }
    {
        AlgorithmIdentifier {
            oid: self.oid,
            parameters: self.parameters.as_ref().map(|p| p.owned_to_ref()),
        }
    }
}

/// What can be seen as an identifier in borrowed bytes.
pub trait AsAlgorithmIdentifierRef {
    // What contracts see of the identifier.
    ghost algorithm: { Self → PlainAlgorithm };

    /// The identifier, which keeps what it was taken from borrowed.
    fn as_algo_ref<'a>(&'a self) -> AlgorithmIdentifierRef<'a>
        ensures { plain_algorithm plain_ref result ≡ algorithm self.now };
}

ghost use Rattle.spki.specs.PlainAlgorithm.{PlainAlgorithm};

impl<'b> AsAlgorithmIdentifierRef for AlgorithmIdentifier<AnyRef<'b>> {
    ghost algorithm = { plain_algorithm plain_ref };

    fn as_algo_ref<'a>(&'a self) -> AlgorithmIdentifierRef<'a> {
        *self
    }
}

impl AsAlgorithmIdentifierRef for AlgorithmIdentifier<Any> {
    ghost algorithm = { plain_algorithm plain_any };

    fn as_algo_ref<'a>(&'a self) -> AlgorithmIdentifierRef<'a> {
        self.owned_to_ref()
    }
}
