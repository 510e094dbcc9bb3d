//! The parts of a token's text.
ghost use Rattle.std.specs.Prelude.{◌≡◌, ◌⊎◌, option_map, IfOk, IfErr};
ghost use Rattle.spiffe_token.specs.Parts.{cut, parts_of, parts_value, IsPart, IsNoPart};

use crate::error::JwtSvidError;
use base64_alphabets::Base64UrlUnpadded;
use base64ct::{Encoding, Error};
use std::alloc::Global;

/// The most characters of a header or of claims: as many as stand for 65,535 bytes or fewer.
pub const MAX_PART_CHARACTERS: usize = 87_381;

/// The parts of a token in the compact serialization, as they are written (RFC 7515, section 3.1).
#[derive(Drop)]
pub struct Parts<'t> {
    /// The header in base64url.
    pub header: &'t str,

    /// The claims in base64url.
    pub claims: &'t str,

    /// The signature in base64url. It may be empty.
    pub signature: &'t str,
}

fn cut(text: &str) -> Option<(&str, &str)>
    ensures { option_map (λ p. (p.0.now, p.1.now)) result ≡ cut text.now }
{
    text.split_once('.')
}

/// The parts of a token, none where the text doesn't have exactly two dots.
pub fn split_parts(token: &str) -> Option<Parts<'_>>
    ensures { option_map parts_value result ≡ parts_of token.now }
{
    let (header, rest) = cut(token)?;
    let (claims, signature) = cut(rest)?;
    match cut(signature) {
        Some(_) => None,
        None => Some(Parts {
            header,
            claims,
            signature,
        }),
    }
}

fn decode_part(alloc: Global, part: &str) -> Result<Vec<u8>, JwtSvidError>
    ensures ok { IfOk result (λ v. IsPart part.now v.items) }
    ensures err { IfErr result (λ e. (IsNoPart part.now × (e ≡ JwtSvidError.InvalidBase64)) ⊎ (e ≡ JwtSvidError.OutOfMemory)) }
{
    if part.len() > MAX_PART_CHARACTERS {
        return Err(JwtSvidError::InvalidBase64);
    }
    match Base64UrlUnpadded::decode_vec(alloc, part) {
        Ok(bytes) => Ok(bytes),
        Err(Error::OutOfMemory) => Err(JwtSvidError::OutOfMemory),
        Err(_) => Err(JwtSvidError::InvalidBase64),
    }
}

// The bytes of both parts. Both lengths are tested before anything is decoded.
pub(crate) fn decode_parts(
    alloc: Global,
    header: &str,
    claims: &str,
) -> Result<(Vec<u8>, Vec<u8>), JwtSvidError>
    ensures ok { IfOk result (λ v. IsPart header.now v.0.items × IsPart claims.now v.1.items) }
    ensures err { IfErr result (λ e. ((IsNoPart header.now ⊎ IsNoPart claims.now) × (e ≡ JwtSvidError.InvalidBase64)) ⊎ (e ≡ JwtSvidError.OutOfMemory)) }
{
    if claims.len() > MAX_PART_CHARACTERS {
        return Err(JwtSvidError::InvalidBase64);
    }
    let header = decode_part(alloc, header)?;
    let claims = decode_part(alloc, claims)?;
    Ok((header, claims))
}
