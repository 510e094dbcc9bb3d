//! Texts of base64url.
ghost use Rattle.std.specs.Prelude.{◌≡◌, ℕ, List, Option, option_map, IfOk};
ghost use Rattle.identity_verify.specs.Decoding.{IsDecoding, decode_part};

use base64_alphabets::Base64UrlUnpadded;
use base64ct::{Encoding, Error};
use spiffe_token::MAX_PART_CHARACTERS;
use std::alloc::{AllocError, Global};

/// The bytes that a text of base64url without padding stands for, if it stands for some.
pub(crate) fn decode(alloc: Global, text: &str) -> Result<Option<Vec<u8>>, AllocError>
    ensures { (decode : List ℕ → Option (List ℕ)) → IsDecoding decode → IfOk result (λ o. option_map (λ v. v.items) o ≡ decode text.now) }
{
    match Base64UrlUnpadded::decode_vec(alloc, text) {
        Ok(bytes) => Ok(Some(bytes)),
        Err(Error::InvalidEncoding) => Ok(None),
        Err(Error::InvalidLength) => Ok(None),
        Err(Error::OutOfMemory) => Err(AllocError),
    }
}

/// The same for a header or claims, which are not too long.
pub(crate) fn decode_part(alloc: Global, part: &str) -> Result<Option<Vec<u8>>, AllocError>
    ensures { (decode : List ℕ → Option (List ℕ)) → IsDecoding decode → IfOk result (λ o. option_map (λ v. v.items) o ≡ decode_part decode part.now) }
{
    if part.len() > MAX_PART_CHARACTERS {
        return Ok(None);
    }
    decode(alloc, part)
}
