//! The scheme of a SPIFFE ID.
ghost use Rattle.std.specs.Prelude.{◌≡◌};
ghost use Rattle.spiffe_id.specs.Rules.{map_ok};
ghost use Rattle.spiffe_id.specs.Scheme.{has_spiffe_scheme, after_scheme};

use crate::constants::SPIFFE_SCHEME;
use crate::error::SpiffeIdError;

/// Whether a URI has the scheme of SPIFFE IDs, in any ASCII case.
///
/// Use it to pick candidates out of a list of URIs, such as a certificate's alternative names, before
/// `SpiffeId::new`, which judges the whole text.
pub fn uri_has_spiffe_scheme(uri: &str) -> bool
    ensures { result ≡ has_spiffe_scheme uri.now }
{
    match uri.split_once("://") {
        Some((scheme, _)) => scheme.eq_ignore_ascii_case(SPIFFE_SCHEME),
        None => false,
    }
}

// What follows the scheme.
pub(crate) fn strip_spiffe_scheme(id: &str) -> Result<&str, SpiffeIdError>
    ensures { map_ok (λ rest. rest.now) result ≡ after_scheme id.now }
{
    match id.split_once("://") {
        Some((scheme, rest)) => {
            if scheme.eq_ignore_ascii_case(SPIFFE_SCHEME) {
                Ok(rest)
            } else {
                Err(SpiffeIdError::WrongScheme)
            }
        }
        None => Err(SpiffeIdError::WrongScheme),
    }
}
