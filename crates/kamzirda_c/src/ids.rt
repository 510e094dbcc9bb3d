//! SPIFFE IDs.
ghost use Rattle.std.specs.Prelude.{◌≡◌, ◌≢◌, ◌⊎◌};
ghost use Rattle.std.specs.Str.{IsUtf8};
ghost use Rattle.kamzirda_c.specs.Ids.{BreaksIdRule, IsIdAt};
ghost use Rattle.kamzirda_c.specs.Rules.{id_rule_number, not_utf8};
ghost use Rattle.kamzirda_c.specs.Status.{done, no_memory, refused};

use crate::status::{DONE, NO_MEMORY, REFUSED};
use spiffe_id::{SpiffeId, SpiffeIdError};
use std::alloc::Global;
use std::str;

/// Where the parts of a SPIFFE ID stand in its text.
#[repr(C)]
#[derive(Clone, Copy)]
pub struct KamzirdaId {
    /// Where the trust domain's name begins.
    pub domain_offset: usize,

    /// How many bytes it has.
    pub domain_len: usize,

    /// Where the path begins, with its slash.
    pub path_offset: usize,

    /// How many bytes it has; 0 for the id of a trust domain.
    pub path_len: usize,
}

pub(crate) fn id_rule_number(error: &SpiffeIdError) -> u32
    ensures { result ≡ id_rule_number error.now }
{
    match error {
        SpiffeIdError::Empty => 21,
        SpiffeIdError::MissingTrustDomain => 22,
        SpiffeIdError::WrongScheme => 23,
        SpiffeIdError::BadTrustDomainChar => 24,
        SpiffeIdError::BadPathSegmentChar => 25,
        SpiffeIdError::EmptySegment => 26,
        SpiffeIdError::DotSegment => 27,
        SpiffeIdError::TrailingSlash => 28,
        SpiffeIdError::SpiffeIdTooLong { .. } => 29,
        SpiffeIdError::TrustDomainTooLong { .. } => 30,
        SpiffeIdError::OutOfMemory => 0,
    }
}

/// Judges the text of a SPIFFE ID, and tells where its parts stand.
#[unsafe(no_mangle)]
pub extern "C" fn kamzirda_spiffe_id(
    alloc: Global,
    text: &[u8],
    id: &mut KamzirdaId,
    rule: &mut u32,
) -> u32
    ensures known { (result ≡ done) ⊎ (result ≡ refused) ⊎ (result ≡ no_memory) }
    ensures done { result ≡ done → IsIdAt text.now id.new }
    ensures refused { result ≡ refused → ((rule.new ≡ not_utf8) × ¬ (IsUtf8 text.now)) ⊎ BreaksIdRule text.now rule.new }
    ensures kept { result ≢ done → id.new ≡ id.old }
    ensures no_rule { result ≢ refused → rule.new ≡ rule.old }
{
    let Ok(text) = str::from_utf8(text) else {
        *rule = 31;
        return REFUSED;
    };
    match SpiffeId::new(alloc, text) {
        Ok(found) => {
            let domain_len = found.trust_domain_name().len();
            *id = KamzirdaId {
                domain_offset: 9,
                domain_len,
                path_offset: 9 + domain_len,
                path_len: found.path().len(),
            };
            DONE
        }
        Err(SpiffeIdError::OutOfMemory) => NO_MEMORY,
        Err(error) => {
            *rule = id_rule_number(&error);
            REFUSED
        }
    }
}
