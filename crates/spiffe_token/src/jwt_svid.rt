//! JWT-SVIDs.
ghost use Rattle.std.specs.Prelude.{◌≡◌, ◌⊎◌, Some, Ok, Err, IfOk, IfErr, map, true, length, option_map, string_bytes};
ghost use Rattle.std.specs.Cmp.{partial_equiv_from_equiv};
ghost use Rattle.spiffe_id.specs.SpiffeId.{id_of};
ghost use Rattle.spiffe_token.specs.JwtSvidError.{IsRefusal};
ghost use Rattle.spiffe_token.specs.HeaderOf.{header_value};
ghost use Rattle.spiffe_token.specs.Claims.{is_expiry};
ghost use Rattle.spiffe_token.specs.JwtSvid.{svid_from, svid_of, Answers, svid_eq, svid_equiv};

use crate::claims::Claims;
use crate::error::JwtSvidError;
use crate::header::Header;
use crate::jwt_alg::JwtAlg;
use crate::parts::{decode_parts, split_parts};
use spiffe_id::SpiffeId;
use spiffe_json::read_json;
use std::alloc::Global;
use std::fmt;
use std::marker::Model;

// From the start of the year -9999 to the end of the year 9999, in seconds.
const MIN_EXPIRY: i64 = -377_705_116_800;

const MAX_EXPIRY: i64 = 253_402_300_799;

/// A token of the SPIFFE Workload API: a JWT (RFC 7519) whose subject is a SPIFFE ID (JWT-SVID, section 3).
///
/// Its signature was not looked at, nor the time: whoever trusts it must know where it came from, or verify it.
#[derive(Drop)]
pub struct JwtSvid {
    token: String,
    spiffe_id: SpiffeId,
    claims: Claims,
    key_id: String,
    alg: JwtAlg,
    hint: Option<String>,
}

impl Model for JwtSvid {
    ghost use Rattle.std.specs.Prelude.{string_bytes, option_map};
    ghost use Rattle.spiffe_token.specs.JwtSvid.{Svid, IsSvid};

    ghost Value = { Svid };

    ghost view = { λ s. record {
      token = string_bytes s.token;
      spiffe_id = s.spiffe_id;
      claims = s.claims;
      key_id = string_bytes s.key_id;
      alg = s.alg;
      hint = option_map string_bytes s.hint;
    } };

    ghost invariant = { λ s. IsSvid s.claims s.spiffe_id };
}

impl JwtSvid {
    /// Reads a token that came from a Workload API, which has verified it, or answers the first rule that it breaks, or `OutOfMemory`.
    pub fn from_workload_api_token(alloc: Global, token: &str) -> Result<Self, JwtSvidError>
        ensures ok { IfOk result (λ s. Answers token.now (Ok s)) }
        ensures err { IfErr result (λ e. Answers token.now (Err e) ⊎ (e ≡ JwtSvidError.OutOfMemory)) }
    {
        JwtSvid::parse_insecure(alloc, token)
    }

    /// Reads a token of which nobody has verified the signature: nothing that it says is to be trusted. It refuses as `from_workload_api_token`
    /// does.
    pub fn parse_insecure(alloc: Global, token: &str) -> Result<Self, JwtSvidError>
        ensures ok { IfOk result (λ s. Answers token.now (Ok s)) }
        ensures err { IfErr result (λ e. Answers token.now (Err e) ⊎ (e ≡ JwtSvidError.OutOfMemory)) }
    {
        let Some(parts) = split_parts(token) else {
            return Err(JwtSvidError::InvalidJwtFormat);
        };
        let (header, claims) = decode_parts(alloc, parts.header, parts.claims)?;
        JwtSvid::from_parts(alloc, token, &header, &claims)
    }

    /// Reads a token from the JSON of its header and its claims, for a caller who has decoded or changed these. The
    /// token's own text is kept and not looked at. It answers the first rule that the header and then the claims break, or `OutOfMemory`.
    #[tactic(auto, unfolding(crate::specs::JwtSvid::svid_of))]
    pub fn from_parts(
        alloc: Global,
        token: &str,
        header: &[u8],
        claims: &[u8],
    ) -> Result<Self, JwtSvidError>
        ensures ok { IfOk result (λ s. svid_of token.now header.now claims.now ≡ Ok s) }
        ensures err { IfErr result (IsRefusal (svid_of token.now header.now claims.now)) }
    {
        let header_value = read_json(alloc, header)?;
        let header = Header::read(alloc, header, &header_value)?;
        let claims_value = read_json(alloc, claims)?;
        let claims = Claims::read(alloc, claims, &claims_value)?;
        JwtSvid::from_checked(alloc, token, &header, claims)
    }

    fn from_checked(
        alloc: Global,
        token: &str,
        header: &Header<'_>,
        claims: Claims,
    ) -> Result<Self, JwtSvidError>
        ensures ok { IfOk result (λ s. svid_from token.now (header_value header.now) claims ≡ Ok s) }
        ensures err { IfErr result (IsRefusal (svid_from token.now (header_value header.now) claims)) }
    {
        let (alg, key_id) = header.key()?;
        let spiffe_id = SpiffeId::new(alloc, claims.sub())?;
        if claims.exp() < MIN_EXPIRY || claims.exp() > MAX_EXPIRY {
            return Err(JwtSvidError::InvalidExpiration);
        }
        let token = String::from_str(alloc, token)?;
        let key_id = String::from_str(alloc, key_id)?;
        Ok(JwtSvid {
            token,
            spiffe_id,
            claims,
            key_id,
            alg,
            hint: None,
        })
    }

    /// The same token with a hint for the workload's use of it, in place of an earlier one.
    pub fn with_hint(self, hint: String) -> Self
        ensures { result ≡ record self { hint = Some (string_bytes hint) } }
    {
        let mut svid = self;
        svid.hint = Some(hint);
        svid
    }

    /// The token's text, to be sent as a credential.
    pub fn token(&self) -> &str
        ensures { result.now ≡ self.now.token }
    {
        self.token.as_str()
    }

    /// The subject: the workload that the token is about.
    pub fn spiffe_id(&self) -> &SpiffeId
        ensures id { result.now ≡ self.now.spiffe_id }
        ensures subject { id_of self.now.claims.sub ≡ Ok result.now }
    {
        &self.spiffe_id
    }

    /// The audiences that the token is meant for, in their order.
    pub fn audience(&self) -> &[String]
        ensures { map string_bytes result.now ≡ self.now.claims.aud }
    {
        self.claims.aud()
    }

    /// When the token expires, in seconds from 1970-01-01T00:00:00Z on.
    pub fn expiry(&self) -> i64
        ensures expiry { result ≡ self.now.claims.exp }
        ensures in_range { is_expiry result ≡ true }
    {
        self.claims.exp()
    }

    /// The key ID, by which a bundle finds the authority that signed the token.
    pub fn key_id(&self) -> &str
        ensures { result.now ≡ self.now.key_id }
    {
        self.key_id.as_str()
    }

    /// The algorithm that the token's header names.
    pub fn alg(&self) -> JwtAlg
        ensures { result ≡ self.now.alg }
    {
        self.alg
    }

    /// What the token claims, as it was read.
    pub fn claims(&self) -> &Claims
        ensures { result.now ≡ self.now.claims }
    {
        &self.claims
    }

    /// What the Workload API said of the token's use, if it was set.
    pub fn hint(&self) -> Option<&str>
        ensures { option_map (λ h. h.now) result ≡ self.now.hint }
    {
        match &self.hint {
            Some(hint) => Some(hint.as_str()),
            None => None,
        }
    }

    /// A copy in memory of its own. `OutOfMemory` alone refuses it.
    pub fn try_clone(&self, alloc: Global) -> Result<Self, JwtSvidError>
        ensures ok { IfOk result (λ s. s ≡ self.now) }
        ensures err { IfErr result (λ e. e ≡ JwtSvidError.OutOfMemory) }
    {
        let token = String::from_str(alloc, self.token.as_str())?;
        let spiffe_id = self.spiffe_id.copy(alloc)?;
        let claims = self.claims.try_clone(alloc)?;
        let key_id = String::from_str(alloc, self.key_id.as_str())?;
        let hint = copy_hint(alloc, &self.hint)?;
        Ok(JwtSvid {
            token,
            spiffe_id,
            claims,
            key_id,
            alg: self.alg,
            hint,
        })
    }
}

fn copy_hint(alloc: Global, hint: &Option<String>) -> Result<Option<String>, JwtSvidError>
    ensures ok { IfOk result (λ copy. option_map string_bytes copy ≡ option_map string_bytes hint.now) }
    ensures err { IfErr result (λ e. e ≡ JwtSvidError.OutOfMemory) }
{
    match hint {
        Some(text) => {
            let copy = String::from_str(alloc, text.as_str())?;
            Ok(Some(copy))
        }
        None => Ok(None),
    }
}

impl PartialEq for JwtSvid {
    ghost eq = { svid_eq };

    ghost laws = { partial_equiv_from_equiv svid_equiv };

    fn eq(&self, other: &Self) -> bool {
        self.token == other.token
            && self.spiffe_id == other.spiffe_id
            && self.claims == other.claims
            && self.key_id == other.key_id
            && self.alg == other.alg
            && self.hint == other.hint
    }
}

impl Eq for JwtSvid {
    ghost laws = { svid_equiv };
}

/// Of the token's text it shows the length alone.
impl fmt::Debug for JwtSvid {
    ghost use Rattle.std.specs.Prelude.{Some, length};
    ghost use Rattle.spiffe_token.specs.JwtSvid.{svid_debug};

    ghost debug_output = { λ s. Some (svid_debug s.spiffe_id s.alg s.claims.exp (length s.claims.aud) (length s.token)) };

    fn fmt<W: fmt::Write>(&self, f: &mut fmt::Formatter<W>) -> fmt::Result {
        let alg = self.alg.name();
        let audiences = self.claims.aud().len();
        let len = self.token.len();
        write!(
            f,
            "JwtSvid {{ spiffe_id: {}, alg: {alg}, expiry: {}, audiences: {audiences}, token: Token {{ len: {len} }} }}",
            self.spiffe_id,
            self.claims.exp()
        )
    }
}
