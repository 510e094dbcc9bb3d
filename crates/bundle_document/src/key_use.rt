//! What keys of a bundle document are for.
ghost use Rattle.std.specs.Prelude.{◌≡◌, option_and_then, option_map, codes};
ghost use Rattle.serde_json.specs.Find.{get, as_str};
ghost use Rattle.serde_json.specs.View.{view};
ghost use Rattle.bundle_document.specs.Keys.{use_named, use_of, is_for_tokens, is_for_x509, is_for_neither, is_unnamed};
ghost use Rattle.spiffe_bundle.specs.JwtAuthority.{key_id_of};

use serde_json::Value;

/// What a key is for, by its parameter `use` (SPIFFE Trust Domain and Bundle, section 4.2.2).
#[derive(Clone, Copy)]
pub(crate) enum KeyUse {
    /// It verifies JWT-SVIDs.
    JwtSvid,
    /// It verifies X.509-SVIDs.
    X509Svid,
    /// Nothing that is known.
    Other,
}

fn use_named(text: &str) -> KeyUse
    ensures { result ≡ use_named text.now }
{
    match text {
        "jwt-svid" => KeyUse::JwtSvid,
        "x509-svid" => KeyUse::X509Svid,
        _ => KeyUse::Other,
    }
}

impl KeyUse {
    /// The use of an element of `keys`, whatever value it is.
    pub(crate) fn of(key: &Value) -> KeyUse
        ensures { result ≡ use_of (view key.now) }
    {
        match text_at(key, "use") {
            Some(text) => use_named(text),
            None => KeyUse::Other,
        }
    }

    pub(crate) fn is_for_tokens(self) -> bool
        ensures { result ≡ is_for_tokens self }
    {
        matches!(self, KeyUse::JwtSvid)
    }

    pub(crate) fn is_for_x509(self) -> bool
        ensures { result ≡ is_for_x509 self }
    {
        matches!(self, KeyUse::X509Svid)
    }

    pub(crate) fn is_for_neither(self) -> bool
        ensures { result ≡ is_for_neither self }
    {
        matches!(self, KeyUse::Other)
    }
}

fn text_at<'v>(value: &'v Value, name: &str) -> Option<&'v str>
    ensures { option_map (λ t. t.now) result ≡ option_and_then as_str (get name.now (view value.now)) }
{
    value.get(name).and_then(Value::as_str)
}

/// Whether it is a key for tokens that has no key ID.
pub(crate) fn is_unnamed(key: &Value) -> bool
    ensures { result ≡ is_unnamed (view key.now) }
{
    KeyUse::of(key).is_for_tokens() && text_at(key, "kid").is_none()
}
