//! Names and numbers that users of SPIFFE identities share.

/// The URI scheme of every SPIFFE ID, in canonical form.
pub const SPIFFE_SCHEME: &str = "spiffe";

/// What the canonical text of every SPIFFE ID begins with.
///
/// A text in another ASCII case is an id too: test that by `uri_has_spiffe_scheme`.
pub const SPIFFE_SCHEME_PREFIX: &str = "spiffe://";

/// The place of the default identity in the list of a workload's identities.
pub const DEFAULT_SVID: usize = 0;

/// The environment variable that names a workload's endpoint socket.
pub const SPIFFE_SOCKET_ENV: &str = "SPIFFE_ENDPOINT_SOCKET";
