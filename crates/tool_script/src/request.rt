//! Requests, and how scripts end.
use spiffe_id::TrustDomain;

/// What a script asks for.
#[derive(Drop)]
pub enum Request {
    /// Apply the update of this text.
    Update(Vec<u8>),

    /// Tell the default identity.
    Svid,

    /// Tell the keys of a trust domain.
    Bundle(TrustDomain),
}

/// How a script ends.
#[derive(Clone, Copy, Debug, PartialEq, Eq)]
pub enum Ending {
    /// By the line `end`.
    Done,

    /// By a request too many, or an update that is too long.
    TooLong,

    /// By a line that is no request, or where the input stops short.
    BadScript,
}

/// What comes next in a script.
#[derive(Drop)]
pub enum Next {
    Request(Request),
    End(Ending),
}
