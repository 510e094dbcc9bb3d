//! What a script asks for: its updates, and its queries.
ghost use Rattle.std.specs.Prelude.{◌≡◌, ◌∷◌, ◌++◌, [], ℕ, List, IfOk, OnOk};
ghost use Rattle.tool_script.specs.Request.{text_size};
ghost use Rattle.tool_script.specs.Next.{meaning};
ghost use Rattle.tool_watch.specs.Asked.{queries_of, updates_in, updates_of};

use spiffe_id::TrustDomain;
use std::alloc::{AllocError, Global};
use tool_script::Request;

/// A query.
#[derive(Drop)]
pub(crate) enum Query {
    /// The default identity.
    Svid,

    /// The keys of this trust domain.
    Bundle(TrustDomain),
}

/// The texts of the updates, and the queries, each in their order.
#[derive(Drop)]
pub(crate) struct Asked {
    pub(crate) updates: Vec<Vec<u8>>,
    pub(crate) queries: Vec<Query>,
}

impl Asked {
    /// Nothing yet.
    pub(crate) fn new(alloc: Global) -> Self
        ensures updates { result.updates.items ≡ [] }
        ensures queries { result.queries.items ≡ [] }
    {
        Asked {
            updates: Vec::new(alloc),
            queries: Vec::new(alloc),
        }
    }

    /// Adds a request, and tells how many bytes its text has.
    pub(crate) fn push(&mut self, request: Request) -> Result<u64, AllocError>
        ensures updates { OnOk result ((name : List ℕ) → updates_in self.new.updates.items ≡
            updates_in self.old.updates.items ++ updates_of (meaning name request ∷ [])) }
        ensures queries { OnOk result ((name : List ℕ) → self.new.queries.items ≡ self.old.queries.items ++ queries_of (meaning name request ∷ [])) }
        ensures size { IfOk result (λ size. (name : List ℕ) → size ≡ text_size (meaning name request)) }
    {
        match request {
            Request::Update(text) => {
                let size = text.len() as u64;
                self.updates.push(text)?;
                Ok(size)
            }
            Request::Svid => {
                self.queries.push(Query::Svid)?;
                Ok(0)
            }
            Request::Bundle(domain) => {
                self.queries.push(Query::Bundle(domain))?;
                Ok(0)
            }
        }
    }
}
