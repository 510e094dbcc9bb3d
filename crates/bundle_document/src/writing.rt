//! Writing bundle documents.
ghost use Rattle.std.specs.Prelude.{◌≡◌, Ok, IfOk, IfErr};
ghost use Rattle.serde_json.specs.View.{view};
ghost use Rattle.bundle_document.specs.Document.{IsReadable, document_text, key_set_text, with_number};
ghost use Rattle.bundle_document.specs.Reading.{document_of};
ghost use Rattle.identity_update.specs.Bundle.{plain_bundle};
ghost use Rattle.spiffe_bundle.specs.KeySet.{by_key_id, key_set_of};

use crate::document::BundleDocument;
use crate::error::DocumentError;
use identity_update::BundleParts;
use serde_json::{Number, Value, put};
use spiffe_id::TrustDomain;
use spiffe_json::write_json;
use std::alloc::{AllocError, Global};

impl BundleDocument {
    /// The document as JSON without blanks: its keys for tokens and the numbers that it has. Keys of other uses
    /// weren't kept, so they aren't written. `OutOfMemory` alone refuses it.
    pub fn to_json(&self, alloc: Global) -> Result<Vec<u8>, DocumentError>
        ensures json { IfOk result (λ v. v.items ≡ document_text self.now) }
        ensures reads { IfOk result (λ v. IsReadable self.now
            → document_of v.items ≡ Ok (record self.now { x509_count = 0; ignored_count = 0 })) }
        ensures err { IfErr result (λ e. e ≡ DocumentError.OutOfMemory) }
    {
        let key_set = self.key_set.clone()?;
        let hinted = with_number(alloc, key_set, "spiffe_refresh_hint", self.refresh_hint)?;
        let numbered = with_number(alloc, hinted, "spiffe_sequence", self.sequence)?;
        let json = write_json(alloc, &numbered)?;
        Ok(json)
    }

    /// The bundle of an update: its key set, for this trust domain. `OutOfMemory` alone refuses it.
    pub fn to_bundle_parts(
        &self,
        alloc: Global,
        trust_domain: &TrustDomain,
    ) -> Result<BundleParts, DocumentError>
        ensures parts { IfOk result (λ b. plain_bundle b ≡ record { trust_domain = trust_domain.now; jwks = key_set_text self.now.keys }) }
        ensures accepted { IfOk result (λ b. IsReadable self.now → key_set_of b.jwks.items ≡ Ok (by_key_id self.now.keys)) }
        ensures err { IfErr result (λ e. e ≡ DocumentError.OutOfMemory) }
    {
        let Ok(trust_domain) = trust_domain.try_clone(alloc) else {
            return Err(DocumentError::OutOfMemory);
        };
        let jwks = Vec::from_slice(alloc, self.jwks())?;
        Ok(BundleParts { trust_domain, jwks })
    }
}

fn with_number(
    alloc: Global,
    value: Value,
    name: &str,
    number: Option<u64>,
) -> Result<Value, AllocError>
    ensures { IfOk result (λ v. view v ≡ with_number name.now number (view value)) }
{
    let Some(number) = number else {
        return Ok(value);
    };
    match value {
        Value::Object(mut members) => {
            put(
                &mut members,
                alloc,
                name,
                Value::Number(Number::from(number)),
            )?;
            Ok(Value::Object(members))
        }
        other => Ok(other),
    }
}
