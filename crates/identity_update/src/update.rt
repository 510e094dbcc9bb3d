//! Updates.
ghost use Rattle.std.specs.Prelude.{◌≡◌, ◌<◌, ◌^◌, Ok, length, map, option_map, string_bytes, IfOk, IfErr};
ghost use Rattle.update_document.specs.Written.{ReadsUpdate};
ghost use Rattle.identity_update.specs.Bundle.{plain_bundle};
ghost use Rattle.identity_update.specs.BundleMap.{bundle_map};
ghost use Rattle.identity_update.specs.Lawful.{IsLawful};
ghost use Rattle.identity_update.specs.Canonical.{canonical, update_der};
ghost use Rattle.identity_update.specs.EntryParts.{listed};
ghost use Rattle.identity_update.specs.PartsVerdict.{parts_verdict, withdrawal_verdict};
ghost use Rattle.identity_update.specs.Reading.{Refuses, Writes};
ghost use Rattle.identity_update.specs.Text.{IsWriteRefusal, update_text};
ghost use Rattle.identity_update.specs.Verdict.{IsRefusal, verdict};

use crate::assembly::assemble;
use crate::bundle::BundleParts;
use crate::entries::Entries;
use crate::entry_parts::{EntryParts, borrow_entries};
use crate::error::UpdateError;
use crate::kept::KeptEntry;
use crate::parts_verdict::{check_reason, judge_parts};
use crate::place::Place;
use crate::text::{decode_text, document_in, encode_text};
use crate::verdict::judge;
use base64ct::LineEnding;
use spiffe_bundle::JwtBundleSet;
use std::alloc::Global;
use std::marker::Model;
use std::str;

/// A lawful update: its one document, where the encodings of its entries stand in it, and where the parts of each stand in these.
#[derive(Drop)]
pub struct Update {
    pub(crate) document: Vec<u8>,
    pub(crate) identities: Place,
    pub(crate) entries: Vec<KeptEntry>,
    pub(crate) bundles: Vec<BundleParts>,
    pub(crate) set: JwtBundleSet,
    pub(crate) reason: Option<Place>,
}

impl Model for Update {
    ghost use Rattle.identity_update.specs.Parts.{UpdateParts};
    ghost use Rattle.identity_update.specs.Kept.{IsKeptUpdate, kept_update};

    ghost Value = { UpdateParts };

    ghost view = { λ u. kept_update u.document.items u.identities u.entries.items u.bundles.items u.reason };

    ghost invariant = { λ u. IsKeptUpdate u.document.items u.identities u.entries.items u.bundles.items u.set u.reason };
}

impl Update {
    /// Reads an update from its text: the padded Base64 of its document in lines of `width` characters, the last one
    /// shorter or equal, with CR, LF or CRLF between two lines and none after the last. It answers the first rule that the
    /// text breaks (`Text`, then `Document`, then the rules of what the document writes), or `OutOfMemory`.
    pub fn read(alloc: Global, text: &[u8], width: usize) -> Result<Update, UpdateError>
        ensures value { IfOk result (Writes width text.now) }
        ensures refusal { IfErr result (Refuses width text.now) }
    {
        let bytes = decode_text(alloc, text, width)?;
        let document = document_in(alloc, &bytes)?;
        let parts = judge(alloc, document, bytes.len())?;
        assemble(parts, bytes)
    }

    /// The update of these entries and bundles, without a reason, or the first rule that they break, or `OutOfMemory`.
    pub fn from_parts(
        alloc: Global,
        entries: Vec<EntryParts>,
        bundles: Vec<BundleParts>,
    ) -> Result<Update, UpdateError>
        ensures value { IfOk result (λ u. parts_verdict (listed entries.items bundles.items) ≡ Ok u) }
        ensures refusal { IfErr result (IsRefusal (parts_verdict (listed entries.items bundles.items))) }
    {
        let entries = borrow_entries(alloc, &entries)?;
        judge_parts(alloc, entries, bundles, None)
    }

    /// The update that withdraws all identities for this reason, of 1 to 255 bytes, and lists these bundles, or the first rule that they break,
    /// or `OutOfMemory`.
    pub fn withdrawal(
        alloc: Global,
        reason: &str,
        bundles: Vec<BundleParts>,
    ) -> Result<Update, UpdateError>
        ensures value { IfOk result (λ u. withdrawal_verdict reason.now (map plain_bundle bundles.items) ≡ Ok u) }
        ensures refusal { IfErr result (IsRefusal (withdrawal_verdict reason.now (map plain_bundle bundles.items))) }
    {
        let reason = check_reason(reason)?;
        judge_parts(alloc, Vec::new(alloc), bundles, Some(reason))
    }

    /// The update's one document in DER, which its text is the Base64 of: canonical ids and trust domains, private keys
    /// with attributes and without extensions, and every bundle, replaced ones too.
    pub fn document(&self) -> &[u8]
        ensures value { result.now ≡ update_der self.now }
        ensures fits { length result.now < 2 ^ 32 }
        ensures reads { ReadsUpdate result.now (canonical self.now) }
        ensures lawful { verdict (canonical self.now) ≡ Ok self.now }
    {
        &self.document
    }

    /// The update's text: the padded Base64 of its document in lines of `width` characters, the last one shorter or
    /// equal, with the ending between two lines and none after the last. Lines have at least 4 characters:
    /// `InvalidLength` where they would have fewer, or `OutOfMemory`.
    pub fn to_text(
        &self,
        alloc: Global,
        width: usize,
        ending: LineEnding,
    ) -> Result<String, base64ct::Error>
        ensures text { IfOk result (λ text. string_bytes text ≡ update_text width ending self.now) }
        ensures reading { IfOk result (λ text. Writes width (string_bytes text) self.now) }
        ensures refusal { IfErr result (IsWriteRefusal width) }
    {
        encode_text(alloc, self.document(), width, ending)
    }

    /// The entries, in the order of the document.
    pub fn entries(&self) -> Entries<'_>
        ensures value { result ≡ self.now.entries }
        ensures lawful { IsLawful self.now }
    {
        Entries::of(self.identities.of(&self.document), &self.entries)
    }

    /// The bundles, in the order of the document, with those that a later one replaces.
    pub fn bundles(&self) -> &[BundleParts]
        ensures { map plain_bundle result.now ≡ self.now.bundles }
    {
        &self.bundles
    }

    /// The keys of each trust domain's last bundle.
    pub fn bundle_set(&self) -> &JwtBundleSet
        ensures { result.now ≡ bundle_map self.now.bundles }
    {
        &self.set
    }

    /// Why the identities were withdrawn, where they were.
    pub fn reason(&self) -> Option<&str>
        ensures { option_map (λ text. text.now) result ≡ self.now.reason }
    {
        match &self.reason {
            None => None,
            Some(place) => {
                let Ok(text) = str::from_utf8(place.of(&self.document)) else {
                    unreachable!()
                };
                Some(text)
            }
        }
    }
}
