//! Texts of updates are by a script outside this repository, from the grammar of `docs/FORMATS.md` alone: nested
//! tag, length and content, then Base64 in lines. The fingerprint is
//! `openssl pkey -pubin -inform DER -outform DER | openssl dgst -sha256 -binary | openssl base64` of the public
//! key document in them.

// One identity and one bundle: the sample of the README, of 207 bytes.
pub(crate) const SAMPLE: &str =
    "MIGWMHYwdAwWc3BpZmZlOi8vZXhhbXBsZS5vcmcvYTAuAgEAMAUGAytlcAQiBCAR\nERERERERERERERERERERERERERERERERERERERERETAqMAUGAytlcAMhAE0pFn8/\nGRK\
         m9636KToFGhXAXsZ7jxcmexxVUNzoU70NMBwwGgwLZXhhbXBsZS5vcmcEC3si\na2V5cyI6W119";

pub(crate) const REPORT: &str =
    "revision 1\nidentity spiffe://example.org/a 1.3.101.112 Vd1MdLDkhTTi9OFzzs61DfjyenrCqomRzHrpFOAwvO0=\nbundle example.org 0\n";

// A withdrawal with the same bundle, of 56 bytes.
pub(crate) const WITHDRAWN: &str = "MCYwADAcMBoMC2V4YW1wbGUub3JnBAt7ImtleXMiOltdfYAEZ29uZQ==";
