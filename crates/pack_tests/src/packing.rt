use crate::checks::{good, same, same_text};
use crate::shelf::disk_with;
use base64ct::LineEnding;
use pack_update::{FileError, ManifestError, PackError, pack};

pub(crate) const MANIFEST: &str =
    r#"{"entries":[{"id":"spiffe://example.org/a","key":"k","public":"p"}],"bundles":[{"domain":"example.org","jwks":"b"}]}"#;

pub(crate) const TEXT: &str =
    "MIGWMHYwdAwWc3BpZmZlOi8vZXhhbXBsZS5vcmcvYTAuAgEAMAUGAytlcAQiBCAR\nERERERERERERERERERERERERERERERERERERERERETAqMAUGAytlcAMhAE0pFn8/\nGRK\
         m9636KToFGhXAXsZ7jxcmexxVUNzoU70NMBwwGgwLZXhhbXBsZS5vcmcEC3si\na2V5cyI6W119";

// The public key is in the document of the private key.
pub(crate) const OWN: &str =
    r#"{"entries":[{"id":"spiffe://example.org/a","key":"w"}],"bundles":[{"domain":"example.org","jwks":"b"}]}"#;

pub(crate) const OWN_TEXT: &str =
    "MIG7MIGaMIGXDBZzcGlmZmU6Ly9leGFtcGxlLm9yZy9hMFECAQEwBQYDK2VwBCIE\nIBERERERERERERERERERERERERERERERERERERERERERgSEATSkWfz8ZEqb3rfop\nOgU\
         aFcBexnuPFyZ7HFVQ3OhTvQ0wKjAFBgMrZXADIQBNKRZ/PxkSpvet+ik6BRoV\nwF7Ge48XJnscVVDc6FO9DTAcMBoMC2V4YW1wbGUub3JnBAt7ImtleXMiOltdfQ==";

// Two entries and three bundles in an order of their own; names inside are read with the last of equal ones, and a text with its escapes.
const SEVERAL: &str =
    r#" {"bundles":[{"domain":"example.org","jwks":"b"},{"jwks":"x","domain":"A.test","jwks":"b"},{"domain":"a.test","jwks":"c"}],
    "\u0065ntries":[{"id":"spiffe://A.test/x","public":"\u0070","key":"k"},{"id":"no","key":"none","id":"spiffe://example.org/a","key":"w"}]} "#;

const SEVERAL_TEXT: &str =
    "MIIBXDCCAQswbwwRc3BpZmZlOi8vYS50ZXN0L3gwLgIBADAFBgMrZXAEIgQgEREREREREREREREREREREREREREREREREREREREREREwKjAFBgMrZXADIQBNKRZ/PxkSpvet+ik\
         6BRoVwF7Ge48XJnscVVDc6FO9DTCBlwwWc3BpZmZlOi8vZXhhbXBsZS5vcmcvYTBRAgEBMAUGAytlcAQiBCAREREREREREREREREREREREREREREREREREREREREREYEhAE\
         0pFn8/GRKm9636KToFGhXAXsZ7jxcmexxVUNzoU70NMCowBQYDK2VwAyEATSkWfz8ZEqb3rfopOgUaFcBexnuPFyZ7HFVQ3OhTvQ0wSzAaDAtleGFtcGxlLm9yZwQLeyJrZ\
         XlzIjpbXX0wFQwGYS50ZXN0BAt7ImtleXMiOltdfTAWDAZhLnRlc3QEDHsia2V5cyI6WyBdfQ==";

// No call of this number is made.
pub(crate) const NEVER: u64 = 1000;

#[test]
fn packs(rt: HostRuntime) {
    for (manifest, width, text) in [
        (MANIFEST, 64, TEXT),
        (OWN, 64, OWN_TEXT),
        (SEVERAL, 2000, SEVERAL_TEXT),
    ] {
        let mut disk = disk_with(&rt, rt.alloc(), manifest, NEVER);
        let packed = pack(rt.alloc(), &mut disk, "m", width, LineEnding::LF);
        same_text(&rt, manifest, good(&rt, "a text", packed).as_str(), text);
    }
}

#[test]
fn refuses(rt: HostRuntime) {
    let entry = 0;
    let trailing = FileError::TrailingData {
        decoded: 2,
        remaining: 1,
    };
    for (manifest, error) in [
        ("{", PackError::Manifest(ManifestError::Syntax)),
        (r#"{"n":1.5}"#, PackError::Manifest(ManifestError::Number)),
        (
            r#"{"entries":[]}"#,
            PackError::Manifest(ManifestError::Shape),
        ),
        (
            r#"{"entries":[],"bundles":[],"entries":[]}"#,
            PackError::Manifest(ManifestError::Shape),
        ),
        (
            r#"{"entries":[{"id":"spiffe://a.test","key":"none"}],"bundles":[]}"#,
            PackError::KeyFile {
                entry,
                cause: FileError::Missing,
            },
        ),
        (
            r#"{"entries":[{"id":"spiffe://a.test","key":"p"}],"bundles":[]}"#,
            PackError::KeyFile {
                entry,
                cause: FileError::Malformed,
            },
        ),
        (
            r#"{"entries":[{"id":"spiffe://a.test","key":"k","public":"bad"}],"bundles":[]}"#,
            PackError::PublicFile {
                entry,
                cause: trailing,
            },
        ),
        (
            r#"{"entries":[{"id":"spiffe://a.test","key":"k"}],"bundles":[]}"#,
            PackError::NoPublicKey { entry },
        ),
    ] {
        let mut disk = disk_with(&rt, rt.alloc(), manifest, NEVER);
        let packed = pack(rt.alloc(), &mut disk, "m", 64, LineEnding::LF);
        same(&rt, manifest, &packed, &Err(error));
    }
}

// The disk's calls of `pack` are those from number 7 on: the manifest, `k`, `p` and `b`.
#[test]
fn faults(rt: HostRuntime) {
    for (failing, is_fault) in [(7, true), (8, true), (9, true), (10, true), (11, false)] {
        let mut disk = disk_with(&rt, rt.alloc(), MANIFEST, failing);
        let packed = pack(rt.alloc(), &mut disk, "m", 64, LineEnding::LF);
        same(&rt, "fault", &(packed == Err(PackError::Fault)), &is_fault);
    }
}
