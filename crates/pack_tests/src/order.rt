// Which rule is named where several are broken: each row breaks the rule that is wanted and later ones.
use crate::checks::{good, same};
use crate::packing::{MANIFEST, NEVER};
use crate::shelf::disk_with;
use base64ct::LineEnding;
use identity_io::LIMIT;
use pack_update::{FileError, ManifestError, PackError, pack};
use spiffe_id::SpiffeIdError;

// What each rule is broken by where the manifest is read.
#[test]
fn manifests(rt: HostRuntime) {
    for (path, width, manifest, error) in [
        ("none", 3, "", PackError::Width),
        ("m", 3, "{", PackError::Width),
        ("m", 0, MANIFEST, PackError::Width),
        ("none", 4, "{", PackError::Manifest(ManifestError::Missing)),
        (
            "m",
            4,
            r#"{"n":1.5"#,
            PackError::Manifest(ManifestError::Syntax),
        ),
        (
            "m",
            4,
            r#"{"n":1e400}"#,
            PackError::Manifest(ManifestError::Syntax),
        ),
        (
            "m",
            4,
            r#"{"n":1,"n":-0}"#,
            PackError::Manifest(ManifestError::Number),
        ),
        (
            "m",
            4,
            r#"{"entries":[{"id":"x","key":"none","size":18446744073709551616}],"bundles":[]}"#,
            PackError::Manifest(ManifestError::Number),
        ),
        (
            "m",
            4,
            r#"{"entries":[{"id":"x","key":"none"},7],"bundles":[]}"#,
            PackError::Manifest(ManifestError::Shape),
        ),
        (
            "m",
            4,
            r#"{"entries":[{"id":"x","key":"none","public":null}],"bundles":[]}"#,
            PackError::Manifest(ManifestError::Shape),
        ),
        (
            "m",
            4,
            r#"{"entries":[{"id":"x","key":"none","kind":"key"}],"bundles":[]}"#,
            PackError::Manifest(ManifestError::Shape),
        ),
        (
            "m",
            4,
            r#"{"entries":[{"id":"x","key":"none"}],"bundles":[{"domain":"a.test"}]}"#,
            PackError::Manifest(ManifestError::Shape),
        ),
        (
            "m",
            4,
            r#"{"bundles":[],"entries":[{"id":"x","key":"none"}],"bundles":[]}"#,
            PackError::Manifest(ManifestError::Shape),
        ),
    ] {
        let mut disk = disk_with(&rt, rt.alloc(), manifest, NEVER);
        let packed = pack(rt.alloc(), &mut disk, path, width, LineEnding::LF);
        same(&rt, manifest, &packed, &Err(error));
    }
}

// The rules of entries and bundles, in their order.
#[test]
fn files(rt: HostRuntime) {
    let missing = FileError::Missing;
    for (manifest, error) in [
        (
            r#"{"entries":[{"id":"","key":"none","public":"none"},{"id":"x","key":"none"}],"bundles":[{"domain":"","jwks":"none"}]}"#,
            PackError::Subject {
                entry: 0,
                cause: SpiffeIdError::Empty,
            },
        ),
        (
            r#"{"entries":[{"id":"spiffe://a.test","key":"none","public":"none"},{"id":"","key":"none"}],"bundles":[{"domain":"","jwks":"none"}]}"#,
            PackError::KeyFile {
                entry: 0,
                cause: missing,
            },
        ),
        (
            r#"{"entries":[{"id":"spiffe://a.test","key":"bad"},{"id":"","key":"none"}],"bundles":[{"domain":"","jwks":"none"}]}"#,
            PackError::KeyFile {
                entry: 0,
                cause: FileError::TrailingData {
                    decoded: 2,
                    remaining: 1,
                },
            },
        ),
        (
            r#"{"entries":[{"id":"spiffe://a.test","key":"k","public":"none"},{"id":"","key":"none"}],"bundles":[{"domain":"","jwks":"none"}]}"#,
            PackError::PublicFile {
                entry: 0,
                cause: missing,
            },
        ),
        (
            r#"{"entries":[{"id":"spiffe://a.test","key":"k"},{"id":"","key":"none"}],"bundles":[{"domain":"","jwks":"none"}]}"#,
            PackError::NoPublicKey { entry: 0 },
        ),
        (
            r#"{"entries":[{"id":"spiffe://a.test","key":"w"},{"id":"","key":"none"}],"bundles":[{"domain":"","jwks":"none"}]}"#,
            PackError::Subject {
                entry: 1,
                cause: SpiffeIdError::Empty,
            },
        ),
        (
            r#"{"entries":[{"id":"spiffe://a.test","key":"w"}],"bundles":[{"domain":"","jwks":"none"},{"domain":"a.test","jwks":"none"}]}"#,
            PackError::Domain {
                bundle: 0,
                cause: SpiffeIdError::MissingTrustDomain,
            },
        ),
        (
            r#"{"entries":[],"bundles":[{"domain":"a.test","jwks":"none"},{"domain":"","jwks":"none"}]}"#,
            PackError::JwksFile {
                bundle: 0,
                cause: missing,
            },
        ),
        (
            r#"{"entries":[],"bundles":[{"domain":"a.test","jwks":"k"},{"domain":"a.test","jwks":"none"}]}"#,
            PackError::JwksFile {
                bundle: 1,
                cause: missing,
            },
        ),
    ] {
        let mut disk = disk_with(&rt, rt.alloc(), manifest, NEVER);
        let packed = pack(rt.alloc(), &mut disk, "m", 64, LineEnding::LF);
        same(&rt, manifest, &packed, &Err(error));
    }
}

// A text of that many bytes which is no JSON.
#[test]
fn size_of_a_manifest(rt: HostRuntime) {
    for (count, error) in [
        (LIMIT, ManifestError::Syntax),
        (LIMIT + 1, ManifestError::TooLong),
    ] {
        let manifest = good(&rt, "memory", "x".repeat(rt.alloc(), count));
        let mut disk = disk_with(&rt, rt.alloc(), manifest.as_str(), NEVER);
        let packed = pack(rt.alloc(), &mut disk, "m", 64, LineEnding::LF);
        same(&rt, "manifest", &packed, &Err(PackError::Manifest(error)));
    }
}

// Brackets within the outermost object: 127 levels are read, and then have no place in a manifest.
#[test]
fn deep_manifests(rt: HostRuntime) {
    for (levels, error) in [(126, ManifestError::Shape), (127, ManifestError::Syntax)] {
        let open = good(&rt, "memory", "[".repeat(rt.alloc(), levels));
        let close = good(&rt, "memory", "]".repeat(rt.alloc(), levels));
        let manifest = format!(in rt.alloc(); r#"{{"entries":{open}{close},"bundles":[]}}"#);
        let manifest = good(&rt, "memory", manifest);
        let mut disk = disk_with(&rt, rt.alloc(), manifest.as_str(), NEVER);
        let packed = pack(rt.alloc(), &mut disk, "m", 64, LineEnding::LF);
        same(&rt, "manifest", &packed, &Err(PackError::Manifest(error)));
    }
}
