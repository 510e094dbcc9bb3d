//! Texts that write updates. The documents are put together from the grammar by a few lines of Python, and written by
//! its `base64`; keys are RFC 8410's, made by OpenSSL.
use super::lines_of;
use crate::checks::{good, same_text, some};
use identity_update::Update;
use std::alloc::Global;
use std::process::Abort;

// A row has a width; the first id without its scheme, the number of bundles and the reason; and a text, in which `,` stands
// for LF and `;` for CR.
const ROWS: &str =
    "204 = example.org/a 1 None = MIGWMHYwdAwWc3BpZmZlOi8vZXhhbXBsZS5vcmcvYTAuAgEAMAUGAytlcAQiBCARERERERERERERERERERERERERERERERERERERERERET\
    AqMAUGAytlcAMhAE0pFn8/GRKm9636KToFGhXAXsZ7jxcmexxVUNzoU70NMBwwGgwLZXhhbXBsZS5vcmcEC3sia2V5cyI6W119
64 = example.org/a 1 None = MIGWMHYwdAwWc3BpZmZlOi8vZXhhbXBsZS5vcmcvYTAuAgEAMAUGAytlcAQiBCAR,ERERERERERERERERERERERERERERERERERERERERETAqMAU\
    GAytlcAMhAE0pFn8/,GRKm9636KToFGhXAXsZ7jxcmexxVUNzoU70NMBwwGgwLZXhhbXBsZS5vcmcEC3si,a2V5cyI6W119
64 = example.org/a 1 None = MIGWMHYwdAwWc3BpZmZlOi8vZXhhbXBsZS5vcmcvYTAuAgEAMAUGAytlcAQiBCAR;ERERERERERERERERERERERERERERERERERERERERETAqMAU\
    GAytlcAMhAE0pFn8/,GRKm9636KToFGhXAXsZ7jxcmexxVUNzoU70NMBwwGgwLZXhhbXBsZS5vcmcEC3si;,a2V5cyI6W119
300 = example.org/a 1 None = MIG7MIGaMIGXDBZzcGlmZmU6Ly9leGFtcGxlLm9yZy9hMFECAQEwBQYDK2VwBCIEIBERERERERERERERERERERERERERERERERERERERERERgSE\
    ATSkWfz8ZEqb3rfopOgUaFcBexnuPFyZ7HFVQ3OhTvQ0wKjAFBgMrZXADIQBNKRZ/PxkSpvet+ik6BRoVwF7Ge48XJnscVVDc6FO9DTAcMBoMC2V4YW1wbGUub3JnBAt7ImtleXM\
    iOltdfQ==
300 = example.org/a 1 None = MIGYMHgwdgwWc3BpZmZlOi8vZXhhbXBsZS5vcmcvYTAwAgEAMAUGAytlcAQiBCAREREREREREREREREREREREREREREREREREREREREREaAAMCo\
    wBQYDK2VwAyEATSkWfz8ZEqb3rfopOgUaFcBexnuPFyZ7HFVQ3OhTvQ0wHDAaDAtleGFtcGxlLm9yZwQLeyJrZXlzIjpbXX0=
300 = example.org/a 1 None = MIGaMHoweAwWc3BpZmZlOi8vZXhhbXBsZS5vcmcvYTAyAgEAMAUGAytlcAQiBCAREREREREREREREREREREREREREREREREREREREREREaECBQA\
    wKjAFBgMrZXADIQBNKRZ/PxkSpvet+ik6BRoVwF7Ge48XJnscVVDc6FO9DTAcMBoMC2V4YW1wbGUub3JnBAt7ImtleXMiOltdfQ==
64 = example.org/A 1 None = MIGhMHYwdAwWU1BJRkZFOi8vRXhhbXBsZS5PUkcvQTAuAgEAMAUGAytlcAQiBCAR,ERERERERERERERERERERERERERERERERERERERERETAqMAU\
    GAytlcAMhAE0pFn8/,GRKm9636KToFGhXAXsZ7jxcmexxVUNzoU70NMCcwJQwWc3BpZmZlOi8vRVhBTVBM,RS5vcmcveAQLeyJrZXlzIjpbXX0=
400 = example.org/a 2 None = MIGzMHYwdAwWc3BpZmZlOi8vZXhhbXBsZS5vcmcvYTAuAgEAMAUGAytlcAQiBCARERERERERERERERERERERERERERERERERERERERERETAqMAU\
    GAytlcAMhAE0pFn8/GRKm9636KToFGhXAXsZ7jxcmexxVUNzoU70NMDkwGwwLZXhhbXBsZS5vcmcEDHsia2V5cyI6W119IDAaDAtleGFtcGxlLm9yZwQLeyJrZXlzIjpbXX0=
56 =  1 Some(\"gone\") = MCYwADAcMBoMC2V4YW1wbGUub3JnBAt7ImtleXMiOltdfYAEZ29uZQ==
400 =  0 Some(\"rrrrrrrrrrrrrrrrrrrrrrrrrrrrrrrrrrrrrrrrrrrrrrrrrrrrrrrrrrrrrrrrrrrrrrrrrrrrrrrrrrrrrrrrrrrrrrrrrrrrrrrrrrrrrrrrrrrrrrrrrrrr\
     rrrrrrrrrrrrrrrrrrrrrrrrrrrrrrrrrrrrrrrrrrrrrrrrrrrrrrrrrrrrrrrrrrrrrrrrrrrrrrrrrrrrrrrrrrrrrrrrrrrrrrrrrrrrrrrrrrrrrrrrrrrrrrrrrrr\") \
     = MIIBBjAAMACAgf9ycnJycnJycnJycnJycnJycnJycnJycnJycnJycnJycnJycnJycnJycnJycnJycnJycnJycnJycnJycnJycnJycnJycnJycnJycnJycnJycnJycnJycnJyc\
     nJycnJycnJycnJycnJycnJycnJycnJycnJycnJycnJycnJycnJycnJycnJycnJycnJycnJycnJycnJycnJycnJycnJycnJycnJycnJycnJycnJycnJycnJycnJycnJycnJycnJy\
     cnJycnJycnJycnJycnJycnJycnJycnJycnJycnJycnJycnJycnJycnJycnJycnJycnJycnJycnJycnJycnJycnI=";

fn shown(rt: &impl Abort, alloc: Global, update: &Update) -> String {
    let bundles = update.bundles().len();
    let reason = update.reason();
    let text = match update.entries().next() {
        None => format!(in alloc; " {bundles} {reason:?}"),
        Some(identity) => {
            let (domain, path) = (identity.id().trust_domain_name(), identity.id().path());
            format!(in alloc; "{domain}{path} {bundles} {reason:?}")
        }
    };
    good(rt, "memory", text)
}

#[test]
fn updates_are_read(rt: HostRuntime) {
    let alloc = rt.alloc();
    for row in ROWS.lines() {
        let (width, rest) = some(&rt, "a width", row.split_once(" = "));
        let (wanted, text) = some(&rt, "an answer", rest.split_once(" = "));
        let width = good(&rt, "a width", width.parse::<usize>());
        let text = lines_of(&rt, alloc, text);
        let update = good(&rt, "an update", Update::read(alloc, &text, width));
        same_text(&rt, row, shown(&rt, alloc, &update).as_str(), wanted);
    }
}
