//! Texts of updates. The documents are put together from the grammar by a few lines of Python, and written by its `base64`.
use super::lines_of;
use crate::checks::{good, same, same_bytes, some};
use base64ct::LineEnding;
use identity_update::Update;
use std::alloc::Global;
use std::process::Abort;

// A row has the width of a text; a width and an ending; the text; and the text that is written so: ids and domains in their
// canonical texts, attributes kept, extensions left out, bundles kept that a later one replaces, and the reason. In a text `,`
// stands for LF and `;` for CR.
const ROWS: &str =
    "204 = 64 = LF = MIGWMHYwdAwWc3BpZmZlOi8vZXhhbXBsZS5vcmcvYTAuAgEAMAUGAytlcAQiBCARERERERERERERERERERERERERERERERERERERERERETAqMAUGAytlcAM\
    hAE0pFn8/GRKm9636KToFGhXAXsZ7jxcmexxVUNzoU70NMBwwGgwLZXhhbXBsZS5vcmcEC3sia2V5cyI6W119 = MIGWMHYwdAwWc3BpZmZlOi8vZXhhbXBsZS5vcmcvYTAuAgEA\
    MAUGAytlcAQiBCAR,ERERERERERERERERERERERERERERERERERERERERETAqMAUGAytlcAMhAE0pFn8/,GRKm9636KToFGhXAXsZ7jxcmexxVUNzoU70NMBwwGgwLZXhhbXBsZS\
    5vcmcEC3si,a2V5cyI6W119
204 = 100 = CRLF = MIGWMHYwdAwWc3BpZmZlOi8vZXhhbXBsZS5vcmcvYTAuAgEAMAUGAytlcAQiBCARERERERERERERERERERERERERERERERERERERERERETAqMAUGAytlcAMhA\
    E0pFn8/GRKm9636KToFGhXAXsZ7jxcmexxVUNzoU70NMBwwGgwLZXhhbXBsZS5vcmcEC3sia2V5cyI6W119 = MIGWMHYwdAwWc3BpZmZlOi8vZXhhbXBsZS5vcmcvYTAuAgEAMA\
    UGAytlcAQiBCARERERERERERERERERERERERERERERERERERER;,ERERETAqMAUGAytlcAMhAE0pFn8/GRKm9636KToFGhXAXsZ7jxcmexxVUNzoU70NMBwwGgwLZXhhbXBsZS5v\
    cmcEC3sia2V5cyI6;,W119
204 = 50 = CR = MIGWMHYwdAwWc3BpZmZlOi8vZXhhbXBsZS5vcmcvYTAuAgEAMAUGAytlcAQiBCARERERERERERERERERERERERERERERERERERERERERETAqMAUGAytlcAMhAE0p\
    Fn8/GRKm9636KToFGhXAXsZ7jxcmexxVUNzoU70NMBwwGgwLZXhhbXBsZS5vcmcEC3sia2V5cyI6W119 = MIGWMHYwdAwWc3BpZmZlOi8vZXhhbXBsZS5vcmcvYTAuAgEAMA;UG\
    AytlcAQiBCARERERERERERERERERERERERERERERERERERER;ERERETAqMAUGAytlcAMhAE0pFn8/GRKm9636KToFGhXAXsZ7jx;cmexxVUNzoU70NMBwwGgwLZXhhbXBsZS5vcm\
    cEC3sia2V5cyI6;W119
64 = 64 = LF = MIGhMHYwdAwWU1BJRkZFOi8vRXhhbXBsZS5PUkcvQTAuAgEAMAUGAytlcAQiBCAR,ERERERERERERERERERERERERERERERERERERERERETAqMAUGAytlcAMhAE0p\
    Fn8/,GRKm9636KToFGhXAXsZ7jxcmexxVUNzoU70NMCcwJQwWc3BpZmZlOi8vRVhBTVBM,RS5vcmcveAQLeyJrZXlzIjpbXX0= = MIGWMHYwdAwWc3BpZmZlOi8vZXhhbXBsZS5\
    vcmcvQTAuAgEAMAUGAytlcAQiBCAR,ERERERERERERERERERERERERERERERERERERERERETAqMAUGAytlcAMhAE0pFn8/,GRKm9636KToFGhXAXsZ7jxcmexxVUNzoU70NMBwwG\
    gwLZXhhbXBsZS5vcmcEC3si,a2V5cyI6W119
300 = 64 = LF = MIGYMHgwdgwWc3BpZmZlOi8vZXhhbXBsZS5vcmcvYTAwAgEAMAUGAytlcAQiBCAREREREREREREREREREREREREREREREREREREREREREaAAMCowBQYDK2VwAyEA\
    TSkWfz8ZEqb3rfopOgUaFcBexnuPFyZ7HFVQ3OhTvQ0wHDAaDAtleGFtcGxlLm9yZwQLeyJrZXlzIjpbXX0= = MIGYMHgwdgwWc3BpZmZlOi8vZXhhbXBsZS5vcmcvYTAwAgEAM\
    AUGAytlcAQiBCAR,EREREREREREREREREREREREREREREREREREREREREaAAMCowBQYDK2VwAyEATSkW,fz8ZEqb3rfopOgUaFcBexnuPFyZ7HFVQ3OhTvQ0wHDAaDAtleGFtcGx\
    lLm9yZwQL,eyJrZXlzIjpbXX0=
300 = 64 = LF = MIGaMHoweAwWc3BpZmZlOi8vZXhhbXBsZS5vcmcvYTAyAgEAMAUGAytlcAQiBCAREREREREREREREREREREREREREREREREREREREREREaECBQAwKjAFBgMrZXAD\
    IQBNKRZ/PxkSpvet+ik6BRoVwF7Ge48XJnscVVDc6FO9DTAcMBoMC2V4YW1wbGUub3JnBAt7ImtleXMiOltdfQ== = MIGWMHYwdAwWc3BpZmZlOi8vZXhhbXBsZS5vcmcvYTAuA\
    gEAMAUGAytlcAQiBCAR,ERERERERERERERERERERERERERERERERERERERERETAqMAUGAytlcAMhAE0pFn8/,GRKm9636KToFGhXAXsZ7jxcmexxVUNzoU70NMBwwGgwLZXhhbXB\
    sZS5vcmcEC3si,a2V5cyI6W119
400 = 400 = LF = MIGzMHYwdAwWc3BpZmZlOi8vZXhhbXBsZS5vcmcvYTAuAgEAMAUGAytlcAQiBCARERERERERERERERERERERERERERERERERERERERERETAqMAUGAytlcAMhAE0\
    pFn8/GRKm9636KToFGhXAXsZ7jxcmexxVUNzoU70NMDkwGwwLZXhhbXBsZS5vcmcEDHsia2V5cyI6W119IDAaDAtleGFtcGxlLm9yZwQLeyJrZXlzIjpbXX0= = MIGzMHYwdAwW\
    c3BpZmZlOi8vZXhhbXBsZS5vcmcvYTAuAgEAMAUGAytlcAQiBCARERERERERERERERERERERERERERERERERERERERERETAqMAUGAytlcAMhAE0pFn8/GRKm9636KToFGhXAXsZ7\
    jxcmexxVUNzoU70NMDkwGwwLZXhhbXBsZS5vcmcEDHsia2V5cyI6W119IDAaDAtleGFtcGxlLm9yZwQLeyJrZXlzIjpbXX0=
56 = 64 = LF = MCYwADAcMBoMC2V4YW1wbGUub3JnBAt7ImtleXMiOltdfYAEZ29uZQ== = MCYwADAcMBoMC2V4YW1wbGUub3JnBAt7ImtleXMiOltdfYAEZ29uZQ==";

fn ending(name: &str) -> LineEnding {
    match name {
        "CR" => LineEnding::CR,
        "CRLF" => LineEnding::CRLF,
        _ => LineEnding::LF,
    }
}

fn read(rt: &impl Abort, alloc: Global, text: &[u8], width: usize) -> Update {
    good(rt, "an update", Update::read(alloc, text, width))
}

fn check_written(
    rt: &impl Abort,
    alloc: Global,
    update: &Update,
    line: usize,
    ending: LineEnding,
    written: &[u8],
) {
    let answer = good(rt, "a text", update.to_text(alloc, line, ending));
    same_bytes(rt, "a text", answer.as_bytes(), written);
    assert!(rt; *update == read(rt, alloc, answer.as_bytes(), line));
    let refusal = update.to_text(alloc, 3, ending).err();
    same(
        rt,
        "a width",
        &refusal,
        &Some(base64ct::Error::InvalidLength),
    );
}

#[test]
fn updates_are_written(rt: HostRuntime) {
    let alloc = rt.alloc();
    for row in ROWS.lines() {
        let (width, rest) = some(&rt, "a width", row.split_once(" = "));
        let (line, rest) = some(&rt, "a width", rest.split_once(" = "));
        let (name, rest) = some(&rt, "an ending", rest.split_once(" = "));
        let (text, written) = some(&rt, "a text", rest.split_once(" = "));
        let width = good(&rt, "a width", width.parse::<usize>());
        let line = good(&rt, "a width", line.parse::<usize>());
        let update = read(&rt, alloc, &lines_of(&rt, alloc, text), width);
        let written = lines_of(&rt, alloc, written);
        check_written(&rt, alloc, &update, line, ending(name), &written);
    }
}
