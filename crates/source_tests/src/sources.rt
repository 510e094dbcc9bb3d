//! The texts are by a script from the grammar of `docs/FORMATS.md`; the revisions follow from how many texts were applied.
ghost use Rattle.std.specs.Prelude.{◌≡◌, IfOk};

use crate::checks::{good, same};
use identity_source::{
    IdentityReader, IdentitySource, KeptReader, Look, Missed, Receipt, Snapshot, SourceError,
    UpdateError, Window,
};
use spiffe_bundle::BundleSource;
use spiffe_id::TrustDomain;
use std::alloc::Global;
use std::sync::Wait;

/// One identity, `spiffe://example.org/a`, and one bundle, of `example.org`, without keys.
const GRANTED: &[u8] = b"MIGWMHYwdAwWc3BpZmZlOi8vZXhhbXBsZS5vcmcvYTAuAgEAMAUGAytlcAQiBCAR
ERERERERERERERERERERERERERERERERERERERERETAqMAUGAytlcAMhAE0pFn8/
GRKm9636KToFGhXAXsZ7jxcmexxVUNzoU70NMBwwGgwLZXhhbXBsZS5vcmcEC3si
a2V5cyI6W119";

/// No identity, the same bundle, and the reason `gone`.
const WITHDRAWN: &[u8] = b"MCYwADAcMBoMC2V4YW1wbGUub3JnBAt7ImtleXMiOltdfYAEZ29uZQ==";

const WIDTH: usize = 64;

// A source with one reader.
fn opened<R: Wait>(
    rt: &R,
    alloc: Global,
    first: u64,
) -> Result<(IdentitySource, IdentityReader), SourceError>
    ensures { IfOk result (λ pair. pair.1.sight.name ≡ pair.0.name) }
{
    let (source, mut readers) = IdentitySource::open(rt, alloc, first, 1)?;
    let reader = readers.pop().unwrap();
    Ok((source, reader))
}

// The revision and how it was come by.
fn answer<W: Window>(reader: &mut KeptReader<W>) -> (u64, Option<Look>)
    ensures { reader.new.sight.name ≡ reader.old.sight.name }
{
    let revision = reader.current().revision();
    (revision, reader.look())
}

// Whether the default identity is the one that was granted; none where there is none.
fn is_granted(state: &Snapshot) -> Option<bool> {
    state.svid().map(|identity| identity.id().trust_domain_name() == "example.org"
        && identity.id().path() == "/a")
}

#[test]
fn reader_sees_untold_publish(rt: HostRuntime) {
    let (mut source, mut reader) = good(&rt, "a source", opened(&rt, rt.alloc(), 0));
    let applied = source.apply(&rt, GRANTED, WIDTH).is_ok();
    let seen = answer(&mut reader);
    source.close(&rt);
    assert!(rt; applied);
    same(&rt, "seen", &seen, &(1, Some(Look::Looked)));
}

#[test]
fn used_up_revisions_are_refused(rt: HostRuntime) {
    let (mut source, mut reader) = good(&rt, "a source", opened(&rt, rt.alloc(), u64::MAX));
    let refused = source.apply(&rt, GRANTED, WIDTH).err();
    let identities = reader.current().identities().count();
    let seen = answer(&mut reader);
    let latest = source.latest().revision();
    source.close(&rt);
    same(
        &rt,
        "a refusal",
        &refused,
        &Some(UpdateError::RevisionsUsedUp),
    );
    same(&rt, "identities", &identities, &0);
    same(&rt, "seen", &seen, &(u64::MAX, Some(Look::Looked)));
    same(&rt, "latest", &latest, &u64::MAX);
}

#[test]
fn refused_texts_publish_nothing(rt: HostRuntime) {
    let (mut source, mut reader) = good(&rt, "a source", opened(&rt, rt.alloc(), 7));
    let empty = source.apply(&rt, b"", WIDTH).err();
    let seen = answer(&mut reader);
    let applied = source.apply(&rt, GRANTED, WIDTH).is_ok();
    let latest = source.latest().revision();
    source.close(&rt);
    let refusal = UpdateError::Text(base64ct::Error::InvalidLength);
    same(&rt, "a refusal", &empty, &Some(refusal));
    same(&rt, "seen", &seen, &(7, Some(Look::Looked)));
    same(&rt, "applied", &(applied, latest), &(true, 8));
}

// The revision of a receipt, its default identity, how many identities, and the reason of a withdrawal.
fn shape(receipt: &Receipt) -> (u64, Option<bool>, usize, Option<&str>) {
    let state = receipt.snapshot();
    (
        receipt.revision(),
        is_granted(state),
        state.identities().count(),
        state.withdrawn(),
    )
}

fn apply_both<R: Wait>(
    rt: &R,
    source: &mut IdentitySource,
) -> Result<(Receipt, Receipt), UpdateError> {
    let granted = source.apply(rt, GRANTED, WIDTH)?;
    let withdrawn = source.apply(rt, WITHDRAWN, WIDTH)?;
    Ok((granted, withdrawn))
}

#[test]
fn states_are_shown_whole(rt: HostRuntime) {
    let domain = good(
        &rt,
        "a trust domain",
        TrustDomain::new(rt.alloc(), "example.org"),
    );
    let (mut source, _reader) = good(&rt, "a source", opened(&rt, rt.alloc(), 0));
    let applied = apply_both(&rt, &mut source);
    let state = source.latest();
    let listed = (state.bundles().len(), state.bundle_set().len());
    let found = state
        .bundle_for_trust_domain(&domain)
        .is_ok_and(|bundle| bundle.is_some());
    source.close(&rt);
    let (granted, withdrawn) = good(&rt, "two receipts", applied);
    same(&rt, "granted", &shape(&granted), &(1, Some(true), 1, None));
    same(
        &rt,
        "withdrawn",
        &shape(&withdrawn),
        &(2, None, 0, Some("gone")),
    );
    same(&rt, "bundles", &(listed, found), &((1, 1), true));
}

// What a reader of an opening state says before and after its first look.
fn is_fresh(reader: &mut IdentityReader) -> bool {
    let live = reader.live() && reader.look().is_none();
    live && answer(reader) == (0, Some(Look::Looked)) && reader.current().svid().is_none()
}

#[test]
fn readers_are_live(rt: HostRuntime) {
    for count in [1, 8, 64] {
        let open = IdentitySource::open(&rt, rt.alloc(), 0, count);
        let (source, mut readers) = good(&rt, "a source", open);
        let mut fresh = readers.len() == count;
        for reader in readers.iter_mut() {
            fresh = is_fresh(reader) && fresh;
        }
        source.close(&rt);
        assert!(rt; fresh, "{count} readers");
    }
}

// The reader is told of the later receipt first.
fn tell_both(reader: &mut IdentityReader, earlier: Receipt, later: Receipt) -> (u64, Option<Look>)
    requires earlier { earlier.name ≡ reader.old.sight.name }
    requires later { later.name ≡ reader.old.sight.name }
{
    reader.told(later);
    reader.told(earlier);
    answer(reader)
}

fn apply_three<R: Wait>(
    rt: &R,
    source: &mut IdentitySource,
    reader: &mut IdentityReader,
) -> Result<(u64, Option<Look>), UpdateError>
    requires { reader.old.sight.name ≡ source.old.name }
{
    let first = source.apply(rt, GRANTED, WIDTH)?;
    let _second = source.apply(rt, WITHDRAWN, WIDTH)?;
    let third = source.apply(rt, GRANTED, WIDTH)?;
    Ok(tell_both(reader, first, third))
}

#[test]
fn earlier_receipt_takes_nothing_back(rt: HostRuntime) {
    let (mut source, mut reader) = opened(&rt, rt.alloc(), 0).expect(&rt, "a source");
    let told = apply_three(&rt, &mut source, &mut reader);
    source.close(&rt);
    let told = good(&rt, "three receipts", told);
    same(&rt, "told", &told, &(3, Some(Look::Looked)));
    same(&rt, "granted", &is_granted(reader.current()), &Some(true));
    let seen = answer(&mut reader);
    same(
        &rt,
        "seen",
        &seen,
        &(3, Some(Look::Missed(Missed::NoGuard))),
    );
}

// Two readers are told of one update each.
fn tell_two<R: Wait>(
    rt: &R,
    source: &mut IdentitySource,
    first: &mut IdentityReader,
    second: &mut IdentityReader,
) -> Result<(), UpdateError>
    requires first { first.old.sight.name ≡ source.old.name }
    requires second { second.old.sight.name ≡ source.old.name }
{
    let receipt = source.apply(rt, GRANTED, WIDTH)?;
    first.told(receipt);
    if let Ok(receipt) = source.receipt() {
        second.told(receipt);
    }
    Ok(())
}

fn is_told(reader: &mut IdentityReader) -> bool {
    answer(reader) == (1, Some(Look::Looked)) && is_granted(reader.current()) == Some(true)
}

#[test]
fn told_readers_answer_from_the_receipt(rt: HostRuntime) {
    let open = IdentitySource::open(&rt, rt.alloc(), 0, 2);
    let (mut source, mut readers) = open.expect(&rt, "a source");
    let mut first = readers.pop().unwrap();
    let mut second = readers.pop().unwrap();
    let applied = tell_two(&rt, &mut source, &mut first, &mut second);
    let told = is_told(&mut first) && is_told(&mut second) && is_told(&mut first);
    source.close(&rt);
    good(&rt, "a receipt", applied);
    assert!(rt; told);
}

// A share of the first of 101 states, which is held while the others are applied.
fn hold<R: Wait>(rt: &R, source: &mut IdentitySource) -> Result<Snapshot, UpdateError>
    ensures { source.new.name ≡ source.old.name }
{
    let held = source.apply(rt, GRANTED, WIDTH)?.snapshot().try_clone();
    for _ in 0..100 {
        source.apply(rt, WITHDRAWN, WIDTH)?;
    }
    held.or(Err(UpdateError::OutOfMemory))
}

fn hold_and_tell<R: Wait>(
    rt: &R,
    source: &mut IdentitySource,
    reader: &mut IdentityReader,
) -> Result<(u64, Option<bool>), UpdateError>
    requires { reader.old.sight.name ≡ source.old.name }
{
    let held = hold(rt, source)?;
    if let Ok(receipt) = source.receipt() {
        reader.told(receipt);
    }
    Ok((held.revision(), is_granted(&held)))
}

#[test]
fn held_snapshots(rt: HostRuntime) {
    let (mut source, mut reader) = opened(&rt, rt.alloc(), 0).expect(&rt, "a source");
    let held = hold_and_tell(&rt, &mut source, &mut reader);
    let seen = answer(&mut reader);
    source.close(&rt);
    same(&rt, "held", &good(&rt, "a share", held), &(1, Some(true)));
    same(&rt, "seen", &seen, &(101, Some(Look::Looked)));
}

#[test]
fn closed_source_leaves_its_readers(rt: HostRuntime) {
    let (source, mut reader) = good(&rt, "a source", opened(&rt, rt.alloc(), 4));
    source.close(&rt);
    let seen = answer(&mut reader);
    same(
        &rt,
        "seen",
        &seen,
        &(4, Some(Look::Missed(Missed::NoGuard))),
    );
    assert!(rt; reader.live());
}

#[test]
fn missed_look_gives_the_kept_state(rt: HostRuntime) {
    let failing = good(&rt, "memory", vec![in rt.alloc(); 0]);
    let (mut source, reader) = good(&rt, "a source", opened(&rt, rt.alloc(), 0));
    let mut reader = reader.with_misses(failing);
    let applied = source.apply(&rt, GRANTED, WIDTH).is_ok();
    let first = answer(&mut reader);
    let second = answer(&mut reader);
    source.close(&rt);
    assert!(rt; applied);
    same(
        &rt,
        "first",
        &first,
        &(0, Some(Look::Missed(Missed::NoGuard))),
    );
    same(&rt, "second", &second, &(1, Some(Look::Looked)));
}
