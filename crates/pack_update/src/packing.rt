//! Packing a manifest.
ghost use Rattle.std.specs.Prelude.{◌≡◌, ◌≤◌, Err};
ghost use Rattle.identity_io.specs.Causes.{Rose};
ghost use Rattle.identity_update.specs.EntryParts.{listed};
ghost use Rattle.identity_update.specs.PartsVerdict.{parts_verdict};
ghost use Rattle.identity_update.specs.Verdict.{map_refusal};
ghost use Rattle.serde_json.specs.View.{view};
ghost use Rattle.pack_manifest.specs.Manifest.{json_check, shape_check};
ghost use Rattle.pack_update.specs.Packed.{Packed, PackedParts, PackedText, width_check};
ghost use Rattle.pack_update.specs.Rules.{Gives, Is};
ghost use Rattle.pack_update.specs.Tries.{Tries};
ghost use Rattle.pack_update.specs.Text.{Packs};
ghost use Rattle.pack_manifest.specs.Views.{manifest_named};

use crate::bundles::read_bundles;
use crate::entries::read_entries;
use crate::error::PackError;
use crate::files::read_whole;
use base64ct::LineEnding;
use identity_io::Disk;
use identity_update::{BundleParts, EntryParts, Update, UpdateError};
use pack_manifest::{Manifest, ManifestError, ReadError, read_value};
use serde_json::Value;
use std::alloc::Global;

fn check_width(width: usize) -> Result<(), PackError>
    ensures { result ≡ width_check width }
{
    if width < 4 {
        return Err(PackError::Width);
    }
    Ok(())
}

fn value_of(alloc: Global, text: &[u8]) -> Result<Value, PackError>
    ensures { Gives view (Is (map_refusal PackError.Manifest (json_check text.now))) result }
{
    match read_value(alloc, text) {
        Ok(value) => Ok(value),
        Err(ReadError::Manifest(error)) => Err(PackError::Manifest(error)),
        Err(ReadError::OutOfMemory) => Err(PackError::OutOfMemory),
    }
}

fn manifest_of<'v>(alloc: Global, text: &[u8], value: &'v Value) -> Result<Manifest<'v>, PackError>
    ensures { Gives manifest_named (Is (map_refusal PackError.Manifest (shape_check text.now (view value.now)))) result }
{
    match Manifest::of(alloc, text, value) {
        Ok(manifest) => Ok(manifest),
        Err(ReadError::Manifest(error)) => Err(PackError::Manifest(error)),
        Err(ReadError::OutOfMemory) => Err(PackError::OutOfMemory),
    }
}

fn update_of(
    alloc: Global,
    entries: Vec<EntryParts>,
    bundles: Vec<BundleParts>,
) -> Result<Update, PackError>
    ensures { Gives (λ update. update) (Is (map_refusal PackError.Update (parts_verdict (listed entries.items bundles.items)))) result }
{
    match Update::from_parts(alloc, entries, bundles) {
        Ok(update) => Ok(update),
        Err(UpdateError::OutOfMemory) => Err(PackError::OutOfMemory),
        Err(error) => Err(PackError::Update(error)),
    }
}

// The update of a manifest.
fn pack_parts<D: Disk>(
    alloc: Global,
    disk: &mut D,
    manifest: &Manifest<'_>,
) -> Result<Update, PackError>
    ensures { Tries (λ update. update) (λ files. PackedParts files (manifest_named manifest.now)) (D.files disk.old) (D.files disk.new) (D.faults disk.old)
        (D.faults disk.new) result }
{
    let entries = match read_entries(alloc, disk, &manifest.entries) {
        Ok(entries) => entries,
        Err(error) => return Err(error),
    };
    match read_bundles(alloc, disk, &manifest.bundles) {
        Ok(bundles) => update_of(alloc, entries, bundles),
        Err(error) => Err(error),
    }
}

// The update of a manifest's text.
fn pack_text<D: Disk>(alloc: Global, disk: &mut D, text: &[u8]) -> Result<Update, PackError>
    ensures { Tries (λ update. update) (λ files. PackedText files text.now) (D.files disk.old) (D.files disk.new) (D.faults disk.old) (D.faults disk.new)
        result }
{
    let value = match value_of(alloc, text) {
        Ok(value) => value,
        Err(error) => return Err(error),
    };
    match manifest_of(alloc, text, &value) {
        Ok(manifest) => pack_parts(alloc, disk, &manifest),
        Err(error) => Err(error),
    }
}

/// The update that the manifest at this path is packed to, for lines of this width.
pub(crate) fn pack_update<D: Disk>(
    alloc: Global,
    disk: &mut D,
    manifest: &str,
    width: usize,
) -> Result<Update, PackError>
    ensures { Tries (λ update. update) (λ files. Packed files manifest.now width) (D.files disk.old) (D.files disk.new) (D.faults disk.old)
        (D.faults disk.new) result }
{
    match check_width(width) {
        Ok(()) => {}
        Err(error) => return Err(error),
    }
    let missing = PackError::Manifest(ManifestError::Missing);
    let too_long = PackError::Manifest(ManifestError::TooLong);
    match read_whole(alloc, disk, manifest, missing, too_long) {
        Ok(text) => pack_text(alloc, disk, &text),
        Err(error) => Err(error),
    }
}

/// The text of the update that the manifest at this path is packed to, in lines of `width` characters,
/// with the ending between two lines and none after the last. The files are read in the order of the
/// manifest, and a key file as a document first. It errs with the first rule that the manifest and its
/// files break, with `Fault` where the disk fails before one is found broken, and for want of memory.
/// Which rule it is, is that of the files as they were read: of a disk that doesn't tell its files no
/// clause names it.
pub fn pack<D: Disk>(
    alloc: Global,
    disk: &mut D,
    manifest: &str,
    width: usize,
    ending: LineEnding,
) -> Result<String, PackError>
    ensures packed { Packs (D.files disk.old) manifest.now width ending result }
    ensures fault { result ≡ Err PackError.Fault → Rose (D.faults disk.old) (D.faults disk.new) }
    ensures kept { D.files disk.new ≡ D.files disk.old }
    ensures later { D.faults disk.old ≤ D.faults disk.new }
{
    let update = match pack_update(alloc, disk, manifest, width) {
        Ok(update) => update,
        Err(error) => return Err(error),
    };
    match update.to_text(alloc, width, ending) {
        Ok(text) => Ok(text),
        Err(_) => Err(PackError::OutOfMemory),
    }
}
