//! Reading a manifest and the files that it names.
ghost use Rattle.std.specs.Prelude.{◌≡◌, ◌≢◌};
ghost use Rattle.identity_io.specs.Files.{file_at};
ghost use Rattle.pkcs8.specs.PlainPrivateKey.{plain_private_key};
ghost use Rattle.spki.specs.PlainPublicKey.{plain_public_key};
ghost use Rattle.pack_update.specs.KeyFiles.{ReadsPrivateKeyFile, ReadsPublicKeyFile, der_refusal, file_refusal, private_refusal, public_refusal, whole_file};
ghost use Rattle.pack_update.specs.Rules.{Is, OrFault, RefusedAs};
ghost use Rattle.pack_update.specs.Tries.{Tries};

use crate::error::{FileError, PackError};
use identity_io::{Disk, DiskError};
use pkcs8::{DecodePrivateKey, PrivateKeyInfoOwned};
use spki::{DecodePublicKey, SubjectPublicKeyInfoOwned};
use std::alloc::Global;

/// A file of the entry with this number.
#[derive(Clone, Copy)]
pub(crate) enum KeyFile {
    /// That of its private key.
    Private(usize),

    /// That of its public key.
    Public(usize),
}

fn file_refusal(file: KeyFile, cause: FileError) -> PackError
    ensures { result ≡ file_refusal file cause }
{
    match file {
        KeyFile::Private(entry) => PackError::KeyFile { entry, cause },
        KeyFile::Public(entry) => PackError::PublicFile { entry, cause },
    }
}

fn der_refusal(file: KeyFile, error: der_small::Error) -> PackError
    ensures { result ≡ der_refusal file error }
{
    match error {
        der_small::Error::FileMissing => file_refusal(file, FileError::Missing),
        der_small::Error::FileTooLong => file_refusal(file, FileError::TooLong),
        der_small::Error::FileFault => PackError::Fault,
        der_small::Error::OutOfMemory => PackError::OutOfMemory,
        der_small::Error::TrailingData { decoded, remaining } => {
            file_refusal(file, FileError::TrailingData { decoded, remaining })
        }
        der_small::Error::Malformed => file_refusal(file, FileError::Malformed),
        der_small::Error::TagUnexpected {
            expected: _,
            actual: _,
        } => file_refusal(file, FileError::Malformed),
        der_small::Error::Overlength => file_refusal(file, FileError::Malformed),
        der_small::Error::OidMalformed => file_refusal(file, FileError::Malformed),
        der_small::Error::OidUnknown { oid: _ } => file_refusal(file, FileError::Malformed),
    }
}

fn private_refusal(entry: usize, error: pkcs8::Error) -> PackError
    ensures { result ≡ private_refusal entry error }
{
    match error {
        pkcs8::Error::Asn1(error) => der_refusal(KeyFile::Private(entry), error),
        pkcs8::Error::OutOfMemory => PackError::OutOfMemory,
        pkcs8::Error::KeyMalformed(_) => PackError::KeyFile {
            entry,
            cause: FileError::Malformed,
        },
        pkcs8::Error::ParametersMalformed => PackError::KeyFile {
            entry,
            cause: FileError::Malformed,
        },
        pkcs8::Error::PublicKey(_) => PackError::KeyFile {
            entry,
            cause: FileError::Malformed,
        },
    }
}

fn public_refusal(entry: usize, error: spki::Error) -> PackError
    ensures { result ≡ public_refusal entry error }
{
    match error {
        spki::Error::Asn1(error) => der_refusal(KeyFile::Public(entry), error),
        spki::Error::OutOfMemory => PackError::OutOfMemory,
        spki::Error::AlgorithmParametersMissing => PackError::PublicFile {
            entry,
            cause: FileError::Malformed,
        },
        spki::Error::KeyMalformed => PackError::PublicFile {
            entry,
            cause: FileError::Malformed,
        },
        spki::Error::OidUnknown { oid: _ } => PackError::PublicFile {
            entry,
            cause: FileError::Malformed,
        },
    }
}

/// The private key of the entry with this number.
pub(crate) fn read_private_key<D: Disk>(
    alloc: Global,
    disk: &mut D,
    entry: usize,
    path: &str,
) -> Result<PrivateKeyInfoOwned, PackError>
    ensures { Tries plain_private_key (λ files. OrFault (RefusedAs (PackError.KeyFile entry) (ReadsPrivateKeyFile (file_at path.now files))))
        (D.files disk.old) (D.files disk.new) (D.faults disk.old) (D.faults disk.new) result }
{
    match PrivateKeyInfoOwned::read_pkcs8_der_file(alloc, disk, path) {
        Ok(key) => Ok(key),
        Err(error) => Err(private_refusal(entry, error)),
    }
}

/// The public key in the file of the entry with this number.
pub(crate) fn read_public_key<D: Disk>(
    alloc: Global,
    disk: &mut D,
    entry: usize,
    path: &str,
) -> Result<SubjectPublicKeyInfoOwned, PackError>
    ensures { Tries plain_public_key (λ files. OrFault (RefusedAs (PackError.PublicFile entry) (ReadsPublicKeyFile (file_at path.now files))))
        (D.files disk.old) (D.files disk.new) (D.faults disk.old) (D.faults disk.new) result }
{
    match SubjectPublicKeyInfoOwned::read_public_key_der_file(alloc, disk, path) {
        Ok(key) => Ok(key),
        Err(error) => Err(public_refusal(entry, error)),
    }
}

/// The bytes of a file, with what is answered where there is none of this path and where it is too long.
pub(crate) fn read_whole<D: Disk>(
    alloc: Global,
    disk: &mut D,
    path: &str,
    missing: PackError,
    too_long: PackError,
) -> Result<Vec<u8>, PackError>
    requires missing { missing ≢ PackError.Fault }
    requires too_long { too_long ≢ PackError.Fault }
    ensures { Tries (λ v. v.items) (λ files. OrFault (Is (whole_file missing too_long (file_at path.now files)))) (D.files disk.old) (D.files disk.new)
        (D.faults disk.old) (D.faults disk.new) result }
{
    match disk.read_file(alloc, path) {
        Ok(bytes) => Ok(bytes),
        Err(DiskError::Missing) => Err(missing),
        Err(DiskError::TooLong) => Err(too_long),
        Err(DiskError::Failed) => Err(PackError::Fault),
        Err(DiskError::OutOfMemory) => Err(PackError::OutOfMemory),
    }
}
