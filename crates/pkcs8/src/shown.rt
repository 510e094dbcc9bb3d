//! What `Debug` shows of a private key beside its version and its algorithm's identifier.
ghost use Rattle.std.specs.Prelude.{◌≡◌, ◌≤◌, ◌<◌, ◌+◌, ◌++◌, length};
ghost use Rattle.std.specs.Bool.{OnTrue, OnFalse};
ghost use Rattle.std.specs.Fmt.{debug_option};
ghost use Rattle.pkcs8.specs.Shown.{bits_debug, encoding_debug};

use crate::BitStringLike;
use arrayvec::ArrayVec;
use der_small::{BitStringRef, Encode, Result, Writer};
use std::fmt;

/// What is shown of an encoding: its bytes, or that it has more than 128.
#[derive(Drop)]
pub(crate) struct ShownEncoding {
    kept: ArrayVec<u8, 128>,
    is_long: bool,
}

/// Adds the bytes, where there is room.
fn keep(kept: &mut ArrayVec<u8, 128>, bytes: &[u8]) -> bool
    ensures kept { OnTrue result (kept.new.items ≡ kept.old.items ++ bytes.now) }
    ensures room { OnTrue result (length kept.new.items ≤ 128) }
    ensures full { OnFalse result (128 < length kept.old.items + length bytes.now) }
{
    kept.try_extend_from_slice(bytes).is_ok()
}

impl Writer for ShownEncoding {
    ghost use Rattle.pkcs8.specs.ShownEncoding.{ShowsBytes};

    ghost HasTold = { ShowsBytes };

    ghost refusals = { λ _. 0 };

    fn write(&mut self, slice: &[u8]) -> Result<()> {
        if self.is_long {
            return Ok(());
        }
        if !keep(&mut self.kept, slice) {
            self.is_long = true;
        }
        Ok(())
    }
}

impl fmt::Debug for ShownEncoding {
    ghost use Rattle.pkcs8.specs.ShownEncoding.{shown_debug};

    ghost debug_output = { shown_debug };

    fn fmt<W: fmt::Write>(&self, f: &mut fmt::Formatter<W>) -> fmt::Result {
        if self.is_long {
            return write!(f, "..");
        }
        let bytes = self.kept.as_slice();
        write!(f, "{bytes:?}")
    }
}

ghost use Rattle.pkcs8.specs.ShownEncoding.{shown_debug, shown_bits_debug};

/// What is shown of the value.
fn shown_encoding<T: Encode>(value: &T) -> ShownEncoding
    ensures { shown_debug result ≡ encoding_debug (T.encoding value.now) }
{
    let mut shown = ShownEncoding {
        kept: ArrayVec::new(),
        is_long: false,
    };
    match value.encode(&mut shown) {
        Ok(()) => shown,
        Err(_) => {
            shown.is_long = true;
            shown
        }
    }
}

/// What is shown of the parameters.
pub(crate) fn shown_parameters<Params: Encode>(parameters: &Option<Params>) -> Option<ShownEncoding>
    ensures { debug_option shown_debug result ≡ debug_option (λ p. encoding_debug (Params.encoding p)) parameters.now }
{
    match parameters {
        None => None,
        Some(parameters) => Some(shown_encoding(parameters)),
    }
}

/// What is shown of a bit string.
#[derive(Clone, Copy)]
pub(crate) struct ShownBits<'a> {
    bits: BitStringRef<'a>,
}

impl<'a> fmt::Debug for ShownBits<'a> {
    ghost use Rattle.pkcs8.specs.ShownEncoding.{shown_bits_debug};

    ghost debug_output = { shown_bits_debug };

    fn fmt<W: fmt::Write>(&self, f: &mut fmt::Formatter<W>) -> fmt::Result {
        let unused_bits = self.bits.unused_bits();
        let octets = self.bits.raw_bytes();
        write!(
            f,
            "BitString {{ unused_bits: {unused_bits}, octets: {octets:?} }}"
        )
    }
}

/// What is shown of the public key.
pub(crate) fn shown_public_key<PubKey: BitStringLike>(
    public_key: &Option<PubKey>,
) -> Option<ShownBits<'_>>
    ensures { debug_option shown_bits_debug result ≡ debug_option (λ k. bits_debug (PubKey.bits k)) public_key.now }
{
    match public_key {
        None => None,
        Some(public_key) => Some(ShownBits {
            bits: public_key.as_bit_string(),
        }),
    }
}
