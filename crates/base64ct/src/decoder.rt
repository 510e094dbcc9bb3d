//! Decoding of texts in lines.
#![tactic(auto)]

ghost use Rattle.std.specs.Prelude.{◌≡◌, ℕ, ◌≤◌, ◌<◌, ◌+◌, ◌-◌, ◌*◌, ◌^◌, ◌++◌, ◌⊎◌, ◌↔◌, ⊤, MatchResult, map, length, vec_len, take, Some, min, None};
ghost use Rattle.std.specs.Prelude.{Contains, Ok, OnOk, OnErr, IfOk, IfErr, IsOk, IsOkAnd, [], List, true, false};
ghost use Rattle.std.specs.Io.{ReadsAtMost};
ghost use Rattle.std.specs.Borrow.{sem};
ghost use Rattle.std.specs.Io.BufRead.{Rests};
ghost use Rattle.std.specs.Io.KnownBytes.{Consumes, ReadConsumes};
ghost use Rattle.std.specs.IoError.{error_kind};
ghost use Rattle.std.specs.declared.io.ErrorKind.TheVariants.{InvalidData};
ghost use Rattle.base64_text.specs.Canonical.{IsBytes};
ghost use Rattle.base64_text.specs.LastBlock.{HasCanonicalEnd};
ghost use Rattle.base64ct.specs.Lines.{has_endings, joined, trimmed, IsWrappedText};
ghost use Rattle.base64ct.specs.Rows.{vector_row};
ghost use Rattle.base64ct.specs.Items.{items, IsWrapped, IsNewError, IsWrapError, IsAppendError, IsTakeError, known_bytes};

use crate::left::{Left, begin, take_items};
use crate::lines::{ends_in_break, trim_break};
use crate::wrapping::MIN_LINE_WIDTH;
use base64_text::{Encoding, Error, known};
use std::alloc::AllocError;
use std::io;
use std::marker::{Model, PhantomData};

/// Decodes a text (RFC 4648 section 4), or one in lines such as the body of a PEM document (RFC 7468 section 2),
/// piece by piece. It borrows the text, and is seen as the list of what is left: for each byte to come its value,
/// or `None` where its block of four characters has one that isn't in the table.
#[derive(Drop)]
pub struct Decoder<'i, E: Encoding> {
    left: Left<'i>,
    remaining: usize,
    encoding: PhantomData<E>,
}

impl<'i, E: Encoding> Model for Decoder<'i, E> {
    ghost use Rattle.std.specs.Prelude.{List, Option, ℕ, ◌≡◌, length};
    ghost use Rattle.base64ct.specs.Walk.{IsLeft, items_left};

    ghost Value = { List (Option ℕ) };

    ghost view = { λ d. items_left E.form.end E.form.table d.left };

    ghost invariant = { λ d. (d.remaining ≡ length (items_left E.form.end E.form.table d.left)) × IsLeft d.left };
}

impl<'i, E: Encoding> Decoder<'i, E> {
    /// A decoder of a text without lines, of which a final CR, LF or CRLF is dropped. The last block is checked
    /// here, the others when they are decoded.
    ///
    /// `InvalidLength` tells that nothing remains; `InvalidEncoding` that the last block is no canonical
    /// encoding.
    pub fn new(input: &'i [u8]) -> Result<Self, Error>
        ensures items { IfOk result (λ d. d ≡ items E.form (trimmed input.now)) }
        ensures accepted { IfOk result (λ _. HasCanonicalEnd E.form (trimmed input.now)) }
        ensures some { IfOk result (λ _. 0 < length (trimmed input.now)) }
        ensures err { IfErr result (IsNewError E.form (trimmed input.now)) }
    {
        let text = trim_break(input);
        if text.is_empty() {
            return Err(Error::InvalidLength);
        }
        Self::start(text, text.len().max(MIN_LINE_WIDTH))
    }

    /// A decoder of a text in lines of `line_width` characters, of which the last may be shorter, parted by
    /// CR, LF or CRLF. The last block is checked here, the others when they are decoded.
    ///
    /// `InvalidLength` tells that the width is below 4 or the text empty; `InvalidEncoding` that a line has
    /// another length, that an ending follows the last line, or that the last block is no canonical encoding.
    pub fn new_wrapped(input: &'i [u8], line_width: usize) -> Result<Self, Error>
        ensures items { IfOk result (λ d. d ≡ items E.form (joined line_width input.now)) }
        ensures accepted { IfOk result (λ _. IsWrapped E.form line_width input.now) }
        ensures wide { IfOk result (λ _. 4 ≤ line_width) }
        ensures some { IfOk result (λ _. 0 < length input.now) }

        // The decoder gives the bytes b exactly where the text is lines of their encoding.
        ensures bytes { (b : List ℕ) → 4 ≤ line_width → IsWrappedText E.form line_width input.now b
            → IsOkAnd result (λ d. d ≡ map Some b) }
        ensures text { IfOk result (λ d. (b : List ℕ) → IsBytes b → d ≡ map Some b
            → IsWrappedText E.form line_width input.now b) }

        ensures err { IfErr result (IsWrapError E.form line_width input.now) }
        ensures no_bytes { result ≡ Err Error.InvalidEncoding
            → (b : List ℕ) → IsWrappedText E.form line_width input.now b → ⊥ }
    {
        if line_width < MIN_LINE_WIDTH {
            return Err(Error::InvalidLength);
        }
        if input.is_empty() {
            return Err(Error::InvalidLength);
        }
        if ends_in_break(input) {
            return Err(Error::InvalidEncoding);
        }
        Self::start(input, line_width)
    }

    fn start(text: &'i [u8], width: usize) -> Result<Self, Error>
        requires width { 4 ≤ width }
        requires some { 0 < length text.now }
        ensures items { IfOk result (λ d. d ≡ items E.form (joined width text.now)) }
        ensures endings { IfOk result (λ _. has_endings width text.now ≡ true) }
        ensures canonical { IfOk result (λ _. HasCanonicalEnd E.form (joined width text.now)) }
        ensures err { IfErr result (λ error. (error ≡ Error.InvalidEncoding) × (has_endings width text.now ≡ true
            → HasCanonicalEnd E.form (joined width text.now) → ⊥)) }
    {
        match begin::<E>(text, width) {
            Ok((left, remaining)) => Ok(Decoder {
                left,
                remaining,
                encoding: PhantomData,
            }),
            Err(error) => Err(error),
        }
    }

    /// How many bytes are still to come.
    pub fn remaining_len(&self) -> usize
        ensures { result ≡ length self.now }
    {
        self.remaining
    }

    /// Whether no byte is still to come.
    pub fn is_finished(&self) -> bool
        ensures { (result ≡ true) ↔ (self.now ≡ []) }
    {
        self.remaining == 0
    }

    /// Decodes the next bytes, as many as the output has. `InvalidLength` tells that fewer are left,
    /// `InvalidEncoding` that a block that they need is bad.
    pub fn decode<'o>(&mut self, out: &'o mut [u8]) -> Result<&'o [u8], Error>
        ensures bytes { IfOk result (λ bytes. self.old ≡ map Some bytes.now ++ self.new) }
        ensures filled { IfOk result (λ bytes. length bytes.now ≡ length out.old) }
        ensures err { IfErr result (IsTakeError self.old (length out.old)) }
        ensures same { OnErr result (self.new ≡ self.old) }
    {
        match self.fill(out) {
            Ok(()) => Ok(out),
            Err(error) => Err(error),
        }
    }

    // `decode`, with what the output ends as.
    fn fill(&mut self, out: &mut [u8]) -> Result<(), Error>
        ensures items { OnOk result (self.old ≡ map Some out.new ++ self.new) }
        ensures bytes { OnOk result (IsBytes out.new) }
        ensures err { IfErr result (IsTakeError self.old (length out.old)) }
        ensures same { OnErr result (self.new ≡ self.old) }
    {
        if self.remaining < out.len() {
            return Err(Error::InvalidLength);
        }
        let Some(left) = take_items::<E>(self.left, out) else {
            return Err(Error::InvalidEncoding);
        };
        known(out);
        self.left = left;
        self.remaining -= out.len();
        Ok(())
    }

    /// Appends all that is left, and answers how many bytes it appended. After a refusal the decoder and the
    /// vector are as they were: `InvalidLength` tells that the vector would exceed `usize`, `InvalidEncoding` that a
    /// block is bad.
    pub fn append_to(&mut self, buf: &mut Vec<u8>) -> Result<usize, Error>
        ensures bytes { OnOk result ((b : List ℕ) × IsBytes b × (self.old ≡ map Some b) × (buf.new.items ≡ buf.old.items ++ b)) }
        ensures count { IfOk result (λ n. n ≡ length self.old) }
        ensures none_left { OnOk result (self.new ≡ []) }
        ensures err { IfErr result (IsAppendError self.old (vec_len buf.old)) }
        ensures no_bytes { result ≡ Err Error.InvalidEncoding → (b : List ℕ) → self.old ≡ map Some b → ⊥ }
        ensures same { OnErr result (self.new ≡ self.old) }
        ensures same_bytes { OnErr result (buf.new.items ≡ buf.old.items) }
    {
        let start = buf.len();
        let count = self.remaining;
        let Some(end) = start.checked_add(count) else {
            return Err(Error::InvalidLength);
        };
        buf.resize(end, 0)?;
        match self.fill(&mut buf[start..]) {
            Ok(()) => Ok(count),
            Err(error) => {
                buf.truncate(start);
                Err(error)
            }
        }
    }

    /// `append_to`, which answers the appended part, and errs where it does. A caller that wants the vector too
    /// takes `append_to`.
    pub fn decode_to_end<'o>(&mut self, buf: &'o mut Vec<u8>) -> Result<&'o [u8], Error>
        ensures bytes { IfOk result (λ bytes. self.old ≡ map Some bytes.now) }
        ensures none_left { OnOk result (self.new ≡ []) }
        ensures err { IfErr result (IsAppendError self.old (vec_len buf.old)) }
        ensures no_bytes { result ≡ Err Error.InvalidEncoding → (b : List ℕ) → self.old ≡ map Some b → ⊥ }
        ensures same { OnErr result (self.new ≡ self.old) }
    {
        append_all(buf, self)
    }
}

// `decode_to_end`, with the vector first: the kit proves what a lender ends as for a first argument alone.
fn append_all<'o, E: Encoding>(
    buf: &'o mut Vec<u8>,
    decoder: &mut Decoder<'_, E>,
) -> Result<&'o [u8], Error>
    ensures bytes { IfOk result (λ bytes. decoder.old ≡ map Some bytes.now) }
    ensures* vector { sem 𝓛 (Rests vector_row buf.entry (λ last. MatchResult result
        (λ bytes. last.items ≡ buf.old.items ++ bytes.now) (λ _. last.items ≡ buf.old.items))) }
    ensures none_left { OnOk result (decoder.new ≡ []) }
    ensures err { IfErr result (IsAppendError decoder.old (vec_len buf.old)) }
    ensures no_bytes { result ≡ Err Error.InvalidEncoding → (b : List ℕ) → decoder.old ≡ map Some b → ⊥ }
    ensures same { OnErr result (decoder.new ≡ decoder.old) }
{
    let start = buf.len();
    decoder.append_to(buf)?;
    Ok(&buf[start..])
}

/// A clone has the same bytes left, and stands at the same place. It takes no memory, and is never refused.
impl<'i, E: Encoding> Clone for Decoder<'i, E> {
    ghost is_clone = { λ d e. e ≡ d };

    ghost is_infallible = { λ _. ⊤ };

    fn clone(&self) -> Result<Self, AllocError> {
        Ok(Decoder {
            left: self.left,
            remaining: self.remaining,
            encoding: PhantomData,
        })
    }
}

/// A refusal has the kind `InvalidData`, and changes nothing: it tells that a block that the bytes need is bad, or
/// of `read_exact` that fewer are left.
impl<'i, E: Encoding> io::Read for Decoder<'i, E> {
    ghost remaining = { known_bytes };

    fn read(&mut self, buf: &mut [u8]) -> io::Result<usize>
        ensures bound { ReadsAtMost result buf.new }
        ensures bytes { ReadConsumes (known_bytes self.old) (known_bytes self.new) result buf.new }
        ensures count { IfOk result (λ n. n ≡ min (length buf.old) (length self.old)) }
        ensures items { IfOk result (λ n. self.old ≡ map Some (take n buf.new) ++ self.new) }
        ensures kind { IfErr result (λ e. error_kind e ≡ InvalidData) }
        ensures err { OnErr result (Contains (take (length buf.old) self.old) None) }
        ensures same { OnErr result (self.new ≡ self.old) }
    {
        let n = buf.len().min(self.remaining);
        self.fill(&mut buf[..n])?;
        Ok(n)
    }

    fn read_exact(&mut self, buf: &mut [u8]) -> io::Result<()>
        ensures bytes { OnOk result (Consumes (known_bytes self.old) (known_bytes self.new) buf.new) }
        ensures items { OnOk result (self.old ≡ map Some buf.new ++ self.new) }
        ensures kind { IfErr result (λ e. error_kind e ≡ InvalidData) }
        ensures err { OnErr result ((length self.old < length buf.old) ⊎ Contains (take (length buf.old) self.old) None) }
        ensures same { OnErr result (self.new ≡ self.old) }
    {
        self.fill(buf)?;
        Ok(())
    }
}
