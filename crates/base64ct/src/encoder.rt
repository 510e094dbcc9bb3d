//! Encoding piece by piece, in lines or not.
#![tactic(auto)]

ghost use Rattle.std.specs.Prelude.{◌≡◌, ℕ, ◌≤◌, ◌<◌, ◌+◌, ◌-◌, ◌*◌, ◌/◌, ◌%◌, ◌++◌, ◌⊎◌, ◌↔◌, List, [], length, take, drop, Some, None, IsOk, IfOk, IfErr};
ghost use Rattle.std.specs.Prelude.{OnOk, OnErr, IfSome, IfNone};
ghost use Rattle.std.specs.Io.{WritesAtMost};
ghost use Rattle.std.specs.Io.KnownBytes.{Keeps, WriteAppends};
ghost use Rattle.std.specs.IoError.{error_kind};
ghost use Rattle.std.specs.declared.io.ErrorKind.TheVariants.{InvalidData};
ghost use Rattle.base64_alphabet.specs.Encoding.{characters, encoding_of};
ghost use Rattle.base64_text.specs.Canonical.{IsBytes};
ghost use Rattle.base64_text.specs.Counts.{encoded_len};
ghost use Rattle.base64ct.specs.Encoder.{in_lines, in_lines_len, position_of, whole_groups};
ghost use Rattle.base64ct.specs.LineWrapper.{HasLines, IsWide, advanced, in_lines_from, lines_of};

use crate::line_ending::LineEnding;
use crate::wrapping::{LineWrapper, MIN_LINE_WIDTH, part_lines, wrapped_len};
use base64_text::{Encoding, Error, ascii_text, encode_front, known};
use std::io;
use std::marker::{Model, PhantomData};

/// Encodes bytes that come piece by piece to the front of an output, as one text (RFC 4648 section 4) or in lines
/// (RFC 7468 section 2). It is seen as what it took, the length of its output, the part of it behind its text,
/// which it hasn't changed, and the width and the ending of its lines.
#[derive(Drop)]
pub struct Encoder<'o, E: Encoding> {
    output: &'o mut [u8],
    filled: usize,
    count: usize,
    block: [u8; 3],
    wrapper: Option<LineWrapper>,
    encoding: PhantomData<E>,
}

impl<'o, E: Encoding> Model for Encoder<'o, E> {
    ghost use Rattle.std.specs.Prelude.{drop, length};
    ghost use Rattle.base64ct.specs.Encoder.{Progress};

    ghost Value = { Progress };

    ghost use Rattle.base64ct.specs.LineWrapper.{lines_of};
    ghost use Rattle.base64ct.specs.Written.{taken_of, IsWritten};

    ghost view = { λ e. record {
      taken = taken_of E.form.end E.form.table e.wrapper e.output.now e.filled e.count e.block;
      room = length e.output.now;
      behind = drop e.filled e.output.now;
      lines = lines_of e.wrapper;
    } };

    ghost invariant = { λ e. IsWritten E.form.end E.form.table e.wrapper e.output.now e.filled e.count };
}

impl<'o, E: Encoding> Encoder<'o, E> {
    /// An encoder that writes one text without lines. `InvalidLength` tells that the output is empty.
    pub fn new(output: &'o mut [u8]) -> Result<Self, Error>
        ensures ok { IfOk result (λ e. e ≡ record { taken = []; room = length output.entry.now; behind = output.entry.now; lines = None }) }
        ensures some { IfOk result (λ _. 0 < length output.entry.now) }
        ensures err { IfErr result (λ e. (e ≡ Error.InvalidLength) × (length output.entry.now ≡ 0)) }
    {
        Self::start(output, None)
    }

    /// An encoder that writes lines of `width` characters, of which the last may be shorter. No ending follows
    /// the last line. `InvalidLength` tells that the output is empty, or the width below 4.
    pub fn new_wrapped(
        output: &'o mut [u8],
        width: usize,
        ending: LineEnding,
    ) -> Result<Self, Error>
        ensures ok { IfOk result (λ e. e ≡ record { taken = []; room = length output.entry.now; behind = output.entry.now; lines = Some (width, ending) }) }
        ensures some { IfOk result (λ _. (4 ≤ width) × (0 < length output.entry.now)) }
        ensures err { IfErr result (λ e. (e ≡ Error.InvalidLength) × ((width < 4) ⊎ (length output.entry.now ≡ 0))) }
    {
        if width < MIN_LINE_WIDTH {
            return Err(Error::InvalidLength);
        }
        let left = width;
        Self::start(
            output,
            Some(LineWrapper {
                width,
                ending,
                left,
            }),
        )
    }

    /// Takes bytes. `InvalidLength` tells that the text of all whole groups of three bytes taken would exceed
    /// the output.
    pub fn encode(&mut self, input: &[u8]) -> Result<(), Error>
        ensures ok { OnOk result (self.new ≡ record self.old { taken = self.old.taken ++ input.now; behind = self.new.behind }) }
        ensures behind { OnOk result (self.new.behind ≡ drop (length (in_lines self.old.lines (encoding_of E.form
            (whole_groups (self.old.taken ++ input.now)))) - position_of E.form self.old) self.old.behind) }
        ensures fits { IsOk result ↔ (length (in_lines self.old.lines
            (encoding_of E.form (whole_groups (self.old.taken ++ input.now)))) ≤ self.old.room) }
        ensures err { IfErr result (λ e. e ≡ Error.InvalidLength) }
        ensures same { OnErr result (self.new ≡ self.old) }
    {
        let count = self.count + input.len();
        let Some(end) = end_within(self.wrapper, count / 3, 0, self.output.len()) else {
            return Err(Error::InvalidLength);
        };
        let from = end - 4 * (count / 3 - self.count / 3);
        let waiting = self.count % 3;
        encode_groups::<E>(&mut self.block, waiting, input, &mut self.output[from..end]);
        self.wrapper = settle(&mut self.output[..end], from, self.filled, self.wrapper);
        self.filled = end;
        self.count = count;
        Ok(())
    }

    /// The length of what was written: the text of all whole groups of three bytes taken.
    pub fn position(&self) -> usize
        ensures { result ≡ position_of E.form self.now }
    {
        self.filled
    }

    /// The text of all bytes taken. `InvalidLength` tells that it exceeds the output.
    pub fn finish(self) -> Result<&'o str, Error>
        ensures text { IfOk result (λ text. text.now ≡ in_lines self.entry.lines (encoding_of E.form self.entry.taken)) }
        ensures fits { IsOk result ↔ (length (in_lines self.entry.lines (encoding_of E.form self.entry.taken)) ≤ self.entry.room) }
        ensures err { IfErr result (λ e. e ≡ Error.InvalidLength) }
    {
        match self.finish_with_remaining() {
            Ok((text, _)) => Ok(text),
            Err(error) => Err(error),
        }
    }

    /// `finish`, with the part of the output behind the text. It errs where `finish` does.
    pub fn finish_with_remaining(self) -> Result<(&'o str, &'o mut [u8]), Error>
        ensures text { IfOk result (λ parts. parts.0.now ≡ in_lines self.entry.lines (encoding_of E.form self.entry.taken)) }
        ensures rest { IfOk result (λ parts. parts.1.now
            ≡ drop (length parts.0.now - position_of E.form self.entry) self.entry.behind) }
        ensures room { IfOk result (λ parts. length parts.0.now + length parts.1.now ≡ self.entry.room) }
        ensures fits { IsOk result ↔ (length (in_lines self.entry.lines (encoding_of E.form self.entry.taken)) ≤ self.entry.room) }
        ensures err { IfErr result (λ e. e ≡ Error.InvalidLength) }
    {
        let waiting = self.count % 3;
        let more = rest_len(E::PADDED, waiting);
        let room = self.output.len();
        let Some(end) = end_within(self.wrapper, self.count / 3, more, room) else {
            return Err(Error::InvalidLength);
        };
        let from = end - more;
        let output = self.output;
        let rest = &self.block[..waiting];
        known(rest);
        encode_front::<E>(rest, &mut output[from..end]);
        settle(&mut output[..end], from, self.filled, self.wrapper);
        let (text, remaining) = output.split_at_mut(end);
        Ok((ascii_text(text), remaining))
    }

    fn start(output: &'o mut [u8], wrapper: Option<LineWrapper>) -> Result<Self, Error>
        requires { HasLines wrapper [] }
        ensures ok { IfOk result (λ e. e ≡ record { taken = []; room = length output.entry.now; behind = output.entry.now; lines = lines_of wrapper }) }
        ensures some { IfOk result (λ _. 0 < length output.entry.now) }
        ensures err { IfErr result (λ e. (e ≡ Error.InvalidLength) × (length output.entry.now ≡ 0)) }
    {
        if output.is_empty() {
            return Err(Error::InvalidLength);
        }
        Ok(Encoder {
            output,
            filled: 0,
            count: 0,
            block: [0; 3],
            wrapper,
            encoding: PhantomData,
        })
    }
}

/// The bytes that it holds are those taken. A refusal has the kind `InvalidData`, and tells what `encode`'s does.
impl<'o, E: Encoding> io::Write for Encoder<'o, E> {
    ghost contents = { λ e. Some e.taken };

    fn write(&mut self, buf: &[u8]) -> io::Result<usize>
        ensures bound { WritesAtMost result buf.now }
        ensures bytes { WriteAppends (Some self.old.taken) (Some self.new.taken) result buf.now }
        ensures count { IfOk result (λ n. n ≡ length buf.now) }
        ensures ok { OnOk result (self.new ≡ record self.old { taken = self.old.taken ++ buf.now; behind = self.new.behind }) }
        ensures behind { OnOk result (self.new.behind ≡ drop (length (in_lines self.old.lines (encoding_of E.form
            (whole_groups (self.old.taken ++ buf.now)))) - position_of E.form self.old) self.old.behind) }
        ensures fits { IsOk result ↔ (length (in_lines self.old.lines
            (encoding_of E.form (whole_groups (self.old.taken ++ buf.now)))) ≤ self.old.room) }
        ensures err { IfErr result (λ e. error_kind e ≡ InvalidData) }
        ensures same { OnErr result (self.new ≡ self.old) }
    {
        self.encode(buf)?;
        Ok(buf.len())
    }

    fn flush(&mut self) -> io::Result<()>
        ensures bytes { Keeps (Some self.old.taken) (Some self.new.taken) }
        ensures same { self.new ≡ self.old }
        ensures ok { IsOk result }
    {
        Ok(())
    }
}

// Where a text of so many groups and characters ends, if it fits into the room.
fn end_within(
    wrapper: Option<LineWrapper>,
    groups: usize,
    more: usize,
    room: usize,
) -> Option<usize>
    requires { IsWide wrapper }
    ensures some { IfSome result (λ end. (end ≡ in_lines_len (lines_of wrapper) (4 * groups + more)) × (end ≤ room)) }
    ensures none { IfNone result (room < in_lines_len (lines_of wrapper) (4 * groups + more)) }
{
    let characters = groups.checked_mul(4)?.checked_add(more)?;
    let end = match wrapper {
        None => characters,
        Some(lines) => wrapped_len(lines.width, lines.ending, characters)?,
    };
    if end <= room { Some(end) } else { None }
}

// How many characters a rest of a group takes.
fn rest_len(padded: bool, waiting: usize) -> usize
    requires { waiting < 3 }
    ensures { result ≡ encoded_len padded waiting }
{
    if padded {
        (waiting + 2) / 3 * 4
    } else {
        (4 * waiting + 2) / 3
    }
}

// Writes the characters of the whole groups of what waits and the input, and keeps the rest in the block.
fn encode_groups<E: Encoding>(block: &mut [u8; 3], waiting: usize, input: &[u8], out: &mut [u8])
    requires waiting { waiting < 3 }
    requires room { length out.old ≡ 4 * ((waiting + length input.now) / 3) }
    ensures text { out.new ≡ characters E.form.end E.form.table (whole_groups (take waiting block.old ++ input.now)) }
    ensures rest { take ((waiting + length input.now) % 3) block.new
        ≡ drop (3 * ((waiting + length input.now) / 3)) (take waiting block.old ++ input.now) }
    ensures bytes { IsBytes (take waiting block.old ++ input.now) }
{
    let missing = 3 - waiting;
    if input.len() < missing {
        block[waiting..waiting + input.len()].copy_from_slice(input);
        return;
    }
    let (head, rest) = input.split_at(missing);
    block[waiting..].copy_from_slice(head);
    let (groups, last) = rest.split_at(3 * (rest.len() / 3));
    encode_front::<E>(&block[..], &mut out[..4]);
    encode_front::<E>(groups, &mut out[4..]);
    block[..last.len()].copy_from_slice(last);
}

// Parts the characters behind `from` into lines, which it moves to `at`.
fn settle(
    out: &mut [u8],
    from: usize,
    at: usize,
    wrapper: Option<LineWrapper>,
) -> Option<LineWrapper>
    requires wide { IsWide wrapper }
    requires from { from ≤ length out.old }
    requires room { at + length (in_lines_from wrapper (drop from out.old)) ≡ length out.old }
    ensures text { out.new ≡ take at out.old ++ in_lines_from wrapper (drop from out.old) }
    ensures next { result ≡ advanced wrapper (drop from out.old) }
{
    match wrapper {
        None => None,
        Some(lines) => {
            let left = part_lines(out, from, at, lines);
            Some(LineWrapper { left, ..lines })
        }
    }
}
