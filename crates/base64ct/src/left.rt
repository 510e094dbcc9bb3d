//! What a decoder has left: bytes of a block that was read, whole blocks, and the bytes of the last block.
#![tactic(auto)]

ghost use Rattle.std.specs.Prelude.{◌≡◌, ℕ, ◌+◌, ◌-◌, ◌*◌, ◌<◌, ◌≤◌, ◌++◌, List, [], length, take, drop, map, Option, Some, None, Contains, IfSome, IfNone};
ghost use Rattle.std.specs.Prelude.{IfOk, IfErr, true};
ghost use Rattle.base64_alphabet.specs.Encoding.{bytes_of_blocks};
ghost use Rattle.base64_alphabet.specs.Table.{all_in};
ghost use Rattle.base64_text.specs.LastBlock.{HasCanonicalEnd};
ghost use Rattle.base64ct.specs.Items.{items};
ghost use Rattle.base64ct.specs.Lines.{has_endings, joined};
ghost use Rattle.base64ct.specs.Walk.{IsCut, IsFew, IsLeft, IsReader, characters_left, few_bytes, items_left};

use crate::lines::{Cut, LineReader, cut_lines, next_block, passed, settled};
use base64_alphabet::Alphabet;
use base64_text::{Error, decode_front, decode_last};

/// A few bytes that are still to be given: those of `bytes` from `start` to `end`.
#[derive(Clone, Copy, Debug)]
pub(crate) struct Few {
    pub bytes: [u8; 3],
    pub start: usize,
    pub end: usize,
}

/// What a decoder has left. The last block was decoded when the text was checked.
#[derive(Clone, Copy, Debug)]
pub(crate) struct Left<'i> {
    pub reader: LineReader<'i>,
    pub blocks: usize,
    pub pending: Few,
    pub last: Few,
}

/// Begins with a text in lines, of which each but the last must have its ending and the last block be
/// canonical. Answers with it how many bytes it has.
pub(crate) fn begin<'i, E: Alphabet>(
    text: &'i [u8],
    width: usize,
) -> Result<(Left<'i>, usize), Error>
    requires width { 4 ≤ width }
    requires some { 0 < length text.now }
    ensures left { IfOk result (λ begun. IsLeft begun.0) }
    ensures items { IfOk result (λ begun. items_left E.form.end E.form.table begun.0 ≡ items E.form (joined width text.now)) }
    ensures len { IfOk result (λ begun. begun.1 ≡ length (items_left E.form.end E.form.table begun.0)) }
    ensures endings { IfOk result (λ _. has_endings width text.now ≡ true) }
    ensures canonical { IfOk result (λ _. HasCanonicalEnd E.form (joined width text.now)) }
    ensures error { IfErr result (λ error. error ≡ Error.InvalidEncoding) }
    ensures err { IfErr result (λ _. has_endings width text.now ≡ true → HasCanonicalEnd E.form (joined width text.now) → ⊥) }
{
    let Some(cut) = cut_lines(text, width) else {
        return Err(Error::InvalidEncoding);
    };
    let count = cut.count + cut.rest.len();
    let blocks = (count - 1) / 4;
    let len = count - 4 * blocks;
    let block = last_block(cut.line, cut.rest, len);
    let mut bytes = [0u8; 3];
    let Some(end) = decode_last::<E>(&block[..len], &mut bytes) else {
        return Err(Error::InvalidEncoding);
    };
    let left = Left {
        reader: LineReader {
            text,
            width,
            left: width,
        },
        blocks,
        pending: no_bytes(),
        last: Few {
            bytes,
            start: 0,
            end,
        },
    };
    Ok((left, 3 * blocks + end))
}

// The last characters of a line and what follows it, joined.
fn last_block(line: &[u8], rest: &[u8], len: usize) -> [u8; 4]
    requires most { len ≤ 4 }
    requires within { len ≤ length line.now + length rest.now }
    ensures block { take len result ≡ drop (length line.now + length rest.now - len) (line.now ++ rest.now) }
    ensures long { length result ≡ 4 }
{
    let mut block = [0u8; 4];
    let behind = rest.len().min(len);
    let before = len - behind;
    block[..before].copy_from_slice(&line[line.len() - before..]);
    block[before..len].copy_from_slice(&rest[rest.len() - behind..]);
    block
}

fn no_bytes() -> Few
    ensures few { IsFew result }
    ensures none { few_bytes result ≡ [] }
{
    Few {
        bytes: [0; 3],
        start: 0,
        end: 0,
    }
}

/// Fills an output with the next items. `None` tells that one of them is bad.
pub(crate) fn take_items<'i, E: Alphabet>(left: Left<'i>, out: &mut [u8]) -> Option<Left<'i>>
    requires left { IsLeft left }
    requires room { length out.old ≤ length (items_left E.form.end E.form.table left) }
    ensures left { IfSome result (λ next. IsLeft next) }
    ensures items { IfSome result (λ next. items_left E.form.end E.form.table left.entry ≡ map Some out.new ++ items_left E.form.end E.form.table next) }
    ensures bad { IfNone result (Contains (take (length out.old) (items_left E.form.end E.form.table left.entry)) None) }
{
    let (pending, n) = give(left.pending, out);
    let left = Left { pending, ..left };
    if n == out.len() {
        return Some(left);
    }
    take_blocks::<E>(left, &mut out[n..])
}

// `take_items` at the start of a block.
fn take_blocks<'i, E: Alphabet>(left: Left<'i>, out: &mut [u8]) -> Option<Left<'i>>
    requires left { IsLeft left }
    requires none { few_bytes left.pending ≡ [] }
    requires room { length out.old ≤ length (items_left E.form.end E.form.table left) }
    ensures left { IfSome result (λ next. IsLeft next) }
    ensures items { IfSome result (λ next. items_left E.form.end E.form.table left.entry ≡ map Some out.new ++ items_left E.form.end E.form.table next) }
    ensures bad { IfNone result (Contains (take (length out.old) (items_left E.form.end E.form.table left.entry)) None) }
{
    let whole = (out.len() / 3).min(left.blocks);
    let (reader, good) = read_blocks::<E>(left.reader, whole, &mut out[..3 * whole]);
    if !good {
        return None;
    }
    let left = Left {
        reader,
        blocks: left.blocks - whole,
        ..left
    };
    if 3 * whole == out.len() {
        return Some(left);
    }
    take_part::<E>(left, &mut out[3 * whole..])
}

// `take_items` of no more than the next block has.
fn take_part<'i, E: Alphabet>(left: Left<'i>, out: &mut [u8]) -> Option<Left<'i>>
    requires left { IsLeft left }
    requires none { few_bytes left.pending ≡ [] }
    requires some { 0 < length out.old }
    requires few { 0 < left.blocks → length out.old < 3 }
    requires room { length out.old ≤ length (items_left E.form.end E.form.table left) }
    ensures left { IfSome result (λ next. IsLeft next) }
    ensures items { IfSome result (λ next. items_left E.form.end E.form.table left.entry ≡ map Some out.new ++ items_left E.form.end E.form.table next) }
    ensures bad { IfNone result (Contains (take (length out.old) (items_left E.form.end E.form.table left.entry)) None) }
{
    let left = next_few::<E>(left)?;
    let (pending, _) = give(left.pending, out);
    Some(Left { pending, ..left })
}

// Reads the next block, or the last one.
fn next_few<'i, E: Alphabet>(left: Left<'i>) -> Option<Left<'i>>
    requires left { IsLeft left }
    requires none { few_bytes left.pending ≡ [] }
    ensures left { IfSome result (λ next. IsLeft next) }
    ensures items { IfSome result (λ next. items_left E.form.end E.form.table next ≡ items_left E.form.end E.form.table left.entry) }
    ensures block { IfSome result (λ next. 0 < left.entry.blocks → length (few_bytes next.pending) ≡ 3) }
    ensures last { IfSome result (λ next. left.entry.blocks ≡ 0 → few_bytes next.pending ≡ few_bytes left.entry.last) }
    ensures bad { IfNone result (Contains (take 1 (items_left E.form.end E.form.table left.entry)) None) }
{
    if left.blocks == 0 {
        return Some(Left {
            pending: left.last,
            last: no_bytes(),
            ..left
        });
    }
    let (block, reader) = next_block(left.reader);
    let mut bytes = [0u8; 3];
    if !decode_front::<E>(&block, &mut bytes) {
        return None;
    }
    Some(Left {
        reader,
        blocks: left.blocks - 1,
        pending: Few {
            bytes,
            start: 0,
            end: 3,
        },
        ..left
    })
}

// Gives as many of a few bytes as an output takes.
fn give(few: Few, out: &mut [u8]) -> (Few, usize)
    requires { IsFew few }
    ensures few { IsFew result.0 }
    ensures within { (result.1 ≤ length out.old) × (result.1 ≤ length (few_bytes few)) }
    ensures given { take result.1 out.new ≡ take result.1 (few_bytes few) }
    ensures kept { few_bytes result.0 ≡ drop result.1 (few_bytes few) }
    ensures all { result.1 < length out.old → result.1 ≡ length (few_bytes few) }
    ensures none { result.1 < length out.old → few_bytes result.0 ≡ [] }
{
    let n = (few.end - few.start).min(out.len());
    out[..n].copy_from_slice(&few.bytes[few.start..few.start + n]);
    let few = Few {
        start: few.start + n,
        ..few
    };
    (few, n)
}

// Decodes whole blocks, and answers whether each of their characters is in the table. All are decoded in any
// case, so that the time doesn't tell where a bad character stands.
fn read_blocks<'i, E: Alphabet>(
    reader: LineReader<'i>,
    blocks: usize,
    out: &mut [u8],
) -> (LineReader<'i>, bool)
    requires reader { IsReader reader }
    requires enough { 4 * blocks ≤ length (characters_left reader) }
    requires room { length out.old ≡ 3 * blocks }
    ensures reader { IsReader result.0 }
    ensures characters { characters_left result.0 ≡ drop (4 * blocks) (characters_left reader.entry) }
    ensures answer { result.1 ≡ all_in E.form.table (take (4 * blocks) (characters_left reader.entry)) }
    ensures written { result.1 ≡ true → out.new ≡ bytes_of_blocks E.form.end E.form.table (take (4 * blocks) (characters_left reader.entry)) }
{
    let mut at = reader;
    let mut done = 0;
    let mut good = true;
    while done < blocks {
        let (next, count, all) = read_run::<E>(at, blocks - done, &mut out[3 * done..]);
        at = next;
        done += count;
        good &= all;
    }
    (at, good)
}

// Decodes the whole blocks of the line that is begun, or one block that lies across two lines.
fn read_run<'i, E: Alphabet>(
    reader: LineReader<'i>,
    most: usize,
    out: &mut [u8],
) -> (LineReader<'i>, usize, bool)
    requires reader { IsReader reader }
    requires some { 0 < most }
    requires enough { 4 * most ≤ length (characters_left reader) }
    requires room { 3 * most ≤ length out.old }
    ensures reader { IsReader result.0 }
    ensures count { (0 < result.1) × (result.1 ≤ most) }
    ensures characters { characters_left result.0 ≡ drop (4 * result.1) (characters_left reader.entry) }
    ensures answer { result.2 ≡ all_in E.form.table (take (4 * result.1) (characters_left reader.entry)) }
    ensures written { result.2 ≡ true → take (3 * result.1) out.new
        ≡ bytes_of_blocks E.form.end E.form.table (take (4 * result.1) (characters_left reader.entry)) }
{
    let reader = settled(reader);
    let run = (reader.left.min(reader.text.len()) / 4).min(most);
    if run == 0 {
        let (block, next) = next_block(reader);
        let good = decode_front::<E>(&block, out);
        return (next, 1, good);
    }
    let good = decode_front::<E>(&reader.text[..4 * run], out);
    (passed(reader, 4 * run), run, good)
}
