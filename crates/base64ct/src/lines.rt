//! Texts in lines.
#![tactic(auto)]

ghost use Rattle.std.specs.Prelude.{◌≡◌, ℕ, ◌-◌, ◌<◌, ◌≤◌, ◌∷◌, ◌++◌, List, [], length, take, drop, IfSome, IfNone, true, false};
ghost use Rattle.base64ct.specs.Lines.{after_ending, ends_in_ending, is_line_break, starts_with_ending, trimmed};
ghost use Rattle.base64ct.specs.Walk.{IsCut, IsReader, characters_left, has_endings_from};

/// Where the reading of a text in lines stands: what was not read, and how many characters the line may
/// still have.
#[derive(Clone, Copy, Debug)]
pub(crate) struct LineReader<'i> {
    pub text: &'i [u8],
    pub width: usize,
    pub left: usize,
}

/// A text of which full lines were cut off: how many characters they have, the last of them, and what
/// stands behind its ending.
#[derive(Clone, Copy, Debug)]
pub(crate) struct Cut<'i> {
    pub count: usize,
    pub line: &'i [u8],
    pub rest: &'i [u8],
}

/// Stands at the start of a line where one ended.
pub(crate) fn settled<'i>(reader: LineReader<'i>) -> LineReader<'i>
    requires { IsReader reader }
    ensures reader { IsReader result }
    ensures same { characters_left result ≡ characters_left reader.entry }
    ensures some { 0 < length (characters_left reader.entry) → (0 < result.left) × (0 < length result.text.now) }
{
    if reader.left > 0 {
        return reader;
    }
    match behind_break(reader.text) {
        Some(text) => LineReader {
            text,
            left: reader.width,
            ..reader
        },
        None => reader,
    }
}

/// Passes characters of the line that is begun.
pub(crate) fn passed<'i>(reader: LineReader<'i>, k: usize) -> LineReader<'i>
    requires reader { IsReader reader }
    requires line { k ≤ reader.left }
    requires text { k ≤ length reader.text.now }
    ensures reader { IsReader result }
    ensures characters { characters_left reader.entry ≡ take k reader.entry.text.now ++ characters_left result }
{
    LineReader {
        text: &reader.text[k..],
        left: reader.left - k,
        ..reader
    }
}

/// Reads a block of four characters, which may lie across two lines.
pub(crate) fn next_block<'i>(reader: LineReader<'i>) -> ([u8; 4], LineReader<'i>)
    requires reader { IsReader reader }
    requires four { 4 ≤ length (characters_left reader) }
    ensures reader { IsReader result.1 }
    ensures characters { characters_left reader.entry ≡ result.0 ++ characters_left result.1 }
    ensures long { length result.0 ≡ 4 }
{
    let (a, reader) = next_character(reader);
    let (b, reader) = next_character(reader);
    let (c, reader) = next_character(reader);
    let (d, reader) = next_character(reader);
    ([a, b, c, d], reader)
}

fn next_character<'i>(reader: LineReader<'i>) -> (u8, LineReader<'i>)
    requires reader { IsReader reader }
    requires some { 0 < length (characters_left reader) }
    ensures reader { IsReader result.1 }
    ensures characters { characters_left reader.entry ≡ result.0 ∷ characters_left result.1 }
{
    let reader = settled(reader);
    (reader.text[0], passed(reader, 1))
}

/// Cuts the full lines off a text, up to its last line. `None` tells that one has no ending.
pub(crate) fn cut_lines<'i>(text: &'i [u8], width: usize) -> Option<Cut<'i>>
    requires { 0 < width }
    ensures some { IfSome result (λ cut. IsCut width cut.count text.now cut.line.now cut.rest.now) }
    ensures last { IfSome result (λ cut. length cut.rest.now ≤ width) }
    ensures none { IfNone result (has_endings_from width width false text.now ≡ false) }
{
    let mut cut = Cut {
        count: 0,
        line: &text[..0],
        rest: text,
    };
    while width < cut.rest.len() {
        let (line, behind) = cut.rest.split_at(width);
        let Some(rest) = behind_break(behind) else {
            return None;
        };
        let count = cut.count + width;
        cut = Cut { count, line, rest };
    }
    Some(cut)
}

/// What stands behind the CR, LF or CRLF that a text starts with.
fn behind_break(text: &[u8]) -> Option<&[u8]>
    ensures some { IfSome result (λ rest. (starts_with_ending text.now ≡ true) × (rest.now ≡ after_ending text.now)) }
    ensures none { IfNone result (starts_with_ending text.now ≡ false) }
{
    match text {
        [b'\r', b'\n', rest @ ..] => Some(rest),
        [b'\r' | b'\n', rest @ ..] => Some(rest),
        _ => None,
    }
}

/// Whether a text ends in CR or LF.
pub(crate) fn ends_in_break(text: &[u8]) -> bool
    ensures { result ≡ ends_in_ending text.now }
{
    if text.is_empty() {
        return false;
    }
    is_break(text[text.len() - 1])
}

/// A text without the CR, LF or CRLF that it ends in.
pub(crate) fn trim_break(text: &[u8]) -> &[u8]
    ensures { result.now ≡ trimmed text.now }
{
    let n = text.len();
    if n > 1 && text[n - 2] == b'\r' && text[n - 1] == b'\n' {
        return &text[..n - 2];
    }
    if n > 0 && is_break(text[n - 1]) {
        return &text[..n - 1];
    }
    text
}

// CR or LF.
fn is_break(c: u8) -> bool
    ensures { result ≡ is_line_break c }
{
    c == b'\r' || c == b'\n'
}
