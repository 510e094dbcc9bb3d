//! Lines of one width and one ending.
#![tactic(auto)]

ghost use Rattle.std.specs.Prelude.{◌≡◌, ℕ, ◌+◌, ◌-◌, ◌*◌, ◌<◌, ◌≤◌, ◌^◌, ◌++◌, ◌↔◌, List, length, take, drop, IsSome, IfSome};
ghost use Rattle.base64ct.specs.Wrapping.{wrapped, wrapped_len as len_of, ending_bytes};
ghost use Rattle.base64ct.specs.LineWrapper.{wrapped_from, left_from};

use crate::line_ending::LineEnding;

/// The least width of a line.
pub(crate) const MIN_LINE_WIDTH: usize = 4;

/// The length of so many characters in lines, of which none exceeds `width`: the room that an encoder needs.
/// `None` tells that it exceeds `usize`.
pub fn wrapped_len(width: usize, ending: LineEnding, characters: usize) -> Option<usize>
    requires { 1 ≤ width }
    ensures len { IfSome result (λ n. n ≡ len_of width ending characters) }
    ensures fits { IsSome result ↔ (len_of width ending characters < 2 ^ 64) }
    ensures text { (text : List ℕ) → length text ≡ characters → length (wrapped width ending text) ≡ len_of width ending characters }
{
    let endings = characters.saturating_sub(1) / width;
    endings.checked_mul(ending.len())?.checked_add(characters)
}

/// How an encoder cuts lines, and how many characters the line may still take.
#[derive(Clone, Copy, Debug)]
pub(crate) struct LineWrapper {
    pub width: usize,
    pub ending: LineEnding,
    pub left: usize,
}

/// Parts the characters behind `from` into lines, which it moves to `at`, and answers how many characters the
/// last line may still take.
pub(crate) fn part_lines(out: &mut [u8], from: usize, at: usize, lines: LineWrapper) -> usize
    requires width { 1 ≤ lines.width }
    requires from { from ≤ length out.old }
    requires room { at + length (wrapped_from lines.width (ending_bytes lines.ending) lines.left (drop from out.old)) ≡ length out.old }
    ensures before { take at out.new ≡ take at out.old }
    ensures lines { drop at out.new ≡ wrapped_from lines.width (ending_bytes lines.ending) lines.left (drop from out.old) }
    ensures left { result ≡ left_from lines.width lines.left (drop from out.old) }
{
    let mut read = from;
    let mut written = at;
    let mut left = lines.left;
    while read < out.len() {
        if left == 0 {
            put(out, written, lines.ending.as_bytes(), read);
            written += lines.ending.len();
            left = lines.width;
        }
        let run = left.min(out.len() - read);
        move_down(out, read, written, run);
        read += run;
        written += run;
        left -= run;
    }
    left
}

// Writes bytes at a place below `kept`.
fn put(out: &mut [u8], at: usize, bytes: &[u8], kept: usize)
    requires low { at + length bytes.now ≤ kept }
    requires high { kept ≤ length out.old }
    ensures front { take (at + length bytes.now) out.new ≡ take at out.old ++ bytes.now }
    ensures back { drop kept out.new ≡ drop kept out.old }
{
    out[at..at + bytes.len()].copy_from_slice(bytes);
}

// Moves a run of bytes to a place that isn't above it.
fn move_down(out: &mut [u8], from: usize, to: usize, run: usize)
    requires down { to ≤ from }
    requires run { from + run ≤ length out.old }
    ensures front { take (to + run) out.new ≡ take to out.old ++ take run (drop from out.old) }
    ensures back { drop (from + run) out.new ≡ drop (from + run) out.old }
{
    out.copy_within(from..from + run, to);
}
