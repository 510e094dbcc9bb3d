//! Blanks between the parts of a JSON text.
ghost use Rattle.std.specs.Prelude.{◌≡◌, ◌<◌, ◌≤◌, ◌==◌, length, option_map, IfSome};
ghost use Rattle.spiffe_token.specs.Strings.{is_blank, skip_blanks, kept_len, strip};

pub(crate) fn is_blank(byte: u8) -> bool
    ensures { result ≡ is_blank byte }
{
    matches!(byte, b' ' | b'\t' | b'\n' | b'\r')
}

pub(crate) fn skip_blanks(bytes: &[u8]) -> &[u8]
    ensures value { result.now ≡ skip_blanks bytes.now }
    ensures len { length result.now ≤ length bytes.now }
{
    let mut rest = bytes;
    'blanks: while let [first, more @ ..] = rest {
        if !is_blank(*first) {
            return rest;
        }
        rest = more;
    }
    rest
}

// Whether nothing but blanks is left.
pub(crate) fn is_at_end(bytes: &[u8]) -> bool
    ensures { result ≡ (length (skip_blanks bytes.now) == 0) }
{
    skip_blanks(bytes).is_empty()
}

// The length without the blanks at the end.
pub(crate) fn kept_len(bytes: &[u8]) -> usize
    ensures kept { result ≡ kept_len bytes.now }
    ensures within { result ≤ length bytes.now }
{
    let mut kept = 0;
    for (i, b) in bytes.iter().enumerate() {
        if !is_blank(*b) {
            kept = i + 1;
        }
    }
    kept
}

pub(crate) fn strip(bytes: &[u8], byte: u8) -> Option<&[u8]>
    ensures value { option_map (λ r. r.now) result ≡ strip byte bytes.now }
    ensures shorter { IfSome result (λ r. length r.now < length bytes.now) }
{
    match bytes {
        [first, rest @ ..] if *first == byte => Some(rest),
        _ => None,
    }
}
