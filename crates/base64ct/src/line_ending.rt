//! What parts two lines (RFC 7468 section 3, `eol`).
#![tactic(auto)]

ghost use Rattle.std.specs.Prelude.{◌≡◌, length};
ghost use Rattle.base64ct.specs.Wrapping.{ending_bytes};
ghost use Rattle.base64ct.specs.declared.line_ending.LineEnding.TheVariants.{LF};

/// What parts two lines of a text (RFC 7468 section 3, `eol`).
#[derive(Clone, Copy, Debug, PartialEq, Eq, PartialOrd, Ord)]
pub enum LineEnding {
    /// Carriage return: `\r`.
    CR,

    /// Line feed: `\n`.
    LF,

    /// Carriage return and line feed: `\r\n`.
    CRLF,
}

/// A line feed, on every machine.
impl Default for LineEnding {
    ghost is_default = { λ ending. ending ≡ LF };

    fn default() -> LineEnding {
        Self::LF
    }
}

impl LineEnding {
    /// The ending as it is written.
    pub fn as_bytes(self) -> &'static [u8]
        ensures { result.now ≡ ending_bytes self }
    {
        match self {
            LineEnding::CR => b"\r",
            LineEnding::LF => b"\n",
            LineEnding::CRLF => b"\r\n",
        }
    }

    /// How many bytes the ending has.
    pub fn len(self) -> usize
        ensures { result ≡ length (ending_bytes self) }
    {
        self.as_bytes().len()
    }
}
