//! Laws of texts in lines, each as the contract of a function.
#![tactic(auto)]

ghost use Rattle.std.specs.Prelude.{◌≡◌, ◌<◌, List, ℕ, length};
ghost use Rattle.base64_alphabet.specs.Encoding.{encoding_of};
ghost use Rattle.base64_text.specs.Canonical.{IsBytes};
ghost use Rattle.base64ct.specs.Lines.{IsLine, IsWrappedText, Lines};
ghost use Rattle.base64ct.specs.Wrapping.{wrapped};
ghost use Rattle.base64ct.specs.declared.line_ending.LineEnding.{LineEnding};

use base64_alphabet::Alphabet;

/// The lines of a text have one join, so the relation of lines may be used as a function.
pub fn lines_have_one_join()
    ensures { (width : ℕ) (text t u : List ℕ) → 0 < width → Lines width text t → Lines width text u → t ≡ u }
{}

/// A text in lines writes one list of bytes.
pub fn text_has_one_value<E: Alphabet>()
    ensures { (width : ℕ) (text a b : List ℕ) → 0 < width → IsWrappedText E.form width text a
        → IsWrappedText E.form width text b → a ≡ b }
{}

/// A text that is cut into lines joins to that text again.
pub fn wrapped_text_is_lines()
    ensures { (width : ℕ) (ending : LineEnding) (t : List ℕ) → 0 < width → 0 < length t → IsLine t
        → Lines width (wrapped width ending t) t }
{}

/// At one width and with one ending, texts are equal where their lines are.
pub fn wrapping_is_injective()
    ensures { (width : ℕ) (ending : LineEnding) (t u : List ℕ) → 0 < width
        → wrapped width ending t ≡ wrapped width ending u → t ≡ u }
{}

/// The encoding of at least one byte, cut into lines, writes these bytes: a decoder of lines of that width gives
/// back what an encoder took.
pub fn wrapped_encoding_is_read_back<E: Alphabet>()
    ensures { (width : ℕ) (ending : LineEnding) (b : List ℕ) → 0 < width → 0 < length b → IsBytes b
        → IsWrappedText E.form width (wrapped width ending (encoding_of E.form b)) b }
{}
