//! Laws of the number of conversions, each as the contract of a function.
#![tactic(auto)]

ghost use Rattle.std.specs.Prelude.{◌≡◌, List, ℕ, false};
ghost use Rattle.base64_text.specs.Canonical.{is_clean, unpadded_len};
ghost use Rattle.base64_text.specs.Counts.{decode_count};

use base64_alphabet::Alphabet;

/// The decoding of texts that aren't clean, which have passed the tests of their lengths, takes as many
/// conversions as their length without padding tells, wherever a bad character stands.
pub fn unclean_texts_take_one_count<E: Alphabet>()
    ensures { (t u : List ℕ) → is_clean E.form.table E.form.padded t ≡ false → is_clean E.form.table E.form.padded u ≡ false
        → unpadded_len E.form.padded t ≡ unpadded_len E.form.padded u → decode_count E.form.table E.form.padded t ≡ decode_count E.form.table E.form.padded u }
{}
