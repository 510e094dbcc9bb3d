//! Laws of reading, each as the contract of a function.
ghost use Rattle.std.specs.Prelude.{◌≡◌, ◌≢◌, ◌≤◌, List, ℕ};
ghost use Rattle.std.specs.Bool.{Decides};
ghost use Rattle.identity_update.specs.Canonical.{update_der};
ghost use Rattle.identity_update.specs.Lawful.{IsLawful};
ghost use Rattle.identity_update.specs.Parts.{UpdateParts};
ghost use Rattle.base64ct.specs.Canonical.{IsBytes};
ghost use Rattle.base64ct.specs.declared.line_ending.LineEnding.{LineEnding};
ghost use Rattle.identity_update.specs.Reading.{Refuses, Writes};
ghost use Rattle.identity_update.specs.Text.{update_text};

use crate::error::UpdateError;
use crate::update::Update;
use base64ct::{Base64, text_has_one_value, wrapped_encoding_is_read_back};

/// A text of a width has one reading, want of memory aside: at most one update, or at most one broken rule, and never both.
pub fn text_has_one_reading()
    ensures update { (width : ℕ) (text : List ℕ) (u v : UpdateParts) → Writes width text u → Writes width text v → u ≡ v }
    ensures refusal { (width : ℕ) (text : List ℕ) (e f : UpdateError) → Refuses width text e → Refuses width text f → e ≢ UpdateError.OutOfMemory
        → f ≢ UpdateError.OutOfMemory → e ≡ f }
    ensures never_both { (width : ℕ) (text : List ℕ) (u : UpdateParts) (e : UpdateError) → Writes width text u → Refuses width text e
        → e ≡ UpdateError.OutOfMemory }
{
    text_has_one_value::<Base64>();
}

/// An update that a text writes has entries and no reason, or a reason and no entries; each of its entries has one key
/// pair and a bundle, and each of its key sets is one.
pub fn written_updates_are_lawful()
    ensures { (width : ℕ) (text : List ℕ) (u : UpdateParts) → Writes width text u → IsLawful u }
{}

/// Updates are equal exactly where their entries, their bundles and their reasons are.
pub fn equal_updates_have_equal_parts()
    ensures { (a b : UpdateParts) → Decides (⟦<Update as PartialEq>⟧.eq a b) (a ≡ b) }
{}

/// Updates with one document are equal, as the documents of equal updates are.
pub fn documents_have_one_update(a: &Update, b: &Update)
    ensures { update_der a.now ≡ update_der b.now → a.now ≡ b.now }
{
    let _ = a.document();
    let _ = b.document();
}

/// At one width and with one ending, equal texts are those of equal updates.
pub fn texts_have_one_update(a: &Update, b: &Update)
    ensures { (width : ℕ) (ending : LineEnding) → 4 ≤ width → update_text width ending a.now ≡ update_text width ending b.now → a.now ≡ b.now }
{
    text_has_one_value::<Base64>();
    wrapped_encoding_is_read_back::<Base64>();
    documents_have_one_update(a, b);
    are_bytes(a.document());
    are_bytes(b.document());
}

// Tells the proof of a caller that what a slice holds are bytes.
fn are_bytes(bytes: &[u8])
    ensures { IsBytes bytes.now }
{
    let _ = bytes;
}
