//! Laws of update documents, each as the contract of a function.
ghost use Rattle.std.specs.Prelude.{◌≡◌, ◌<◌, ◌^◌, List, ℕ, length};
ghost use Rattle.std.specs.List.{flat_map};
ghost use Rattle.update_document.specs.Elements.{Elements};
ghost use Rattle.update_document.specs.Written.{ReadsUpdate, WrittenUpdate};

use der_small::Lawful;

/// Bytes are the encodings of one list of values exactly where they are what is written of it.
pub fn lists_are_written<'a, T: Lawful<'a>>()
    ensures written { (values : List T) (bytes : List ℕ) → Elements T.Reads values bytes → bytes ≡ flat_map T.encoding values }
    ensures read { (values : List T) → length (flat_map T.encoding values) < 2 ^ 32 → Elements T.Reads values (flat_map T.encoding values) }
{}

/// Bytes are the document of one update at most.
pub fn documents_have_one_update()
    ensures { (bytes : List ℕ) (one other : WrittenUpdate) → ReadsUpdate bytes one → ReadsUpdate bytes other → one ≡ other }
{}
