//! Laws of copies and comparisons, each as the contract of a function.
ghost use Rattle.identity_io.specs.Comparisons.{AreCopiesSame, AreEqualAs};

use crate::{DiskError, Failed, ReadError};

/// A copy of an error is that error.
pub fn copied_errors_are_the_same()
    ensures failed { AreCopiesSame ⟦<Failed as Clone>⟧.is_clone }
    ensures read { AreCopiesSame ⟦<ReadError as Clone>⟧.is_clone }
    ensures disk { AreCopiesSame ⟦<DiskError as Clone>⟧.is_clone }
{}

/// Errors are equal exactly where they are the same.
pub fn equal_errors_are_the_same()
    ensures failed { AreEqualAs (λ e. e) ⟦<Failed as PartialEq>⟧.eq }
    ensures read { AreEqualAs (λ e. e) ⟦<ReadError as PartialEq>⟧.eq }
    ensures disk { AreEqualAs (λ e. e) ⟦<DiskError as PartialEq>⟧.eq }
{}
