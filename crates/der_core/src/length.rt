//! Lengths.
use crate::{Error, Result};
use std::marker::Model;

/// How many bytes a content or an encoding has (X.690, 8.1.3), below 2^32.
#[derive(Clone, Copy, Debug, PartialEq, Eq, PartialOrd, Ord, Hash)]
pub struct Length {
    number: u32,
}

impl Model for Length {
    ghost use Rattle.std.specs.Prelude.{ℕ};

    ghost Value = { ℕ };

    ghost view = { λ length. length.number };

    ghost inverse = { λ n. record { number = n } };
}

impl Length {
    ghost use Rattle.std.specs.Prelude.{◌≡◌, ◌+◌, ◌≤◌, ◌^◌, MatchResult};

    /// A count of bytes.
    pub const fn new(n: u32) -> Length
        ensures { result ≡ n }
    {
        Length { number: n }
    }

    /// The count.
    pub const fn get(&self) -> u32
        ensures { result ≡ self.now }
    {
        self.number
    }

    /// The length of two fields, one behind the other: `Overlength` where it reaches 2^32.
    pub fn checked_add(self, other: Length) -> Result<Length>
        ensures { MatchResult result (λ n. n ≡ self + other) (λ e. (e ≡ Error.Overlength) × (2 ^ 32 ≤ self + other)) }
    {
        match self.number.checked_add(other.number) {
            Some(number) => Ok(Length { number }),
            None => Err(Error::Overlength),
        }
    }
}
