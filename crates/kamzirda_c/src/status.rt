//! The numbers that calls answer.

pub(crate) const DONE: u32 = 0;

/// The input breaks a rule.
pub(crate) const REFUSED: u32 = 1;

/// An argument that stands for one of several things stands for none.
pub(crate) const NO_CHOICE: u32 = 2;

pub(crate) const NO_MEMORY: u32 = 5;

/// The input is longer than a call takes.
pub(crate) const TOO_LARGE: u32 = 6;

/// A buffer of the caller's is too short for the answer.
pub(crate) const NO_ROOM: u32 = 8;
