//! A log that one owner appends to in rounds of two entries, over `logbook`. A round begins with an entry that may be refused and ends with one that can't be,
//! so what is done between the two can be noted whatever came of it. Anyone may keep a token of the log as it was: of
//! two tokens of one log the shorter begins the longer.
#![tactic(auto)]

mod log;
mod rule;
#[cfg(test)]
mod tests;

pub use log::{RoundLog, Trial};
pub use rule::{Begun, Ended, Law, NoGain, Token, compare_tokens};
