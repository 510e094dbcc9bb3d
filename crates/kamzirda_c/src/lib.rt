//! Calls for C, in a static library: Base64 texts, keys, SPIFFE IDs and updates. Each call is made of the caller's own
//! buffers, keeps nothing behind, waits for nobody, and answers a status.
//!
//! `include/kamzirda.h` declares them for C, and says what a caller owes.
#![tactic(auto)]

mod base64;
mod buffers;
mod ids;
mod keys;
mod parts;
mod status;
mod texts;
mod updates;
