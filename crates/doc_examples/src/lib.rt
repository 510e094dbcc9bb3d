//! The callers that the documents show, each over public items alone. A page holds what stands between `cut` and `end`,
//! letter by letter.
#![tactic(auto)]

pub mod alphabets;
pub mod base64;
pub mod bundles;
pub mod header;
pub mod identifiers;
pub mod json;
pub mod keys;
pub mod programs;
pub mod source;
pub mod streams;
pub mod tokens;
pub mod updates;
pub mod values;
