//! Tests of `spki` and `pkcs8`, over their public items alone, and callers' own types of keys with the key traits.
#![tactic(auto)]

#[cfg(test)]
mod checks;
#[cfg(test)]
mod private_keys;
#[cfg(test)]
mod public_keys;
