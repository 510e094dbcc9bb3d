//! Tests of `token_time` and `identity_verify`, over their public items alone.
#![tactic(auto)]

#[cfg(test)]
mod checks;
#[cfg(test)]
mod current;
#[cfg(test)]
mod times;
#[cfg(test)]
mod verification;
