//! Tests of `identity_source`, over its public items alone.
#![tactic(auto)]

#[cfg(test)]
mod checks;
#[cfg(test)]
mod sources;
#[cfg(test)]
mod whole_states;
