//! Tests of `spiffe_id`, `spiffe_json`, `spiffe_bundle` and `spiffe_token`, over their public items alone, under the name `spiffe_core`
//! where it passes them on. Expected values come from the rules in their order, worked out by hand, and from openssl and python.
#![tactic(auto)]

#[cfg(test)]
mod bundles;
#[cfg(test)]
mod checks;
#[cfg(test)]
mod identifiers;
#[cfg(test)]
mod json;
#[cfg(test)]
mod members;
#[cfg(test)]
mod tokens;
