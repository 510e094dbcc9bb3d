//! Tests of `der_small`, over its public items alone, and a type of a caller's own with three fields, which is read and written.
#![tactic(auto)]

#[cfg(test)]
mod documents;
#[cfg(test)]
mod fields;
#[cfg(test)]
mod identifiers;
#[cfg(test)]
mod large_values;
#[cfg(test)]
mod round_trip;
#[cfg(test)]
mod values;
#[cfg(test)]
mod visit;
