//! Tests of `bundle_document` and `bundle_selection` over their public items.
#![tactic(auto)]

#[cfg(test)]
mod checks;
#[cfg(test)]
mod documents;
#[cfg(test)]
mod selection;
